//! The frames of a window that have an octet before their message, which may be an address.
use crate::addresses::{AddressedFrame, Addresses};
use crate::header::header_by;
use fio_form::{LineForm, LineRows, Octets, Whole, find, whole_of};
use fio_guess::Window;

/// Returns what the lines of a window show, read by forms, of the octet before the messages of those without a frame check.
pub(crate) fn addresses_in(
    forms: &[LineForm],
    window: &Window,
    octets: &mut Octets,
    held: &mut Octets,
) -> Addresses {
    let mut addresses = Addresses::new();
    'lines: for at in 0..window.len() {
        if let Some(frame) = addressed_in(forms, window.line(at), octets, held) {
            addresses.add(frame);
        }
    }
    addresses
}

/// Returns the first frame of a line, if it has an octet before its message and no frame check.
fn addressed_in(
    forms: &[LineForm],
    line: &[u8],
    octets: &mut Octets,
    held: &mut Octets,
) -> Option<AddressedFrame> {
    for form in forms {
        if let Some(found) = find(form, line, octets) {
            return frame_of(form, line, found.start, octets, held);
        }
    }
    None
}

/// Returns the frame that octets of a form are, from a place of their line on, if they are one with an octet before its message.
fn frame_of(
    form: &LineForm,
    line: &[u8],
    place: usize,
    octets: &[u8],
    held: &mut Octets,
) -> Option<AddressedFrame> {
    if form.is_framed || form.is_echo || form.rows == LineRows::Stream {
        return None;
    }
    let (Whole::Message { start, end } | Whole::Any { start, end }) = whole_of(form, octets, held)
    else {
        return None;
    };
    let header = header_by(form, line, place, octets, end.saturating_sub(start), held);
    if header.count == 0 || start >= end || end > octets.len() {
        return None;
    }
    let message = &octets[start..end];
    Some(AddressedFrame {
        address: header.address,
        code: message[0],
        number: message.get(1).copied().unwrap_or(0),
    })
}
