//! The header of a frame: what is between the front of its line and its message.
ghost use Rattle.std.specs.Prelude.{◌≡◌, false};
ghost use Rattle.fio_log.specs.Headers.{header_before, two_of};

use fio_form::{LineForm, LineRows, Octets, run_in};

/// The address and the control octet before a message.
#[derive(Clone, Copy, Debug, Default, PartialEq, Eq)]
pub struct FrameHeader {
    /// The address; 0 if there is none.
    pub address: u8,
    /// The control octet; 0 if there is none. Of a message of a module of another size, which has no header here, how many octets of
    /// inputs or of outputs it has (`LineVerdict::foreign`).
    pub control: u8,
    /// How many of these there are: 0, 1 for the address alone, or 2.
    pub count: u8,
}

/// No header.
pub(crate) const NO_HEADER: FrameHeader = FrameHeader {
    address: 0,
    control: 0,
    count: 0,
};

/// Returns the header of the first two of octets; none if there are fewer.
fn two_of(octets: &[u8]) -> FrameHeader
    ensures { result ≡ two_of octets.now }
{
    match octets {
        [address, control, ..] => FrameHeader {
            address: *address,
            control: *control,
            count: 2,
        },
        _ => NO_HEADER,
    }
}

/// Returns the header in the first ones of octets, of which this many are before a message: the last two, or the only one. More than
/// three are the header of a packet, and have no address.
pub(crate) fn header_before(count: usize, octets: &[u8]) -> FrameHeader
    ensures { result ≡ header_before count octets.now }
{
    match (count, octets) {
        (1, [address, ..]) => FrameHeader {
            address: *address,
            control: 0,
            count: 1,
        },
        (2, _) => two_of(octets),
        (3, [_, octets @ ..]) => two_of(octets),
        _ => NO_HEADER,
    }
}

/// Returns an octet of a frame that is after an escape.
fn unescaped(octet: u8) -> u8 {
    if octet / 32 % 2 == 0 {
        octet + 32
    } else {
        octet - 32
    }
}

/// Returns the header of a frame of the wire, by its octets after the flag: as they are, or with escapes.
fn header_inside(has_escapes: bool, octets: &[u8]) -> FrameHeader {
    if !has_escapes {
        return two_of(octets);
    }
    match octets {
        [0x7d, address, 0x7d, control, ..] => two_of(&[unescaped(*address), unescaped(*control)]),
        [0x7d, address, control, ..] => two_of(&[unescaped(*address), *control]),
        [address, 0x7d, control, ..] => two_of(&[*address, unescaped(*control)]),
        _ => two_of(octets),
    }
}

/// Returns the header of a frame of the wire with this many octets between its flags, which begin with these and hold a message with
/// this many: octets beside that, header and check are escapes.
pub(crate) fn frame_header(count: usize, message: usize, octets: &[u8]) -> FrameHeader {
    header_inside(count != message.saturating_add(4), octets)
}

/// Returns the header of the octets of a form, which hold a message with this many.
pub(crate) fn header_in(form: &LineForm, octets: &[u8], message: usize) -> FrameHeader
    ensures { form.now.is_framed ≡ false → result ≡ header_before form.now.before octets.now }
{
    let before = usize::from(form.before);
    if !form.is_framed {
        return header_before(before, octets);
    }
    if octets.len() <= before {
        return NO_HEADER;
    }
    let (_, frame) = octets.split_at(before);
    match frame {
        [0x7e, rest @ ..] => frame_header(rest.len().saturating_sub(1), message, rest),
        _ => two_of(frame),
    }
}

/// Returns the header of the octets of a form, which a line has from a place on and which hold a message with this many.
pub(crate) fn header_by(
    form: &LineForm,
    line: &[u8],
    place: usize,
    octets: &[u8],
    message: usize,
    held: &mut Octets,
) -> FrameHeader {
    if form.before > 0 || form.is_framed {
        header_in(form, octets, message)
    } else {
        header_of_front(form, line, place, octets.len(), held)
    }
}

/// Returns where the word before a place begins, if there is one.
fn word_before(line: &[u8], place: usize) -> Option<usize> {
    let mut begin = None;
    'characters: for back in 0..place {
        let at = place - 1 - back;
        match line.get(at) {
            Some(character) if character.is_ascii_alphanumeric() => begin = Some(at),
            _ if begin.is_some() => return begin,
            _ => {}
        }
    }
    begin
}

/// Returns whether a word that begins at a place is no part of a time or of another number.
fn is_apart(line: &[u8], at: usize) -> bool {
    at == 0
        || matches!(
            line.get(at - 1),
            Some(b' ' | b'\t' | b'[' | b'(' | b'<' | b'{' | b'=' | b'|' | b'#' | b'"' | b'\'')
        )
}

/// Returns the header in a front that ends with octets, which are written as those of the line are, and no part of another number:
/// the last two, or the only one, of at most three. The octets of the line are this many from a place on.
pub(crate) fn header_of_front(
    form: &LineForm,
    line: &[u8],
    start: usize,
    count: usize,
    octets: &mut Octets,
) -> FrameHeader {
    if form.rows != LineRows::One || form.is_swapped {
        return NO_HEADER;
    }
    let mut place = start;
    let mut header = NO_HEADER;
    'words: for more in 1..5 {
        let Some(at) = word_before(line, place) else {
            break;
        };
        let has_more = at < line.len()
            && run_in(form.digits(), form.cycle(), &line[at..], octets).is_some()
            && octets.len() == count.saturating_add(more);
        if !has_more {
            break;
        }
        if is_apart(line, at) {
            header = header_before(more, octets);
        }
        place = at;
    }
    header
}

/// The headers of some frames.
#[derive(Clone, Copy, Debug)]
pub(crate) struct Headers {
    /// That of the first one.
    first: Option<FrameHeader>,
    /// Whether another one has another.
    are_mixed: bool,
}

impl Headers {
    /// Returns the headers of no frames.
    pub(crate) fn new() -> Headers {
        Headers {
            first: None,
            are_mixed: false,
        }
    }

    /// Forgets all.
    pub(crate) fn clear(&mut self) {
        *self = Headers::new();
    }

    /// Takes that of a frame.
    pub(crate) fn add(&mut self, header: FrameHeader) {
        match self.first {
            None => self.first = Some(header),
            Some(first) => self.are_mixed = self.are_mixed || header != first,
        }
    }

    /// Returns the one that all have.
    pub(crate) fn common(&self) -> FrameHeader {
        match self.first {
            Some(first) if !self.are_mixed => first,
            _ => NO_HEADER,
        }
    }
}
