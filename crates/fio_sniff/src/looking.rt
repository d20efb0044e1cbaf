//! Looks at the lines of a log while they come.
use crate::sniffing::{Forms, Sniffer};
use arrayvec::ArrayVec;
use fio_form::LineForm;
use fio_guess::table::{FORMS, LINES};
use fio_guess::{Window, hash_of};

/// The number of lines at the first look.
const FIRST: usize = 2;

/// What two looks have to agree in, of a form.
type Seen = ArrayVec<u64, FORMS>;

/// Looks at a window after 2, 4, 8, .. lines. Forms are shown once two looks in a row find the same ones; or three, if they leave
/// octets that may be messages, the third one after half as many lines more.
#[derive(Drop)]
pub struct Looking {
    /// The forms of the last look.
    above: Seen,
    /// Whether the look above that one found the same ones.
    is_again: bool,
    /// The number of lines at the next look; less than at the first one before that.
    next: usize,
}

/// Returns a hash of all that distinguishes a form from others.
fn seen_of(form: &LineForm) -> u64 {
    let mut hash = hash_of(form) ^ u64::from(form.is_echo);
    for value in &form.values {
        hash = (hash ^ u64::from(*value)).wrapping_mul(0x0000_0100_0000_01b3);
    }
    hash
}

impl Looking {
    /// Returns one that has not looked yet.
    pub fn new() -> Looking {
        Looking {
            above: ArrayVec::new(),
            is_again: false,
            next: 0,
        }
    }

    /// Begins anew, with an empty window.
    pub fn clear(&mut self) {
        self.above.clear();
        self.is_again = false;
        self.next = 0;
    }

    /// Looks at a window to which a line was added, if it is time. Returns the forms if the last look found the same ones; `None`
    /// if it is too early to say. A window that is full, and one of a log that has ended, is for `Sniffer::sniff`.
    pub fn look(&mut self, sniffer: &mut Sniffer, lines: &Window) -> Option<Forms> {
        if lines.len() < self.next.max(FIRST) || self.next >= LINES {
            return None;
        }
        self.next = lines.len().saturating_mul(2);
        let forms = sniffer.sniff(lines, false);
        let mut seen: Seen = ArrayVec::new();
        for form in &forms {
            let _ = seen.try_push(seen_of(form));
        }
        let is_same = !forms.is_empty() && seen.as_slice() == self.above.as_slice();
        if is_same && (self.is_again || !sniffer.leaves_octets(&forms, lines)) {
            return Some(forms);
        }
        self.is_again = is_same;
        if is_same {
            self.next = lines.len().saturating_add(lines.len() / 2);
        }
        self.above = seen;
        None
    }
}
