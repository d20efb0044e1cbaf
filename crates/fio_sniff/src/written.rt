//! How octets are written, as far as notations differ in it.
use fio_form::is_hex;

/// How the octets of some lines are written.
#[derive(Clone, Copy, Default)]
pub(crate) struct Written {
    /// An octet has one digit.
    pub(crate) has_short: bool,
    /// An octet has two digits, and the first one is 0.
    pub(crate) has_zero: bool,
    /// An octet has eight digits.
    pub(crate) has_sign: bool,
    /// A blank is between two octets.
    pub(crate) has_blank: bool,
    /// Nothing is between two octets.
    pub(crate) is_glued: bool,
}

impl Written {
    /// Adds some digits in a row, by the first one and the character after them; `0x` has none.
    fn add_digits(&mut self, count: usize, first: u8, next: u8) {
        let is_mark = matches!(next, b'x' | b'X');
        self.has_zero = self.has_zero || count == 2 && first == b'0';
        self.has_short = self.has_short || count == 1 && !is_mark;
        self.has_sign = self.has_sign || count == 8;
        self.is_glued = self.is_glued || count > 2;
    }

    /// Adds the text of a line from its first octet to its last one.
    pub(crate) fn add(&mut self, text: &[u8]) {
        let mut count: usize = 0;
        let mut first = b' ';
        for character in text {
            if is_hex(*character) {
                first = if count == 0 { *character } else { first };
                count = count.saturating_add(1);
            } else {
                self.add_digits(count, first, *character);
                self.has_blank = self.has_blank || *character == b' ';
                count = 0;
            }
        }
        self.add_digits(count, first, b' ');
    }
}
