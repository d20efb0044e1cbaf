//! Forms: how some lines of a log write the octets of messages.
ghost use Rattle.std.specs.Prelude.{◌≡◌, true};
ghost use Rattle.fio_form.specs.Forms.{is_form};

use arrayvec::ArrayVec;

/// The most pieces of a front.
pub const FRONT_PIECES: usize = 256;

/// The most values that a number of a front may take.
pub const FRONT_VALUES: usize = 24;

/// The most steps of a cycle.
pub const CYCLE_STEPS: usize = 64;

/// A piece of the *front*, the text before the octets of a line.
#[derive(Clone, Copy, Debug, Default, Drop, PartialEq, Eq)]
pub enum Piece {
    /// This character.
    Character(u8),
    /// A number of decimal digits, whatever its value.
    #[default]
    Decimal,
    /// A number of hexadecimal digits, whatever its value.
    Hexadecimal,
    /// Some blanks: spaces and tabs.
    Blanks,
    /// A number of hexadecimal digits, with blanks before it or not: it is at the right end of its column.
    Padded,
    /// A quote, single or double.
    Quote,
    /// A number of one to eight hexadecimal digits that has one of the form's values, as a port or an identifier.
    Value,
}

/// How an octet is written.
#[derive(Clone, Copy, Debug, Default, Drop, PartialEq, Eq)]
pub enum Digits {
    /// Two hexadecimal digits: `0c`.
    #[default]
    Pairs,
    /// A hexadecimal number without zeros before it, as `printf("%x")` has it: `c`; an octet above 127 may have 32 bits with a
    /// sign: `ffffffb6`. No letter or digit follows it.
    Short,
    /// `0x` and a hexadecimal number of one or two digits, or `0` alone, as `printf("%#x")` has it: `0xc`. No letter or digit
    /// is after it.
    Prefixed,
    /// A decimal number: `12`; an octet above 127 may be one below 0: `-74`.
    Decimal,
    /// A decimal number with blanks before it or not, at the right end of its column: ` 12`.
    Columns,
    /// Three octal digits: `014`.
    Octal,
    /// Eight binary digits: `00001100`.
    Binary,
    /// A character of a literal or an escape: `<`, `\x0c`, `\f`, `\14`, `\u000c`, up to this quote; a line feed: to the end of the
    /// line; 0: to the quote before the first one. An octal escape of one digit has no 8 or 9 after it, as
    /// the decimal number of `\182` would.
    Text(u8),
    /// A character, an escape of one letter, or three octal digits, at the right end of four columns, as `od -c` has them.
    Cells,
    /// A character of base64, which are four for three octets.
    Sextets,
}

/// A step of the *cycle*: what is written of some octets and between them, after which it begins again. A cycle begins with
/// an octet; the marks after an octet are the *gap* between it and the next one. What is before the first octet belongs to
/// the front.
///
/// | Written | Front | Cycle |
/// |---|---|---|
/// | `TX 36 05` | `TX ` | an octet, a blank |
/// | `TX 0x36, 0x05` | `TX 0x` | an octet, `, 0x` |
/// | `TX 3605` | `TX ` | an octet |
/// | `xxd`: `3605 0c01` | the offset, `: ` | an octet, an octet, a blank |
#[derive(Clone, Copy, Debug, Default, Drop, PartialEq, Eq)]
pub enum Step {
    /// An octet.
    #[default]
    Octet,
    /// This character between two octets.
    Mark(u8),
    /// A blank or nothing.
    MaybeBlank,
}

/// How a message continues in the lines after its first one.
#[derive(Clone, Copy, Debug, Default, Drop, PartialEq, Eq)]
pub enum LineRows {
    /// It does not: a message is one line.
    #[default]
    One,
    /// Each row has the form's front, of which a number is the offset of its first octet: it grows by the octets of the row
    /// above. All rows but the last have this width. Of a dump that begins at 0, a row with another offset that goes on with
    /// none above begins no message.
    Offset {
        number: u8,
        base: u8,
        width: u8,
        begins_at_zero: bool,
    },
    /// Each row has the form's front, and each but the last has this number of octets.
    Wrapped(u8),
    /// Each row but the first is nothing but octets, with blanks around them.
    Bare,
    /// Each row has the form's front and any number of octets.
    Pieces,
    /// The octets of all lines of such forms are one stream, which is divided into messages.
    Stream,
    /// The octets of all lines of such forms are one stream of frames between flags.
    Flags,
}

/// How some lines of a log are written: the front, then octets in a notation, of which some before and after are no part of
/// the message, then a tail of which nothing is said.
#[derive(Drop)]
pub struct LineForm {
    /// The text before the octets. No piece goes on with a character that the next piece, or an octet, begins with.
    pub(crate) front: ArrayVec<Piece, FRONT_PIECES>,
    /// How an octet is written.
    pub(crate) digits: Digits,
    /// Octets and what is between them.
    pub(crate) cycle: ArrayVec<Step, CYCLE_STEPS>,
    /// The values of each `Piece::Value` of the front.
    pub values: ArrayVec<u32, FRONT_VALUES>,
    /// Whether the front may begin anywhere in the line: then the first place counts after which an octet is.
    pub is_anywhere: bool,
    /// The number of octets before the message: an address, a packet's header.
    pub before: u8,
    /// The number of octets after the message: a check.
    pub after: u8,
    /// Whether the octets after those before the message are a frame of the wire, with its flags or without.
    pub is_framed: bool,
    /// How a message continues in further lines.
    pub rows: LineRows,
    /// Whether the octets are written as words of 16 bits, the lower octet last, of which the last one may have a 0 too many.
    pub is_swapped: bool,
    /// Whether each message repeats the one above it.
    pub is_echo: bool,
    ghost whole: { is_form front.items digits cycle.items ≡ true },
}
