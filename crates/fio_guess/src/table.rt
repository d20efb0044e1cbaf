//! What makes a form: all numbers.

/// A form is shown by this many different sure messages.
pub const SURE: usize = 3;
/// The same in a log of few lines that has ended.
pub const SURE_OF_FEW: usize = 1;
/// This many lines are few.
pub const FEW: usize = 64;
/// The share of its messages that are sure: one in this many.
pub const SURE_SHARE: usize = 25;
/// Or it is shown by this many messages that answer or are answered.
pub const PAIRS: usize = 2;
/// The share of these, in tenths.
pub const PAIR_TENTHS: usize = 3;
/// Messages of a form that one word distinguishes from another one.
pub const KIN: usize = 8;
/// Their share of its lines, in hundredths.
pub const KIN_HUNDREDTHS: usize = 98;
/// Lines with one value of a number: the share that fits, in tenths.
pub const SPLIT_TENTHS: usize = 9;
/// A copy: more than this many fifths of its messages are those of the nearest frame of another form.
pub const COPY_FIFTHS: usize = 4;
/// A looser notation is needed if one in this many messages is written so.
pub const LOOSE_SHARE: usize = 4;
/// Of a notation with or without blanks, messages of this many octets count.
pub const LOOSE_OCTETS: usize = 3;
/// Pieces of messages are shown by this many of which one begins no message.
pub const PIECES: usize = 2;
/// Commands alone are shown by this many polls.
pub const POLLS: usize = 8;
/// This many tenths of them have the number of the one above or one more.
pub const POLL_TENTHS: usize = 9;
/// Early looks, at fewer lines, are not shown a form by commands alone.
pub const POLL_LINES: usize = 256;
/// In a log with nothing else they are shown by this many polls whose numbers go up one by one, or by `POLLS` with one number.
pub const POLLS_UP: usize = 4;
/// In a log of at most this many lines, and with nothing else, two forms show each other: one of commands and one of answers.
pub const PAIR_LINES: usize = 4;
/// The most forms that are tried.
pub const TRIED: usize = 60;
/// The most of one front.
pub const TRIED_A_FRONT: usize = 12;
/// The most of one front with one kind of rows.
pub const TRIED_A_KIND: usize = 4;
/// A stream is shown by this many messages.
pub const STREAM: usize = 8;
/// The share of the octets of a stream that are in messages, in tenths.
pub const STREAM_TENTHS: usize = 9;
/// The most fronts that are tried as those of a stream.
pub const STREAM_FRONTS: usize = 24;
/// The most of them that differ in numbers alone, if there are others.
pub const STREAM_FRONTS_OF_WORDS: usize = 12;
/// The most lines of a window.
pub const LINES: usize = 1024;
/// The most characters of a window.
pub const CHARACTERS: usize = 1 << 16;
/// The most forms.
pub const FORMS: usize = 16;
/// The most places of a line where octets may begin.
pub const PLACES: usize = 48;
/// The most words of a line that may have octets and are no numbers.
pub const WORDS: usize = 12;
/// The most pieces of a front that may begin anywhere.
pub const ENDING: usize = 12;
/// The most characters between two octets.
pub const GAP: usize = 14;
/// The most octets before a message.
pub const BEFORE: usize = 64;
/// The most octets after a message.
pub const AFTER: usize = 4;
/// A run of more octets is long.
pub const LONG: usize = 30;
/// In a run of this many octets none is tried as octets before the message.
pub const HUGE: usize = 1200;
/// The most guesses that are kept.
pub const GUESSES: usize = 2048;
/// The most values of a number.
pub const VALUES: usize = 24;
/// The most numbers of a front that are tried.
pub const NUMBERS: usize = 12;
/// The numbers of a front that may distinguish the lines of a stream.
pub const SLOTS: usize = 3;
/// The most values of such a number.
pub const FEW_VALUES: usize = 4;
/// Slots of their index.
pub const GUESS_SLOTS: usize = 2 * GUESSES;
/// What a sure message weighs more than another one.
pub const SURE_WEIGHT: u32 = 1000;
/// Cycles of a place.
pub const CYCLES: u8 = 3;
/// Numbers of a front that are tried as the offset of a dump's row.
pub const NUMBERS_TRIED: u8 = 6;
/// The most rows that are read of a dump.
pub const ROWS: usize = 128;
/// How far before its octets a front begins that may begin anywhere.
pub const NEAR: usize = 160;
/// Octets before others are a number if this many of the nearest lines have the same ones.
pub const SAME_LINES: usize = 2;
/// This many lines above a line, and below it, are the nearest ones.
pub const NEAREST: usize = 4;
/// The most characters of an octet.
pub const OCTET: usize = 12;
/// The most octets of a cycle.
pub const CYCLE_OCTETS: usize = 32;
/// The octets of a row of the narrowest dump: a message in fewer has no second row.
pub const NARROW: u8 = 8;
