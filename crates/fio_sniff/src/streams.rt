//! Streams: forms whose octets go on from line to line.
use crate::candidates::Counting;
use crate::evidence::times;
use crate::fronts::differs_in_a_word;
use crate::known::mark_of;
use crate::set::Set;
use crate::sniffing::Forms;
use arrayvec::ArrayVec;
use fio_form::{Digits, LineForm, LineRows, Octets, digits_of, find, is_answer, value_of};
use fio_guess::table::{FEW_VALUES, SLOTS, STREAM, STREAM_TENTHS, SURE, SURE_OF_FEW};
use fio_guess::{Window, is_sure};
use fio_rows::{KEPT, Next, Stream};
use std::slice;

/// The values of a number that are distinguished.
const SEEN: usize = 8;

/// If this many octets of a stream wait for more,
const MANY: usize = 64;

/// one more for this many of them comes before they are divided again.
const HELD: usize = 16;

/// The forms of a stream: one, or one of each side.
type StreamForms = ArrayVec<LineForm, 2>;

/// Searches streams.
#[derive(Drop)]
pub(crate) struct Streams {
    counting: Counting,
    octets: Octets,
    stream: Stream,
    /// They are divided once it holds this many.
    next: usize,
    sure: Set,
    /// The forms of the best stream.
    best: Option<StreamForms>,
    /// Its messages.
    messages: u32,
    /// Whether one of them is an answer.
    has_answer: bool,
}

/// What a stream says.
#[derive(Clone, Copy, Default)]
struct Sum {
    /// Messages, and octets that are none.
    every: u32,
    messages: u32,
    /// Octets of messages, and all.
    octets: u64,
    there: u64,
    commands: u32,
    /// Commands with an answer below.
    answered: u32,
    /// The first octets of the last message, and how many these are.
    last: [u8; 2],
    count: u8,
}

impl Sum {
    fn tell(&mut self, message: &[u8], count: usize) {
        let mark = mark_of(message);
        let is_answered = is_answer(&self.last[..usize::from(self.count.min(2))], mark.octets());
        self.every = self.every.saturating_add(1);
        self.messages = self.messages.saturating_add(1);
        self.octets = self.octets.saturating_add(count as u64);
        self.answered = self.answered.saturating_add(u32::from(is_answered));
        self.commands = self.commands.saturating_add(u32::from(mark.is_command()));
        self.last = mark.first;
        self.count = mark.count;
    }

    /// Returns whether all octets are in messages, of which one answers the one above it.
    fn is_whole(&self) -> bool {
        self.every == self.messages && self.octets == self.there && self.answered > 0
    }

    /// Returns how many messages the stream has, less those of its octets that are none, if that shows it, else 0.
    fn strength(&self, sure: u32, is_flags: bool, is_few: bool) -> u32 {
        let is_shown = if is_few && !is_flags && self.is_whole() {
            sure as usize >= SURE_OF_FEW && self.messages as usize >= SURE
        } else if is_flags {
            self.messages as usize >= SURE && times(2, self.messages) >= u64::from(self.every)
        } else {
            sure as usize >= SURE
                && self.messages as usize >= STREAM
                && times(3, self.answered) >= u64::from(self.commands)
                && self.commands > 0
                && self.octets.saturating_mul(10) >= self.there.saturating_mul(STREAM_TENTHS as u64)
        };
        let broken = self.every.saturating_sub(self.messages);
        if is_shown {
            self.messages.saturating_sub(broken)
        } else {
            0
        }
    }
}

impl Streams {
    /// Returns one that has searched nothing.
    pub(crate) fn new() -> Streams {
        Streams {
            counting: Counting::new(),
            octets: ArrayVec::new(),
            stream: Stream::new(),
            next: 0,
            sure: Set::new(),
            best: None,
            messages: 0,
            has_answer: false,
        }
    }

    /// Counts the message that was divided off last.
    fn tell(&mut self, sum: &mut Sum, count: usize) {
        sum.tell(&self.stream.message, count);
        if is_sure(&self.stream.message) {
            self.sure.add(mark_of(&self.stream.message).hash);
        }
    }

    /// Counts the messages that the octets of the stream have by now.
    fn divide(&mut self, sum: &mut Sum, is_flags: bool) {
        for _ in 0..KEPT + 1 {
            match if is_flags {
                self.stream.unframe()
            } else {
                self.stream.divide()
            } {
                Next::Message(count) => self.tell(sum, count),
                Next::Broken(_) => sum.every = sum.every.saturating_add(1),
                Next::Idle(_) => {}
                Next::Wait => return,
            }
        }
    }

    /// Takes the octets of a line, and counts the messages that end there. While many octets wait for what goes on after them they
    /// are divided less often.
    fn take(&mut self, sum: &mut Sum, is_flags: bool) {
        sum.there = sum.there.saturating_add(self.octets.len() as u64);
        for at in 0..self.octets.len() {
            if let Some(octet) = self.octets.get(at) {
                self.stream.take(*octet);
            }
            if self.stream.octets.len() >= self.next {
                self.divide(sum, is_flags);
                let held = self.stream.octets.len();
                self.next = if held < MANY {
                    0
                } else {
                    KEPT.min(held + held / HELD)
                };
            }
        }
    }

    /// Returns what the stream of some forms says.
    fn sum_of(&mut self, forms: &[LineForm], lines: &Window, is_flags: bool, is_few: bool) -> Sum {
        let mut sum = Sum::default();
        self.stream.clear();
        self.next = 0;
        self.sure.clear();
        for at in 0..lines.len() {
            for form in forms {
                if find(form, lines.line(at), &mut self.octets).is_some() {
                    self.take(&mut sum, is_flags);
                    break;
                }
            }
        }
        self.divide(&mut sum, is_flags);
        if is_few && !is_flags {
            if let Next::Message(count) = self.stream.end() {
                self.tell(&mut sum, count);
            }
        }
        sum
    }

    /// Keeps forms if their stream is the best one.
    fn try_forms(&mut self, own: &[LineForm], lines: &Window, is_few: bool) {
        let is_few = is_few && own.iter().all(|form| form.digits() == Digits::Pairs);
        for is_flags in [true, false] {
            let sum = self.sum_of(own, lines, is_flags, is_few);
            let messages = sum.strength(self.sure.count(), is_flags, is_few);
            if messages > self.messages {
                self.messages = messages;
                self.has_answer = sum.commands < sum.messages;
                let mut best: StreamForms = ArrayVec::new();
                for form in own {
                    let mut form = form.copied();
                    form.rows = if is_flags {
                        LineRows::Flags
                    } else {
                        LineRows::Stream
                    };
                    let _ = best.try_push(form);
                }
                self.best = Some(best);
            }
        }
    }

    /// Tries forms, and the same for each value of a number that takes few.
    fn try_all(&mut self, own: &[LineForm], lines: &Window, is_few: bool) {
        self.try_forms(own, lines, is_few);
        for number in 0..SLOTS {
            let values = values_of(own, number, lines);
            if values.len() > 1 && values.len() <= FEW_VALUES {
                for value in &values {
                    let mut narrow: StreamForms = ArrayVec::new();
                    for form in own {
                        let _ = narrow.try_push(with_value(form, number, *value));
                    }
                    self.try_forms(&narrow, lines, is_few);
                }
            }
        }
    }

    /// Searches the best stream; returns its messages. `is_few`: the lines are a short log, which has ended.
    pub(crate) fn search(&mut self, lines: &Window, is_few: bool) -> u32 {
        self.messages = 0;
        self.best = None;
        let forms = self.counting.candidates(lines);
        for form in &forms {
            self.try_all(slice::from_ref(form), lines, is_few);
        }
        for (at, one) in forms.iter().enumerate() {
            for (other, two) in forms.iter().enumerate() {
                if at < other
                    && one.digits() == two.digits()
                    && one.cycle() == two.cycle()
                    && differs_in_a_word(one.front(), two.front())
                {
                    self.try_all(&[one.copied(), two.copied()], lines, is_few);
                }
            }
        }
        self.messages
    }

    /// Returns whether the best stream has an answer.
    pub(crate) fn has_answer(&self) -> bool {
        self.has_answer
    }

    /// Returns the forms of the best stream.
    pub(crate) fn forms(&self) -> Forms {
        let mut forms: Forms = ArrayVec::new();
        if let Some(best) = &self.best {
            for form in best {
                let _ = forms.try_push(form.copied());
            }
        }
        forms
    }
}

/// Returns the values of a number of some forms, at most `SEEN`.
fn values_of(own: &[LineForm], number: usize, lines: &Window) -> ArrayVec<u32, SEEN> {
    let mut values: ArrayVec<u32, SEEN> = ArrayVec::new();
    for at in 0..lines.len() {
        for form in own {
            if let Some(digits) = digits_of(form, number, lines.line(at)) {
                if let Some(value) = value_of(digits) {
                    if !values.contains(&value) {
                        let _ = values.try_push(value);
                    }
                }
            }
        }
    }
    values
}

/// Returns a form for one value of a number.
fn with_value(form: &LineForm, number: usize, value: u32) -> LineForm {
    let mut count: usize = 0;
    for (at, piece) in form.front().iter().enumerate() {
        if piece.is_numeric() {
            if count == number {
                return match form.with_values(at, &[value]) {
                    Some(narrow) => narrow,
                    None => form.copied(),
                };
            }
            count = count.saturating_add(1);
        }
    }
    form.copied()
}
