//! What the lines of a log show of those that no form has: which of them stand directly above octets.
use crate::blanks::are_blanks;
use crate::digits::is_letter;
use crate::shapes::sum_of;
use crate::sides::said_at;
use arrayvec::ArrayVec;
use fio_form::{LineForm, LineRows, Octets, find, find_bare};

/// The most shapes that are kept.
const SHAPES: usize = 64;

/// So many lines of a shape show where it stands.
const SHOWN: u16 = 3;

/// Of this many lines of a shape at most one has no octets below it, if it stands above octets.
const REGULAR: u16 = 4;

/// A shape, and what is below its lines.
#[derive(Clone, Copy, Debug, Default)]
struct Head {
    sum: u64,
    /// How many of its lines have octets directly below them,
    rows: u16,
    /// how many of these are below a bracket that is open, and begin further to the right,
    inner: u16,
    /// and how many lines have something else below them.
    others: u16,
    /// How many of its lines have one message, or two, between them and the next line of this kind,
    whole: u16,
    /// and how many have more.
    more: u16,
}

/// The shapes of lines that no form has.
#[derive(Drop)]
pub(crate) struct Heads {
    heads: ArrayVec<Head, SHAPES>,
    /// How many lines end within a list whose octets are below them.
    opening: u16,
    /// How many lines that were learnt from are not told yet.
    ahead: usize,
    /// The line directly above: its shape, the blanks before it, and whether it ends within a list.
    above: Option<(usize, usize, bool)>,
    /// The last line that begins with a rule, and what is below it.
    rule: Option<usize>,
    below: Below,
}

/// What is below the last line that may be a heading of a message or an exchange.
#[derive(Clone, Copy, Debug, PartialEq, Eq)]
enum Below {
    /// Nothing.
    Nothing,
    /// A message in one row.
    Message,
    /// Two, which may be a command and its answer.
    Exchange,
    /// A message in several rows, or octets that are none.
    Rows,
    /// More messages.
    More,
}

/// Returns how many blanks a line begins with.
pub(crate) fn indent_of(line: &[u8]) -> usize {
    line.iter()
        .take_while(|character| matches!(**character, b' ' | b'\t'))
        .count()
}

/// Returns whether a line has no words, and is not blank: it is the border of a box, or divides a log.
pub(crate) fn is_border(line: &[u8]) -> bool {
    for character in line {
        if is_letter(*character) && *character != b'_' && *character < 128 {
            return false;
        }
    }
    line.len() > LEAST && !are_blanks(line)
}

/// A border has more characters than this: a bracket alone is none.
const LEAST: usize = 3;

/// Returns whether a line ends with a bracket that is open, or within a list that has begun in it.
fn is_open(line: &[u8]) -> bool {
    let mut open: usize = 0;
    for character in line {
        match *character {
            b'(' | b'[' | b'{' => open = open.saturating_add(1),
            b')' | b']' | b'}' => open = open.saturating_sub(1),
            _ => {}
        }
    }
    open > 0 && matches!(line.last(), Some(b',' | b'(' | b'[' | b'{' | b':'))
}

/// Returns the first of some forms that has a line, as one that begins or as a row.
pub(crate) fn row_in<'a>(
    forms: &'a [LineForm],
    line: &[u8],
    octets: &mut Octets,
) -> Option<&'a LineForm> {
    for form in forms {
        if find(form, line, octets).is_some()
            || form.rows == LineRows::Bare && find_bare(form, line, octets).is_some()
        {
            return Some(form);
        }
    }
    None
}

impl Heads {
    /// Returns no shapes.
    pub(crate) fn new() -> Heads {
        Heads {
            heads: ArrayVec::new(),
            opening: 0,
            ahead: 0,
            above: None,
            rule: None,
            below: Below::Nothing,
        }
    }

    /// Takes all shapes out.
    pub(crate) fn clear(&mut self) {
        self.heads.clear();
        self.opening = 0;
        self.ahead = 0;
        self.above = None;
        self.rule = None;
        self.below = Below::Nothing;
    }

    /// Returns the index of the shape of a line, if there is room for it.
    fn place_of(&mut self, line: &[u8]) -> Option<usize> {
        let sum = sum_of(line);
        for (at, head) in self.heads.iter().enumerate() {
            if head.sum == sum {
                return Some(at);
            }
        }
        let head = Head {
            sum,
            ..Head::default()
        };
        self.heads.try_push(head).ok()?;
        Some(self.heads.len() - 1)
    }

    /// Returns what is known of the shape of a line.
    fn get(&self, sum: u64) -> Option<Head> {
        for head in self.heads.as_slice() {
            if head.sum == sum {
                return Some(*head);
            }
        }
        None
    }

    /// Begins with lines that are learnt from before they are told, so many.
    pub(crate) fn begin(&mut self, ahead: usize) {
        self.clear();
        self.ahead = ahead;
    }

    /// Learns from a line that is told, unless it was learnt from before; `is_row`: a form has it; `is_message`: it gives a message.
    pub(crate) fn take(&mut self, line: &[u8], is_row: bool, is_message: bool) {
        if self.ahead > 0 {
            self.ahead -= 1;
        } else if is_row {
            self.take_row(line, is_message);
        } else {
            self.take_other(line);
        }
    }

    /// Takes a line with octets.
    pub(crate) fn take_row(&mut self, line: &[u8], is_message: bool) {
        self.count_row(self.above, indent_of(line));
        self.above = None;
        self.below = match (self.below, is_message) {
            (Below::Nothing, true) => Below::Message,
            (Below::Message, true) => Below::Exchange,
            (Below::Message | Below::Exchange | Below::More, _) => Below::More,
            _ => Below::Rows,
        };
    }

    /// Takes a line that no form has.
    pub(crate) fn take_other(&mut self, line: &[u8]) {
        if begins_rule(line) {
            self.count_rule(self.rule, self.below);
            self.rule = self.place_of(line);
            self.below = Below::Nothing;
        }
        if is_border(line) {
            return;
        }
        self.count_other(self.above);
        self.above = if are_blanks(line) {
            None
        } else {
            self.place_of(line)
                .map(|place| (place, indent_of(line), is_open(line)))
        };
    }

    /// Counts a row with this many blanks before it, directly below a line.
    fn count_row(&mut self, above: Option<(usize, usize, bool)>, indent: usize) {
        if let Some((place, own, is_open)) = above
            && place < self.heads.len()
        {
            let head = &mut self.heads[place];
            head.rows = head.rows.saturating_add(1);
            if is_open && indent > own {
                head.inner = head.inner.saturating_add(1);
                self.opening = self.opening.saturating_add(1);
            }
        }
    }

    /// Counts a line without octets, directly below another one.
    fn count_other(&mut self, above: Option<(usize, usize, bool)>) {
        if let Some((place, _, _)) = above
            && place < self.heads.len()
        {
            let head = &mut self.heads[place];
            head.others = head.others.saturating_add(1);
        }
    }

    /// Counts what is below a line that begins with a rule.
    fn count_rule(&mut self, rule: Option<usize>, below: Below) {
        if let Some(place) = rule
            && place < self.heads.len()
        {
            let head = &mut self.heads[place];
            match below {
                Below::Message | Below::Exchange => head.whole = head.whole.saturating_add(1),
                Below::More => head.more = head.more.saturating_add(1),
                _ => {}
            }
        }
    }

    /// Returns whether lines of a shape stand directly above octets, if the lines show it.
    pub(crate) fn is_heading(&self, sum: u64) -> Option<bool> {
        let head = self.get(sum)?;
        Some(head.rows > 1 && head.others <= head.rows / REGULAR)
    }

    /// Returns whether the octets of a line are in the lines below it, which begin further to the right: it ends within a list, as
    /// those of pretty printers do.
    pub(crate) fn is_opening(&self, line: &[u8]) -> bool {
        if !is_open(line) || self.opening < SHOWN {
            return false;
        }
        match self.get(sum_of(line)) {
            Some(head) => {
                let others = head
                    .others
                    .saturating_add(head.rows - head.inner.min(head.rows));
                head.inner > 0 && others <= head.inner / REGULAR
            }
            None => false,
        }
    }

    /// Returns whether a line that begins with a rule is the heading of one message or one exchange, as most of its shape are.
    pub(crate) fn is_of_message(&self, line: &[u8]) -> bool {
        match self.get(sum_of(line)) {
            Some(head) => begins_rule(line)
                && (is_border(line) || said_at(line, line.len()).is_some())
                && head.whole >= SHOWN
                && head.more <= head.whole / REGULAR,
            None => false,
        }
    }
}

/// Returns whether a line begins with three equal signs that are no letters or digits, after its blanks.
fn begins_rule(line: &[u8]) -> bool {
    match *line {
        [first, second, third, ..] => first == second
            && second == third
            && matches!(first, b'-' | b'=' | b'*' | b'#' | b'~' | b'_'),
        _ => false,
    }
}
