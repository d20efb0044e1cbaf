//! Numbers that are the same in all lines, and may look like a message: an identifier of a process, a port.

use crate::cuts::Before;
use crate::table::{NEAREST, SAME_LINES};
use crate::window::Window;
use arrayvec::ArrayVec;
use fio_form::{Digits, Octets, Step, is_answer, run_in};

/// Returns whether a text is somewhere in a line.
fn is_in(line: &[u8], text: &[u8]) -> bool {
    for place in 0..line.len() {
        if line[place..].starts_with(text) {
            return true;
        }
    }
    false
}

/// Returns whether octets in a line of a window, with the characters around them, are in some of the nearest lines too: then they say
/// nothing.
pub(crate) fn is_number(lines: &Window, at: usize, said: Before) -> bool {
    let line = lines.line(at);
    if said.start >= line.len() || said.end >= line.len() || said.end < said.start {
        return false;
    }
    let text = &line[said.start.saturating_sub(1)..said.end + 1];
    let mut count = 0;
    for near in at.saturating_sub(NEAREST)..lines.len().min(at.saturating_add(NEAREST + 1)) {
        if near != at && count < SAME_LINES && is_in(lines.line(near), text) {
            count += 1;
        }
    }
    count == SAME_LINES
}

/// Returns whether the octets that a text begins with may be the answer to a command.
pub(crate) fn is_answered(command: &[u8], text: &[u8], digits: Digits, cycle: &[Step]) -> bool {
    let mut octets: Octets = ArrayVec::new();
    run_in(digits, cycle, text, &mut octets).is_some() && is_answer(command, &octets)
}
