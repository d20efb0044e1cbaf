//! Texts for faults, rules and what was heard. Each ends with a zero octet, like strings in C.
ghost use Rattle.std.specs.Prelude.{◌≡◌, ◌<◌, ◌≤◌, ◌+◌, ◌++◌, ◌==◌, [], codes, decimal, drop, length, Some, if◌then◌else◌};
ghost use Rattle.fio_message.specs.declared.faults.DecodeError.{DecodeError};
ghost use Rattle.fio_message.specs.Texts.{fault_text};
ghost use Rattle.fio_flat.specs.Faults.{error_in, fault_of, text_of_fault};
ghost use Rattle.fio_flat.specs.Written.{WritesText};
ghost use Rattle.fio_c.specs.declared.texts.TheConstants.{FAULT_WORDS, LONGEST_TEXT};
ghost use Rattle.fio_c.specs.Texts.{heard_in, text_of_content_rule, text_of_heard, text_of_rule};
ghost use Rattle.fio_cpu.specs.declared.poller.Heard.{Heard};
ghost use Rattle.fio_show.specs.HeardWords.{heard_text};
ghost use Rattle.fio_text.specs.declared.pieces.TheConstants.{LINE_OCTETS};

use crate::written::write_text;
use fio_check::{ContentRule, Rule};
use fio_flat::{Fault, FlatHeard};
use fio_message::DecodeError;
use fio_show::{LINE_OCTETS, put_heard};
use fio_text::{line_end, put_pieces};

/// The most octets of a text of this module, with the zero octet after it.
const LONGEST_TEXT: usize = 62;

/// The most octets of the text of a fault, whose numbers have 16 and 64 bits.
const FAULT_WORDS: usize = 50;

/// Writes the text of a fault, as `fio2070 show` has it, without a line end; the empty text if the kind is
/// none of 1 to 4. Returns how many octets it has, at most 50; without room for it and a zero octet nothing
/// is written.
#[unsafe(no_mangle)]
pub extern "C" fn fio2070_fault_text(fault: &Fault, text: &mut [u8]) -> usize
    ensures words { WritesText (text_of_fault fault.now) text.old text.new result }
    ensures decoded { (error : DecodeError) → fault.now ≡ fault_of error
        → WritesText (fault_text error) text.old text.new result }
    ensures short { result < LONGEST_TEXT }
{
    match error_in(*fault) {
        Some(error) => write_text(error.words().as_str().as_bytes(), text),
        None => write_text(&[], text),
    }
}

/// Returns the fault of a decoder that a struct says by its kind, if it says one.
fn error_in(fault: Fault) -> Option<DecodeError>
    ensures error { result ≡ error_in fault }
    ensures short { (error : DecodeError) → result ≡ Some error → length (fault_text error) ≤ FAULT_WORDS }
{
    match fault.kind {
        1 => Some(DecodeError::Empty),
        2 => Some(DecodeError::TooLong {
            got: fault.got as usize,
        }),
        3 => Some(DecodeError::UnknownType { code: fault.code }),
        4 => Some(DecodeError::WrongLength {
            needed: usize::from(fault.needed),
            got: fault.got as usize,
        }),
        _ => None,
    }
}

/// Writes the name of a rule of a transcript, as `fio2070 check` has it; the empty text if the number is
/// none of 1 to 9. Returns how many octets it has; without room for it and a zero octet nothing is written.
#[unsafe(no_mangle)]
pub extern "C" fn fio2070_rule_text(rule: u8, text: &mut [u8]) -> usize
    ensures words { WritesText (text_of_rule rule) text.old text.new result }
    ensures short { result < LONGEST_TEXT }
{
    match Rule::of_number(rule) {
        Some(rule) => write_text(rule.name().as_bytes(), text),
        None => write_text(&[], text),
    }
}

/// Writes the name of a rule on content, as `fio2070 record` has it; the empty text if the number is none of
/// 1 to 11. Returns how many octets it has; without room for it and a zero octet nothing is written.
#[unsafe(no_mangle)]
pub extern "C" fn fio2070_content_rule_text(rule: u8, text: &mut [u8]) -> usize
    ensures words { WritesText (text_of_content_rule rule) text.old text.new result }
    ensures short { result < LONGEST_TEXT }
{
    match ContentRule::of_number(rule) {
        Some(rule) => write_text(rule.name().as_bytes(), text),
        None => write_text(&[], text),
    }
}

/// Writes what a poller heard, as `fio2070 simulate` does, without a line end: `block entries N status HH`,
/// `stale N`, `other N`, or `unreadable ` and the text of the fault; `no room needed N` if N items need
/// room; the empty text if the kind is none of 0 to 4. Returns how many octets it has, at most 61; without
/// room for it and a zero octet nothing is written.
#[unsafe(no_mangle)]
pub extern "C" fn fio2070_heard_text(heard: &FlatHeard, text: &mut [u8]) -> usize
    ensures words { WritesText (text_of_heard heard.now) text.old text.new result }
    ensures short { result < LONGEST_TEXT }
{
    let mut line = [0; LINE_OCTETS];
    let start = match heard_in(*heard) {
        Some(heard) => put_heard(&mut line, heard),
        None => put_no_room(&mut line, heard),
    };
    write_text(&line[start..], text)
}

/// Puts at the end of the room how many items need room, if that was heard, otherwise nothing. Returns where
/// the text starts.
fn put_no_room(line: &mut [u8; LINE_OCTETS], heard: &FlatHeard) -> usize
    ensures start { result ≤ LINE_OCTETS }
    ensures words { drop result line.new
        ≡ (if heard.now.kind == 4 then codes "no room needed " ++ decimal heard.now.items else []) }
    ensures short { LINE_OCTETS < result + LONGEST_TEXT }
{
    let end = line_end(line);
    if heard.kind == 4 {
        put_pieces!(*line, end; b"no room needed " {heard.items})
    } else {
        end
    }
}

/// Returns what was heard, by the kind in a struct, if it was readable.
fn heard_in(heard: FlatHeard) -> Option<fio_cpu::Heard>
    ensures heard { result ≡ heard_in heard }
    ensures short { (heard : Heard) → result ≡ Some heard → length (heard_text heard) < LONGEST_TEXT }
{
    match heard.kind {
        0 => Some(fio_cpu::Heard::Block {
            entries: usize::from(heard.entries),
            status: heard.status,
        }),
        1 => error_in(heard.fault).map(fio_cpu::Heard::Unreadable),
        2 => Some(fio_cpu::Heard::Other { code: heard.code }),
        3 => Some(fio_cpu::Heard::Stale {
            block: heard.number,
        }),
        _ => None,
    }
}
