//! Encoding: messages as the octets that they spell. Everything is inlined into the caller: if it only writes messages of
//! one type, as the module does, only the code for the fields of that type remains.
ghost use Rattle.std.specs.Prelude.{◌≡◌, ◌≤◌, ◌+◌, ◌*◌, ◌++◌, length};
ghost use Rattle.std.specs.Int.{w32, to_be_bytes};
ghost use Rattle.std.specs.List.{AllByRecursion, flat_map};
ghost use Rattle.fio_message.specs.Octets.{IsOctets};
ghost use Rattle.fio_message.specs.Commands.{IsCommand, SpellsCommand, command_fields};
ghost use Rattle.fio_message.specs.Answers.{IsAnswer, SpellsAnswer, answer_fields};

use crate::answers::Answer;
use crate::commands::Command;
use crate::frames::Frame;
use crate::layouts::{before_entries, flags_and_counts, inputs_and_stamp, status_and_stamp};
use crate::limits::FRAME_OCTETS;
use crate::parts::Part;
use byteorder::{BigEndian, ByteOrder};

/// Appends octets, for which the frame has room.
fn append(frame: &mut Frame, octets: &[u8])
    requires { length frame.old.items + length octets.now ≤ FRAME_OCTETS }
    ensures appended { frame.new.items ≡ frame.old.items ++ octets.now }
    ensures within { IsOctets octets.now }
{
    match frame.try_extend_from_slice(octets) {
        Ok(()) => {}
        Err(_) => unreachable!(),
    }
}

/// Appends a number in four octets, the most significant first.
fn append_u32(frame: &mut Frame, number: u32)
    requires { length frame.old.items + 4 ≤ FRAME_OCTETS }
    ensures { frame.new.items ≡ frame.old.items ++ to_be_bytes w32 number }
{
    let mut octets = [0; 4];
    BigEndian::write_u32(&mut octets, number);
    append(frame, &octets);
}

/// Appends all parts, three octets each.
// They are put together first and appended at once: appending each by itself would store the frame's length each time.
#[inline(never)]
fn append_parts<T: Part>(frame: &mut Frame, parts: &[T])
    requires { length frame.old.items + 3 * length parts.now ≤ FRAME_OCTETS }
    ensures appended { frame.new.items ≡ frame.old.items ++ flat_map T.part_octets parts.now }
    ensures within { AllByRecursion T.IsPart parts.now }
    ensures len { length frame.new.items ≡ length frame.old.items + 3 * length parts.now }
{
    let mut octets = [0; FRAME_OCTETS];
    let mut count = 0;
    for part in parts {
        let three = part.to_octets();
        octets[count] = three[0];
        octets[count + 1] = three[1];
        octets[count + 2] = three[2];
        count += 3;
    }
    append(frame, &octets[..count]);
}

/// Appends the octets after the type.
#[inline(always)]
fn append_command_fields(frame: &mut Frame, command: &Command)
    requires { length frame.old.items ≡ 1 }
    ensures appended { frame.new.items ≡ frame.old.items ++ command_fields command.now }
    ensures within { IsCommand command.now }
{
    match command {
        Command::Status { clear } => frame.push(*clear),
        Command::LoadCounter { load } => append_u32(frame, *load),
        Command::ConfigureInputs { items } => {
            frame.push(items.len() as u8);
            append_parts(frame, items);
        }
        Command::RawInputs | Command::FilteredInputs | Command::Identify => {}
        Command::Poll { block } => frame.push(*block),
        Command::SetOutputs { levels, controls } => {
            append(frame, levels);
            append(frame, controls);
        }
        Command::Watchdog { timeout } => frame.push(*timeout),
        Command::Other { body, .. } => append(frame, body),
    }
}

/// Writes the octets that a command spells over what the frame holds: the same octets as `encode_command`, without moving a
/// frame.
#[inline(always)]
pub fn write_command(command: &Command, frame: &mut Frame)
    ensures { SpellsCommand command.now frame.new.items }
{
    frame.clear();
    frame.push(command.code());
    append_command_fields(frame, command);
}

/// Returns the octets that a command spells, 1 to 773: its type, then its fields in the order of TEES 2009, with the lengths
/// of this project's own profile. The new frame of 784 octets is cleared and returned by value, which for a short message
/// costs several times what `write_command` does.
#[inline(always)]
pub fn encode_command(command: &Command) -> Frame
    ensures { SpellsCommand command.now result.items }
{
    let mut frame = Frame::new();
    write_command(command, &mut frame);
    frame
}

/// Appends the octets after the type.
#[inline(always)]
fn append_answer_fields(frame: &mut Frame, answer: &Answer)
    requires { length frame.old.items ≡ 1 }
    ensures appended { frame.new.items ≡ frame.old.items ++ answer_fields answer.now }
    ensures within { IsAnswer answer.now }
{
    match answer {
        Answer::Status {
            flags,
            receive_errors,
            transmit_errors,
            stamp,
        } => {
            let fields = flags_and_counts(*flags, *receive_errors, *transmit_errors, *stamp);
            append(frame, &fields);
        }
        Answer::LoadCounter { status }
        | Answer::ConfigureInputs { status }
        | Answer::Watchdog { status } => frame.push(*status),
        Answer::RawInputs { inputs, stamp } => {
            append(frame, &inputs_and_stamp(*inputs, *stamp));
        }
        Answer::FilteredInputs { inputs, stamp } => {
            append(frame, &inputs_and_stamp(*inputs, *stamp));
        }
        Answer::Block {
            block,
            entries,
            status,
            stamp,
        } => {
            append(frame, &before_entries(*block, entries.len() as u8)[1..]);
            append_parts(frame, entries);
            append(frame, &status_and_stamp(*status, *stamp));
        }
        Answer::Other { body, .. } => append(frame, body),
    }
}

/// Writes the octets that an answer spells over what the frame holds: the same octets as `encode_answer`, without moving a
/// frame.
#[inline(always)]
pub fn write_answer(answer: &Answer, frame: &mut Frame)
    ensures { SpellsAnswer answer.now frame.new.items }
{
    frame.clear();
    frame.push(answer.code());
    append_answer_fields(frame, answer);
}

/// Returns the octets that an answer spells, 1 to 773: its type, then its fields in the order of TEES 2009, with the lengths
/// of this project's own profile. The new frame of 784 octets is cleared and returned by value, which for a short message
/// costs several times what `write_answer` does.
#[inline(always)]
pub fn encode_answer(answer: &Answer) -> Frame
    ensures { SpellsAnswer answer.now result.items }
{
    let mut frame = Frame::new();
    write_answer(answer, &mut frame);
    frame
}
