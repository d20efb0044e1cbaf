//! The word after `send`, which denotes the octets of a command.
ghost use Rattle.std.specs.Prelude.{◌≡◌, ◌≢◌, ◌≤◌, None, Some, Ok, Err, MatchResult, take};
ghost use Rattle.fio_message.specs.Decoding.{command_in};
ghost use Rattle.fio_message.specs.declared.limits.TheConstants.{FRAME_OCTETS};
ghost use Rattle.fio_text.specs.Hexadecimal.{octets_in};
ghost use Rattle.fio_link.specs.declared.event.Event.TheVariants as events;
ghost use Rattle.fio_world.specs.EventLines.{command_named, frame_at};

use super::ScriptError;
use fio_message::{Command, DecodeError, FRAME_OCTETS, decode_command, read_command};
use fio_text::read_octets_to;

/// A word of a script whose hexadecimal digits denote the octets of a command.
#[derive(Clone, Copy)]
pub(crate) struct CommandWord<'a> {
    word: &'a [u8],
    ghost is_command: { command_named word.now ≢ None },
}

impl<'a> CommandWord<'a> {
    ghost use Rattle.fio_world.specs.Steps.{command_in_word};

    /// Reads the word after `send` in the line with this number. Its octets are read in place.
    ///
    /// # Errors
    /// `BadLine` if the word denotes no octets, `BadFrame` if they encode no command.
    // Not inlined: otherwise the room for a frame would be cleared for each line.
    #[inline(never)]
    pub(crate) fn read(number: usize, word: &'a [u8]) -> Result<CommandWord<'a>, ScriptError>
        ensures { MatchResult result
            (λ read. frame_at number (octets_in word.now) ≡ Ok (events.Send (command_in_word read)))
            (λ fault. frame_at number (octets_in word.now) ≡ Err fault) }
    {
        let mut room = [0; FRAME_OCTETS];
        let Some(count) = read_octets_to(word, &mut room) else {
            return Err(ScriptError::BadLine { line: number });
        };
        if count > room.len() {
            return Err(ScriptError::BadFrame {
                line: number,
                fault: DecodeError::TooLong { got: count },
            });
        }
        match read_command(&room[..count]) {
            Ok(_) => Ok(CommandWord { word }),
            Err(fault) => Err(ScriptError::BadFrame {
                line: number,
                fault,
            }),
        }
    }

    /// Writes the octets that the word denotes to the front of the room, and returns how many there are.
    pub(crate) fn octets_to(&self, room: &mut [u8; FRAME_OCTETS]) -> usize
        ensures within { result ≤ FRAME_OCTETS }
        ensures spelled { command_in (take result room.new) ≡ Some (command_in_word self.now) }
    {
        read_octets_to(self.word, room).unwrap()
    }

    /// Returns the command as a value of about a kilobyte.
    pub(crate) fn command(&self) -> Command
        ensures { result ≡ command_in_word self.now }
    {
        let mut room = [0; FRAME_OCTETS];
        let count = self.octets_to(&mut room);
        decode_command(&room[..count]).unwrap()
    }
}
