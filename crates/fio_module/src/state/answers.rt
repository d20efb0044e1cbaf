//! The answers of the maker. They change nothing but which answer is awaited.
ghost use Rattle.std.specs.Prelude.{◌≡◌, ◌<◌, length, None, Some, MatchOption, IfSome, IfErr, IfOk};
ghost use Rattle.fio_module.specs.Makers.{answer_refusal, awaited_by, awaited_code, with_awaited, makers_command_in, TakesAnswer};

use super::ModuleState;
use crate::makers::{AnswerRefusal, MakersCommand};
use fio_message::types::{ANSWER, IDENTIFY};
use fio_message::{BODY_OCTETS, CommandView, OtherAnswer, read_command};

/// Returns the command of the maker that the octets spell, if they spell one.
fn read_makers_command(octets: &[u8]) -> Option<MakersCommand<'_>>
    ensures command { MatchOption result
        (makers_command_in octets.now ≡ None)
        (λ command. makers_command_in octets.now ≡ Some (record { code = command.code; body = command.body.now })) }
    ensures range { IfSome result (λ command. command.code < 61) }
{
    match read_command(octets) {
        Ok(CommandView::Other { kind, body }) => Some(MakersCommand {
            code: kind.code(),
            body: body.as_slice(),
        }),
        Ok(CommandView::Identify) => Some(MakersCommand {
            code: IDENTIFY,
            body: &[],
        }),
        _ => None,
    }
}

impl ModuleState {
    /// Does what `Module::makers_command` does.
    pub fn makers_command<'a>(&mut self, octets: &'a [u8]) -> Option<MakersCommand<'a>>
        ensures command { MatchOption result
            (makers_command_in octets.now ≡ None)
            (λ command. makers_command_in octets.now ≡ Some (record { code = command.code; body = command.body.now })) }
        ensures awaits { self.new ≡ with_awaited (awaited_code (makers_command_in octets.now)) self.old }
    {
        let command = read_makers_command(octets);
        self.awaited = match command {
            Some(command) => command.code + ANSWER,
            None => 0,
        };
        command
    }

    /// Returns why an answer of the maker to a command of this type is refused, if it is: the first reason that applies.
    pub fn answer_refusal(&self, command: u8, body: &[u8]) -> Option<AnswerRefusal>
        ensures { result ≡ answer_refusal (awaited_by self.now) command (length body.now) }
    {
        let Some(kind) = OtherAnswer::of_type(self.awaited) else {
            return Some(AnswerRefusal::NotAwaited);
        };
        let awaited = kind.code() - ANSWER;
        if awaited != command {
            return Some(AnswerRefusal::OtherAwaited { command: awaited });
        }
        if body.len() > BODY_OCTETS {
            return Some(AnswerRefusal::TooLong { octets: body.len() });
        }
        None
    }

    /// Takes the answer of the maker to a command of this type, and returns its kind: its octets are its type and the body.
    /// From then on no answer is awaited.
    ///
    /// # Errors
    /// The first that applies, as `answer_refusal` says; then nothing changes.
    pub fn answer_other(&mut self, command: u8, body: &[u8]) -> Result<OtherAnswer, AnswerRefusal>
        ensures taken { IfOk result (TakesAnswer self.old self.new command body.now) }
        ensures refused { IfErr result (λ refusal.
            (answer_refusal (awaited_by self.old) command (length body.now) ≡ Some refusal)
            × (self.new ≡ self.old)) }
    {
        if let Some(refusal) = self.answer_refusal(command, body) {
            return Err(refusal);
        }
        let Some(kind) = OtherAnswer::of_type(self.awaited) else {
            return Err(AnswerRefusal::NotAwaited);
        };
        self.awaited = 0;
        Ok(kind)
    }
}
