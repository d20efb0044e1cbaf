//! Laws of what C gives to write a message, and of parts of batches. Each function promises them in its contract and does nothing.
#![tactic(auto)]

ghost use Rattle.fio_message.specs.Answers.{IsAnswer};
ghost use Rattle.fio_message.specs.Commands.{IsCommand};
ghost use Rattle.fio_message.specs.Octets.{IsOctets};
ghost use Rattle.fio_c.specs.Given.{AnswersAreGivenBack, CommandsAreGivenBack, GivenAnswersAreRead, GivenCommandsAreRead};
ghost use Rattle.fio_c.specs.PartLaws.{CountsTaken, JoinsTaken, JudgesTaken, SignsTaken};

/// Encoding and decoding of commands are inverse: what is decoded of octets is written as these octets (`back`), and what is
/// decoded of octets that were written is the struct that was given (`read`).
pub fn commands_are_encoded()
    ensures back { CommandsAreGivenBack IsOctets }
    ensures read { GivenCommandsAreRead IsCommand }
{}

/// The same of answers.
pub fn answers_are_encoded()
    ensures back { AnswersAreGivenBack IsOctets }
    ensures read { GivenAnswersAreRead IsAnswer }
{}

/// What is said of a part of a batch is what is said of the lines alone that its mask takes: by the judge of a log and the outcomes of
/// frames (`judge`), by the counts and the times of answers (`counts`), and by the signs (`signs`). Nothing is there of lines that it
/// does not take (`lines`): put in anywhere, they change nothing of it.
pub fn parts_stand_alone()
    ensures judge { JudgesTaken }
    ensures counts { CountsTaken }
    ensures signs { SignsTaken }
    ensures lines { JoinsTaken }
{}
