//! Lines of a batch with messages that this protocol has not, which are passed over once several show that they are no damage.
ghost use Rattle.std.specs.Prelude.{◌≡◌};
ghost use Rattle.fio_c.specs.LogOthers.{below_line, below_lines, kind_of, passed_line, passed_lines};
ghost use Rattle.fio_c.specs.Logs.{HasPassedOthers};

use crate::log_batch::{FRAMES, LOG_VERDICTS, LogBatch, LogVerdict};
use fio_log::{Kind, Reader};

/// Passes over lines of a batch, by all that the reader has counted. A frame that one of them has stays in the batch: it is of no line
/// that has frames, and so no call takes it.
pub(crate) fn pass_over(reader: &mut Reader, batch: &mut LogBatch)
    ensures { HasPassedOthers reader.old batch.old reader.new batch.new }
{
    let count = (batch.verdict_count as usize).min(LOG_VERDICTS);
    pass_lines(reader, &mut batch.verdicts[..count]);
}

/// Passes over some of these lines, which are one below the other.
fn pass_lines(reader: &mut Reader, verdicts: &mut [LogVerdict])
    ensures lines { verdicts.new ≡ passed_lines reader.old.others verdicts.old }
    ensures reader { reader.new ≡ record reader.old { others = below_lines reader.old.others verdicts.old } }
{
    'lines: for verdict in verdicts.iter_mut() {
        pass_line(reader, verdict);
    }
}

/// Passes over a line, if the reader does.
fn pass_line(reader: &mut Reader, verdict: &mut LogVerdict)
    ensures line { verdict.new ≡ passed_line reader.old.others verdict.old }
    ensures reader { reader.new ≡ record reader.old { others = below_line reader.old.others verdict.old } }
{
    let is_passed = reader.passes(kind_of(verdict.kind), verdict.foreign, verdict.control);
    if !is_passed {
        return;
    }
    if verdict.kind == FRAMES {
        verdict.reason = 2;
        verdict.address = 0;
        verdict.control = 0;
        verdict.header = 0;
    }
    verdict.kind = 5;
}

/// Returns the kind with a number.
fn kind_of(number: u8) -> Kind
    ensures { result ≡ kind_of number }
{
    match number {
        0 => Kind::Blank,
        1 => Kind::Frames,
        2 => Kind::Part,
        3 => Kind::Possible,
        4 => Kind::Damaged,
        _ => Kind::PassedOver,
    }
}
