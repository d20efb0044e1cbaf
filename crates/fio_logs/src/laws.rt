//! Laws of the definitions. Each function states one in its contract, and does nothing.
ghost use Rattle.fio_logs.specs.ReturnedVerdicts.{VerdictsAccuseNone};
ghost use Rattle.fio_logs.specs.WrittenLogs.{LinesAccuseNone, LinesMayBeLost};

/// No false accusation, from the lines of a log on: of the lines of a right link, each written in a form of one line that the reader
/// knows, no outcome accuses either end. Frames may be missing at lines that are too long, of which a part is gone, or whose octets
/// are damaged; and lines that no form has may be anywhere.
#[tactic(auto, using(crate::proofs::WrittenLogs::lines_accuse_none))]
pub fn lines_of_a_right_link_accuse_none()
    ensures { LinesAccuseNone }
{}

/// So the verdicts that a reader returns of such lines accuse neither end, by what `Reader::verdict` ensures of each.
#[tactic(auto, using(crate::proofs::ReturnedVerdicts::verdicts_accuse_none))]
pub fn verdicts_of_a_right_link_accuse_none()
    ensures { VerdictsAccuseNone }
{}

/// Such a log exists: one of four lines, in which an answer is missing at a damaged line below one frame and above two.
#[tactic(auto, using(crate::proofs::Examples::lines_may_be_lost))]
pub fn lines_may_be_lost()
    ensures { LinesMayBeLost }
{}
