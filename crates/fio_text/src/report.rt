//! What is written about a run.
ghost use Rattle.std.specs.Prelude.{◌≡◌, ◌++◌, OnOk, OnErr};
ghost use Rattle.fio_message.specs.Texts.{fault_text};

use fio_message::{DecodeError, Memory};

/// A text, and whether it reports no fault.
#[derive(Debug, Drop)]
pub struct Report {
    /// Its lines, each with its line feed.
    pub text: Vec<u8>,
    /// Whether no line of it reports a fault.
    pub good: bool,
}

/// Appends the text of a fault: `empty`, `too long got N`, `unknown type N` or `wrong length needed N got M`.
///
/// # Errors
/// `Memory` if the text could not grow, which then stays as it was.
pub fn push_fault(text: &mut Vec<u8>, fault: &DecodeError) -> Result<(), Memory>
    ensures ok { OnOk result (text.new.items ≡ text.old.items ++ fault_text fault.now) }
    ensures err { OnErr result (text.new.items ≡ text.old.items) }
{
    text.extend_from_slice(fault.words().as_str().as_bytes())?;
    Ok(())
}
