//! How a tool ends: its ending or its fault, and the exit status after it.
ghost use Rattle.std.specs.Prelude.{◌≡◌, ◌≤◌, Some, length};
ghost use Rattle.fio_tool.specs.Program.{status_of, tool_fault_text};

use fio_message::Memory;
use std::alloc::AllocError;
use std::fmt;
use std::fmt::{Display, Formatter};
use thiserror::Error;

/// How a tool ended that wrote its text.
#[derive(Clone, Copy, Debug, PartialEq, Eq, Hash)]
pub enum Ending {
    /// The text reports no fault.
    Good,
    /// The text reports a fault, or an input that is too long.
    Bad,
}

/// Why a tool ended without its text.
#[derive(Clone, Copy, Debug, PartialEq, Eq, Hash, Error)]
pub enum ToolFault {
    /// A read failed. `Interrupted` counts as a failure and is not retried. Nothing was written.
    Read,
    /// A write or the flush failed, or a write took no octet. `Interrupted` counts as a failure and is not retried. Some of
    /// the text may have been written.
    Write,
    /// An allocation failed, for the input or its text. Nothing was written.
    Memory,
}

impl ToolFault {
    /// Returns `read fault`, `write fault` or `out of memory`.
    pub(crate) fn words(self) -> &'static str
        ensures words { result.now ≡ tool_fault_text self }
        ensures short { length result.now ≤ 13 }
    {
        match self {
            ToolFault::Read => "read fault",
            ToolFault::Write => "write fault",
            ToolFault::Memory => Memory.words(),
        }
    }
}

impl Display for ToolFault {
    ghost output = { λ fault. Some (tool_fault_text fault) };

    fn fmt<W: fmt::Write>(&self, f: &mut Formatter<W>) -> fmt::Result {
        f.write_str(self.words())
    }
}

impl From<Memory> for ToolFault {
    ghost use Rattle.std.specs.Prelude.{◌≡◌};
    ghost use Rattle.fio_tool.specs.declared.endings.ToolFault.TheVariants as fault;

    ghost from_gives = { λ _ e. e ≡ fault.Memory };

    fn from(_fault: Memory) -> ToolFault {
        ToolFault::Memory
    }
}

impl From<AllocError> for ToolFault {
    ghost use Rattle.std.specs.Prelude.{◌≡◌};
    ghost use Rattle.fio_tool.specs.declared.endings.ToolFault.TheVariants as fault;

    ghost from_gives = { λ _ e. e ≡ fault.Memory };

    fn from(_fault: AllocError) -> ToolFault {
        ToolFault::Memory
    }
}

/// Returns the exit status after a tool.
pub(crate) fn status_of(ending: Result<Ending, ToolFault>) -> u8
    ensures { result ≡ status_of ending }
{
    match ending {
        Ok(Ending::Good) => 0,
        Ok(Ending::Bad) => 1,
        Err(_) => 3,
    }
}
