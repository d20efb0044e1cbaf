//! Why octets are no message.
ghost use Rattle.std.specs.Prelude.{◌≡◌};
ghost use Rattle.fio_flat.specs.Faults.{NeedFitsFrame, fault_of};

use fio_flat::Fault;
use fio_message::DecodeError;

/// The fault of octets that are a message: none.
pub(crate) const NO_FAULT: Fault = Fault {
    kind: 0,
    code: 0,
    needed: 0,
    reserved: [0; 4],
    got: 0,
};

/// Returns a fault of a decoder, which needs no more octets than a frame has.
pub(crate) fn fault_from(error: DecodeError) -> Fault
    requires { NeedFitsFrame error }
    ensures { result ≡ fault_of error }
{
    match error {
        DecodeError::Empty => Fault {
            kind: 1,
            ..NO_FAULT
        },
        DecodeError::TooLong { got } => Fault {
            kind: 2,
            got: got as u64,
            ..NO_FAULT
        },
        DecodeError::UnknownType { code } => Fault {
            kind: 3,
            code,
            ..NO_FAULT
        },
        DecodeError::WrongLength { needed, got } => Fault {
            kind: 4,
            needed: needed as u16,
            got: got as u64,
            ..NO_FAULT
        },
    }
}
