//! The destination of a text.
ghost use Rattle.std.specs.Prelude.{◌≡◌, ◌+◌, ◌≤◌, ◌++◌, ℕ, List, [], length, take, OnOk};

use fio_text::append_part;
use std::alloc::AllocError;

/// The destination of a text, to which octets are appended: a vector that grows, or room of the caller.
pub trait TextSink {
    /// Why octets are not appended.
    type Fault;

    ghost has_room: { Self → ℕ → Type 0 };

    ghost takes: { Self → List ℕ → Self → Type 0 };

    /// Appends octets.
    ///
    /// # Errors
    /// The fault of the sink.
    fn append(&mut self, octets: &[u8]) -> Result<(), Self::Fault>
        requires { has_room self.old (length octets.now) }
        ensures { OnOk result (takes self.old octets.now self.new) };

    /// Appends the first `count` of these octets.
    ///
    /// # Errors
    /// The fault of the sink.
    fn append_front(&mut self, octets: &[u8], count: usize) -> Result<(), Self::Fault>
        requires part { count ≤ length octets.now }
        requires room { has_room self.old count }
        ensures { OnOk result (takes self.old (take count octets.now) self.new) };

    ghost nothing: { (sink : Self) → takes sink [] sink };

    ghost both: { (sink middle last : Self) (front back : List ℕ)
        → takes sink front middle → takes middle back last → takes sink (front ++ back) last };

    ghost room_left: { (sink next : Self) (octets : List ℕ) (room left : ℕ)
        → has_room sink room → takes sink octets next → length octets + left ≤ room
        → has_room next left };
}

impl TextSink for Vec<u8> {
    ghost use Rattle.std.specs.Prelude.{⊤};
    ghost use Rattle.std.proofs.Common.{◌∙◌, ap, append-nil, append_assoc, sym};

    type Fault = AllocError;

    // It grows, or reports that it cannot.
    ghost has_room = { λ _ _. ⊤ };

    ghost takes = { λ old octets new. new.items ≡ old.items ++ octets };

    ghost nothing = { λ sink. sym (append-nil sink.items) };

    ghost both = { λ sink _ _ front back first other.
        other ∙ ap (λ text. text ++ back) first ∙ append_assoc sink.items front back };

    ghost room_left = { λ _ _ _ _ _ _ _ _. tt };

    #[inline(always)]
    fn append(&mut self, octets: &[u8]) -> Result<(), AllocError> {
        self.extend_from_slice(octets)
    }

    #[inline(always)]
    fn append_front(&mut self, octets: &[u8], count: usize) -> Result<(), AllocError> {
        append_part(self, octets, count)
    }
}
