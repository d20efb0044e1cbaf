//! Room of the caller for a text.
ghost use Rattle.std.specs.Prelude.{◌≡◌, ◌+◌, ◌≤◌, length};
ghost use Rattle.fio_c.specs.declared.text_buffer.TheConstants.{MOST_OCTETS};

use crate::written::write_at;
use fio_show::TextSink;
use std::convert::Infallible;

/// The most octets of a text: a frame has at most 256 lines, each of at most 128 octets.
pub(crate) const MOST_OCTETS: usize = 65_536;

/// A buffer of the caller, in which a text is written as far as it fits. Octets that do not fit are
/// only counted.
#[derive(Drop)]
pub(crate) struct TextBuffer<'a> {
    pub(crate) text: &'a mut [u8],
    /// Where the text ends, in the buffer or past it.
    pub(crate) end: usize,
}

impl TextSink for TextBuffer<'_> {
    ghost use Rattle.std.specs.Prelude.{◌++◌, refl};
    ghost use Rattle.std.proofs.Common.{◌∙◌, append_assoc, arith, length-append, subst, sym};
    ghost use Rattle.fio_flat.specs.Written.{Appends, WritesOn};

    type Fault = Infallible;

    ghost has_room = { λ buffer room. buffer.end + room ≤ MOST_OCTETS };

    ghost takes = { λ old octets new. (new.text.ghost_name ≡ old.text.ghost_name)
        × WritesOn octets old.text.now new.text.now old.end new.end };

    ghost nothing = { λ buffer. (refl, record { counted = Prim.omega arith; joined = λ _ _ _ then. then }) };

    ghost both = { λ buffer _ _ front back first then. (
      then.0 ∙ first.0,
      record {
        counted = Prim.omega (arith, first.1.counted, then.1.counted, length-append front back);
        joined = λ more last at ends. subst (λ octets. Appends octets buffer.text.now last buffer.end at)
            (sym (append_assoc front back more))
            (first.1.joined (back ++ more) last at (then.1.joined more last at ends));
      },
    ) };

    ghost room_left = { λ _ _ _ _ _ has took fits. Prim.omega (arith, has, took.1.counted, fits) };

    #[inline(always)]
    fn append(&mut self, octets: &[u8]) -> Result<(), Infallible> {
        let end = self.end + octets.len();
        if end <= self.text.len() {
            write_at(self.end, octets, self.text);
        }
        self.end = end;
        Ok(())
    }

    #[inline(always)]
    fn append_front(&mut self, octets: &[u8], count: usize) -> Result<(), Infallible> {
        self.append(&octets[..count])
    }
}
