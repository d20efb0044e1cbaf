//! Forms that are made, of their parts or of others.
ghost use Rattle.std.specs.Prelude.{◌≡◌, ◌<◌, ◌⊎◌, ◌∷◌, true, false, [], IfSome, IfNone, length};
ghost use Rattle.fio_form.specs.Forms.{is_form};
ghost use Rattle.fio_form.specs.Copies.{HasNoValues, HasValues, IsCopy, IsPlain};
ghost use Rattle.fio_form.specs.declared.form.Digits.TheVariants.{Pairs};
ghost use Rattle.fio_form.specs.declared.form.Step.TheVariants.{Octet};
ghost use Rattle.fio_form.specs.declared.form.TheConstants.{CYCLE_STEPS, FRONT_PIECES};

use crate::form::{Digits, LineForm, LineRows, Piece, Step};
use crate::wholeness::is_form;
use arrayvec::ArrayVec;

impl LineForm {
    /// Returns the form of lines with this front and these octets: messages of one line, with no octets before and after
    /// them, and no values. `None` if it is no form: the cycle does not begin with an octet; or the texts of its octets are
    /// defined by themselves, and a piece of the front does not end where the next one begins, or numbers of no fixed width
    /// have no mark between them; or if there are too many pieces or steps.
    pub fn new(front: &[Piece], digits: Digits, cycle: &[Step]) -> Option<LineForm>
        ensures front { IfSome result (λ form. form.front.items ≡ front.now) }
        ensures digits { IfSome result (λ form. form.digits ≡ digits) }
        ensures cycle { IfSome result (λ form. form.cycle.items ≡ cycle.now) }
        ensures rest { IfSome result (λ form. IsPlain form) }
        ensures none { IfNone result ((is_form front.now digits cycle.now ≡ false)
            ⊎ (FRONT_PIECES < length front.now) ⊎ (CYCLE_STEPS < length cycle.now)) }
    {
        if !is_form(front, digits, cycle) {
            return None;
        }
        let Ok(front) = ArrayVec::try_from(front) else {
            return None;
        };
        let Ok(cycle) = ArrayVec::try_from(cycle) else {
            return None;
        };
        Some(LineForm {
            front,
            digits,
            cycle,
            values: ArrayVec::new(),
            is_anywhere: false,
            before: 0,
            after: 0,
            is_framed: false,
            rows: LineRows::One,
            is_swapped: false,
            is_echo: false,
        })
    }

    /// Returns the front.
    pub fn front(&self) -> &[Piece]
        ensures { result.now ≡ self.now.front.items }
    {
        &self.front
    }

    /// Returns how an octet is written.
    pub fn digits(&self) -> Digits
        ensures { result ≡ self.now.digits }
    {
        self.digits
    }

    /// Returns what is written of some octets and between them.
    pub fn cycle(&self) -> &[Step]
        ensures { result.now ≡ self.now.cycle.items }
    {
        &self.cycle
    }

    /// Returns the same form again.
    pub fn copied(&self) -> LineForm
        ensures { IsCopy self.now result }
    {
        let mut front = ArrayVec::new();
        let _fits = front.try_extend_from_slice(&self.front);
        let mut cycle = ArrayVec::new();
        let _fits = cycle.try_extend_from_slice(&self.cycle);
        let mut values = ArrayVec::new();
        let _fits = values.try_extend_from_slice(&self.values);
        LineForm {
            front,
            digits: self.digits,
            cycle,
            values,
            is_anywhere: self.is_anywhere,
            before: self.before,
            after: self.after,
            is_framed: self.is_framed,
            rows: self.rows,
            is_swapped: self.is_swapped,
            is_echo: self.is_echo,
        }
    }

    /// Returns the form of those lines of this one in which a number of the front, the piece of this index, has one of these
    /// values. `None` if there is no such piece, there are too many values, or it is no form: a hexadecimal digit, which no
    /// decimal number goes on with, may follow it.
    pub fn with_values(&self, piece: usize, values: &[u32]) -> Option<LineForm>
        ensures some { IfSome result (λ form. HasValues self.now piece values.now form) }
        ensures none { IfNone result (HasNoValues self.now piece values.now) }
    {
        if piece >= self.front.len() || !self.front[piece].is_numeric() {
            return None;
        }
        let mut front = ArrayVec::new();
        let _fits = front.try_extend_from_slice(&self.front);
        front[piece] = Piece::Value;
        if !is_form(&front, self.digits, &self.cycle) {
            return None;
        }
        let mut kept = ArrayVec::new();
        if kept.try_extend_from_slice(values).is_err() {
            return None;
        }
        let mut cycle = ArrayVec::new();
        let _fits = cycle.try_extend_from_slice(&self.cycle);
        Some(LineForm {
            front,
            digits: self.digits,
            cycle,
            values: kept,
            is_anywhere: self.is_anywhere,
            before: self.before,
            after: self.after,
            is_framed: self.is_framed,
            rows: self.rows,
            is_swapped: self.is_swapped,
            is_echo: self.is_echo,
        })
    }
}

impl Default for LineForm {
    /// Returns the form of lines that are pairs of digits and nothing else.
    fn default() -> LineForm
        ensures front { result.front.items ≡ [] }
        ensures digits { result.digits ≡ Pairs }
        ensures cycle { result.cycle.items ≡ Octet ∷ [] }
        ensures rest { IsPlain result }
    {
        let mut cycle = ArrayVec::new();
        cycle.push(Step::Octet);
        LineForm {
            front: ArrayVec::new(),
            digits: Digits::Pairs,
            cycle,
            values: ArrayVec::new(),
            is_anywhere: false,
            before: 0,
            after: 0,
            is_framed: false,
            rows: LineRows::One,
            is_swapped: false,
            is_echo: false,
        }
    }
}
