//! Laws of the definitions that the contracts cite: each function states some in its contract and does nothing.
ghost use Rattle.std.specs.Prelude.{◌≡◌, ◌≢◌, ◌++◌, [], ◌∷◌, ℕ, List, Result};
ghost use Rattle.std.specs.List.{AllByRecursion};
ghost use Rattle.fio_text.specs.FirstFaults.{Collects};
ghost use Rattle.fio_text.specs.Lines.{IsOneLine, lines_of, text_of};

/// The lines of a text are those that it was made of, whether the last one ends with a line feed or not.
pub fn lines_are_read_back()
    ensures ended { (lines : List (List ℕ)) → AllByRecursion IsOneLine lines
        → lines_of (text_of lines) ≡ lines }
    ensures unended { (lines : List (List ℕ)) (last : List ℕ) → AllByRecursion IsOneLine lines
        → IsOneLine last → last ≢ [] → lines_of (text_of lines ++ last) ≡ lines ++ last ∷ [] }
{}

/// Reading a list returns all its values, or the first fault in it.
#[tactic(auto, using(crate::proofs::FirstFaultLemmas::collects))]
pub fn first_fault_decides<V, E>()
    ensures { (readings : List (Result V E)) → Collects readings }
{}
