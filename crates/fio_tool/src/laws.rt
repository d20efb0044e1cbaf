//! Laws of the definitions that the contracts cite: each function states one in its contract and does nothing. Those of the
//! rules of transcripts are in `fio_check::laws`.
ghost use Rattle.std.specs.Prelude.{ℕ, List, [], ◌∷◌};
ghost use Rattle.fio_tool.specs.CommandLine.{NamesTool, name_of};
ghost use Rattle.fio_tool.specs.TranscriptLaws.{IsTextOfItsLines};
ghost use Rattle.fio_tool.specs.declared.tools.Tool.{Tool};

/// A tool's name, as the word after the program's name, names that tool.
pub fn a_name_names_its_tool()
    ensures { (first : List ℕ) (tool : Tool) → NamesTool (first ∷ name_of tool ∷ []) tool }
{}

/// The text of `check_text` is that of `check_trace` on the lines of `read_trace`, although no line is kept.
pub fn check_texts_are_of_the_lines_read()
    ensures { (input : List ℕ) → IsTextOfItsLines input }
{}
