//! Blank lines.
ghost use Rattle.std.specs.Prelude.{◌≡◌, ◌+◌};
ghost use Rattle.fio_log.specs.Blanks.{are_blanks};

/// Returns whether a text has nothing but blanks.
pub(crate) fn are_blanks(text: &[u8]) -> bool
    ensures { result ≡ are_blanks text.now }
{
    for octet in text {
        if !octet.is_ascii_whitespace() {
            return false;
        }
    }
    true
}
