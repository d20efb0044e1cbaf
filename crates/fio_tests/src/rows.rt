//! How a row of a table, or a single case, fails its test.

use std::process::Abort;

/// Fails the test if its row does not hold, and shows the octets that the row begins with.
pub(crate) fn expect_row(rt: &impl Abort, octets: &[u8], holds: bool) {
    assert!(*rt; holds, "{octets:?}");
}

/// Fails the test if its case does not hold, and shows the word of the case.
pub(crate) fn expect_word(rt: &impl Abort, word: &str, holds: bool) {
    assert!(*rt; holds, "{word}");
}
