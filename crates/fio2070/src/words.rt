//! The words of the command line as text.

use std::alloc::{AllocError, Global};
use std::env::{Env, FillError};

/// Stands for octets that are no UTF-8, and for a control character.
const REPLACEMENT: char = '\u{FFFD}';

/// The octets of a word that are read at first.
const FIRST_READ: usize = 256;

/// Returns the words of the command line, the program's name first. What is no UTF-8 and each control character is replaced
/// by U+FFFD, so that a word can be shown.
pub(crate) fn words(env: &impl Env, alloc: Global) -> Result<Vec<String>, AllocError> {
    let mut words = Vec::new(alloc);
    'words: for index in 0..usize::MAX {
        let Some(octets) = octets_of(env, alloc, index)? else {
            break;
        };
        words.push(shown(alloc, octets.as_slice())?)?;
    }
    Ok(words)
}

/// Returns the octets of the word with this index, or `None` if there is none. The buffer is doubled until they fit.
fn octets_of(env: &impl Env, alloc: Global, index: usize) -> Result<Option<Vec<u8>>, AllocError> {
    let mut room = FIRST_READ;
    'sizes: for _ in 0..usize::BITS {
        let mut octets = Vec::new(alloc);
        octets.resize(room, 0u8)?;
        match env.arg(index, octets.as_mut_slice()) {
            Ok(count) => {
                octets.truncate(count);
                return Ok(Some(octets));
            }
            Err(FillError::NotPresent) => return Ok(None),
            Err(FillError::TooLong) => room = room.saturating_mul(2),
        }
    }
    Err(AllocError)
}

/// Returns octets as text that can be shown.
fn shown(alloc: Global, octets: &[u8]) -> Result<String, AllocError> {
    let text = String::from_utf8_lossy(alloc, octets)?;
    let mut shown = String::new(alloc);
    'letters: for letter in text.chars() {
        shown.push(if letter.is_control() {
            REPLACEMENT
        } else {
            letter
        })?;
    }
    Ok(shown)
}
