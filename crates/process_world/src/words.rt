//! The words that the program was started with.
ghost use Rattle.std.specs.Prelude.{◌≡◌, ◌↔◌};

use std::alloc::Global;
use std::env;
use std::io::ErrorKind;
use std::rt::Env;
use thiserror::Error;

/// Why the words aren't known.
#[derive(Clone, Copy, Debug, PartialEq, Eq, Error)]
pub enum WordsError {
    /// A word isn't text in UTF-8.
    #[error("a word isn't text in UTF-8")]
    NotText,
    /// Memory ran out.
    #[error("no memory")]
    NoMemory,
}

/// The words after the program's name.
pub fn words_of<R: Env + AllocGlobal>(rt: &R) -> Result<Vec<String>, WordsError> {
    match env::args(rt) {
        Ok(all) => rest_of(rt.alloc(), all),
        Err(error) => Err(cause_of(error.kind())),
    }
}

// Why the words aren't known, where reading them failed with an error of this kind.
fn cause_of(kind: ErrorKind) -> WordsError
    ensures { (result ≡ WordsError.NoMemory) ↔ (kind ≡ ErrorKind.OutOfMemory) }
{
    match kind {
        ErrorKind::OutOfMemory => WordsError::NoMemory,
        _ => WordsError::NotText,
    }
}

fn rest_of(alloc: Global, all: env::Args) -> Result<Vec<String>, WordsError> {
    let mut words = Vec::new(alloc);
    for word in all.skip(1) {
        if words.push(word).is_err() {
            return Err(WordsError::NoMemory);
        }
    }
    Ok(words)
}
