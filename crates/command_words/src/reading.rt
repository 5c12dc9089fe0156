//! Reading the words of a command.
ghost use Rattle.std.specs.Prelude.{◌≡◌, ◌↔◌, IfOk, IsTrue, map, string_bytes, codes, [], ◌∷◌};
ghost use Rattle.std.specs.List.{All};
ghost use Rattle.command_words.specs.Written.{IsFound};
ghost use Rattle.command_words.specs.Parsing.{IsNoFlag, texts_of};

use crate::numbers::number_of;
use crate::parsing::{Spelling, parsed};
use crate::word::Word;
use grid_base::NoMemory;
use std::alloc::Global;

/// How many lines `gen` makes at most.
const MOST_LINES: u64 = 100_000;

/// The greatest number of 19 digits.
const LONGEST: u64 = 9_999_999_999_999_999_999;

/// The command that these words are, which are those behind the program's name; none where they are no
/// command. A command has one text: nothing stands before, between or behind its words, and a number has no
/// sign and no leading zero. Want of memory may end each call, also at words that are no command.
pub fn read_words(alloc: Global, words: &[String]) -> Result<Option<Word>, NoMemory>
    ensures { IfOk result (λ found. IsFound (map string_bytes words.now) found) }
{
    if !are_no_flags(words) {
        return Ok(None);
    }
    match parsed(alloc, words)? {
        Some(spelling) => Ok(word_of(spelling)),
        None => Ok(None),
    }
}

// Whether each word is no flag.
fn are_no_flags(words: &[String]) -> bool
    ensures { IsTrue result ↔ All (λ word. IsNoFlag (string_bytes word)) words.now }
{
    words.iter().all(|word| is_no_flag(word.as_bytes()))
}

// Whether the word is not empty, and begins with no hyphen.
fn is_no_flag(word: &[u8]) -> bool
    ensures { IsTrue result ↔ IsNoFlag word.now }
{
    match word {
        [] => false,
        [b'-', ..] => false,
        _ => true,
    }
}

// The command that is spelled so; none where a number is not written as its own text.
fn word_of(spelling: Spelling<'_>) -> Option<Word>
    ensures { IsFound (texts_of spelling.entry) result }
{
    match spelling {
        Spelling::Run => Some(Word::Run),
        Spelling::Check => Some(Word::Check),
        Spelling::Gen { lines, start } => with_numbers(lines, start),
        Spelling::Ship { changes } => with_changes(changes),
        Spelling::Follow => Some(Word::Follow),
        Spelling::Certify => Some(Word::Certify),
        Spelling::Audit => Some(Word::Audit),
    }
}

// The command `gen` with these numbers.
fn with_numbers(lines: &str, start: &str) -> Option<Word>
    ensures { IsFound (codes "gen" ∷ lines.now ∷ start.now ∷ []) result }
{
    let lines = number_of(lines, MOST_LINES)?;
    let start = number_of(start, LONGEST)?;
    Some(Word::Gen { lines, start })
}

// The command `ship` with this number.
fn with_changes(changes: &str) -> Option<Word>
    ensures { IsFound (codes "ship" ∷ changes.now ∷ []) result }
{
    let changes = number_of(changes, LONGEST)?;
    Some(Word::Ship { changes })
}
