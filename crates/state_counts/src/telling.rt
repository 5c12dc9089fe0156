//! The lines that tell how much is in a state.
ghost use Rattle.std.specs.Prelude.{◌≡◌, ◌++◌, false, IfOk, OnOk, string_bytes};
ghost use Rattle.state_counts.specs.Counts.{number_line, count_lines, TellsCounts};

use crate::counting::{Counts, counts_of};
use grid_base::{NoMemory, Reply};
use realm_insert::Engine;
use std::alloc::{AllocError, Global};

/// The five lines that tell how much is in the state of the engine: `changes`, `originals`, `values`,
/// `points` and `pieces`, each with its number.
pub fn count_state(alloc: Global, engine: &Engine) -> Result<Reply, NoMemory>
    requires ready { engine.now.spent ≡ false }
    ensures { IfOk result (TellsCounts engine.now.state) }
{
    let counts = counts_of(engine)?;
    let mut text = String::new(alloc);
    push_number(&mut text, "changes", engine.changes())?;
    push_counts(&mut text, &counts)?;
    Ok(Reply::new(text.into_bytes()))
}

/// Writes the four lines of these numbers behind the text.
pub fn push_counts(text: &mut String, counts: &Counts) -> Result<(), AllocError>
    ensures { OnOk result (string_bytes text.new ≡ string_bytes text.old ++ count_lines counts.now) }
{
    push_number(text, "originals", counts.originals)?;
    push_number(text, "values", counts.values)?;
    push_number(text, "points", counts.points)?;
    push_number(text, "pieces", counts.pieces)
}

/// Writes a line with the word and the number behind the text.
pub fn push_number(text: &mut String, word: &str, number: u64) -> Result<(), AllocError>
    ensures { OnOk result (string_bytes text.new ≡ string_bytes text.old ++ number_line word.now number) }
{
    write!(text, "{word} {number}\n")
}
