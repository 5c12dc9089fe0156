//! A line is read from left to right: its first word, and then what this word asks for.
ghost use Rattle.std.specs.Prelude.{◌≡◌, IfOk, IfErr, MatchResult};
ghost use Rattle.line_grammar.specs.declared.command.Command.{Command};
ghost use Rattle.line_grammar.specs.declared.fault.LineError.TheVariants.{NoMemory};
ghost use Rattle.line_grammar.specs.Lines.{Says, IsRefusal};
ghost use Rattle.line_grammar.specs.Reading.{Gives};
ghost use Rattle.line_grammar.specs.Forms.{command_at};

use crate::behind::command_behind;
use crate::command::{Command, keyword_of};
use crate::fault::{LineError, ReadError};
use std::alloc::Global;

/// The command of which the line is the text. Each spellable command has exactly one text.
pub fn read_line(alloc: Global, line: &[u8]) -> Result<Command, LineError>
    // What is read is the command of this text.
    ensures command { IfOk result (λ c. Says line.now c) }
    // The command of this text is read, unless memory runs out.
    ensures only { (c : Command) → Says line.now c
        → MatchResult result (λ d. d ≡ c) (λ e. e ≡ NoMemory) }
    // A line is refused at the end of the longest front with which a command's text begins.
    ensures bad { IfErr result (λ e. IsRefusal line.now e) }
{
    match command(alloc, line) {
        Ok(command) => Ok(command),
        Err(ReadError::Stopped { left }) => Err(LineError::Bad {
            at: line.len() - left,
        }),
        Err(ReadError::NoMemory) => Err(LineError::NoMemory),
    }
}

#[tactic(auto, unfolding(crate::specs::Forms::command_at))]
fn command(alloc: Global, line: &[u8]) -> Result<Command, ReadError>
    ensures { Gives (λ x. x) result (command_at line.now) }
{
    let (keyword, rest) = keyword_of(line)?;
    command_behind(alloc, keyword, rest)
}
