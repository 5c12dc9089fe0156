//! The parser of command lines (`clap`) reads the words. It stands in this module alone. What it gives are texts: the
//! numbers among them are read elsewhere.
ghost use Rattle.std.specs.Prelude.{◌≡◌, IfOk, false, map, option_map, string_bytes};
ghost use Rattle.std.specs.List.{All};
ghost use Rattle.clap.specs.Words.{app_of, found_of, rows_of, rule_of, subcommand_rows_of};
ghost use Rattle.command_words.specs.Parsing.{IsNoFlag, IsSpelled, commands, texts_of};
ghost use Rattle.command_words.specs.Parsing.{needed as rule_needed, number_told, numbers_told, told};

use clap::error::ErrorKind;
use clap::{Arg, ArgMatches, Command};
use grid_base::NoMemory;
use std::alloc::{AllocError, Global};

/// A command with its numbers as they are written.
#[derive(Clone, Copy)]
pub(crate) enum Spelling<'a> {
    Run,
    Check,
    Gen { lines: &'a str, start: &'a str },
    Ship { changes: &'a str },
    Follow,
    Certify,
    Audit,
}

/// The command that these words spell; none only where they are no command. The parser would take `--` for the end of
/// the flags, and pass over it.
pub(crate) fn parsed<'a>(
    alloc: Global,
    words: &'a [String],
) -> Result<Option<Spelling<'a>>, NoMemory>
    requires no_flags { All (λ word. IsNoFlag (string_bytes word)) words.now }
    ensures { IfOk result (IsSpelled (map string_bytes words.entry.now)) }
{
    let command = rose(alloc)?;
    match command.try_get_matches_from(words) {
        Ok(matches) => Ok(spelling_of(&matches)),
        Err(error) => match error.kind() {
            ErrorKind::OutOfMemory => Err(NoMemory),
            _ => Ok(None),
        },
    }
}

// What the parser is told: the commands, and no help.
fn rose<'a>(alloc: Global) -> Result<Command<'a>, AllocError>
    ensures { IfOk result (λ command. app_of command ≡ commands) }
{
    let lines = needed(alloc, "N");
    let start = needed(alloc, "START");
    let changes = needed(alloc, "K");
    let run = Command::new(alloc, "run");
    let check = Command::new(alloc, "check");
    let generate = Command::new(alloc, "gen").arg(lines)?.arg(start)?;
    let ship = Command::new(alloc, "ship").arg(changes)?;
    let follow = Command::new(alloc, "follow");
    let certify = Command::new(alloc, "certify");
    let audit = Command::new(alloc, "audit");
    Command::new(alloc, "rose")
        .no_binary_name(true)
        .disable_help_flag(true)
        .disable_help_subcommand(true)
        .subcommand(run)?
        .subcommand(check)?
        .subcommand(generate)?
        .subcommand(ship)?
        .subcommand(follow)?
        .subcommand(certify)?
        .subcommand(audit)
}

// An argument that has to be given.
fn needed<'a>(alloc: Global, id: &'a str) -> Arg<'a>
    ensures { (rule_of result ≡ rule_needed id.entry.now) × (result.global ≡ false) }
{
    Arg::new(alloc, id).required(true)
}

// The command that the parser met.
fn spelling_of<'a>(matches: &ArgMatches<'a>) -> Option<Spelling<'a>>
    ensures { option_map texts_of result ≡ told (subcommand_rows_of matches.now) }
{
    let (name, matches) = matches.subcommand()?;
    if name == "run" {
        Some(Spelling::Run)
    } else if name == "check" {
        Some(Spelling::Check)
    } else if name == "ship" {
        ship_spelling(matches)
    } else if name == "follow" {
        Some(Spelling::Follow)
    } else if name == "certify" {
        Some(Spelling::Certify)
    } else if name == "audit" {
        Some(Spelling::Audit)
    } else {
        gen_spelling(matches)
    }
}

// The command `gen` with the numbers that the parser met.
fn gen_spelling<'a>(matches: &ArgMatches<'a>) -> Option<Spelling<'a>>
    ensures { option_map texts_of result ≡ numbers_told (rows_of (found_of matches.now)) }
{
    let lines = matches.get_str("N")?;
    let start = matches.get_str("START")?;
    Some(Spelling::Gen { lines, start })
}

// The command `ship` with the number that the parser met.
fn ship_spelling<'a>(matches: &ArgMatches<'a>) -> Option<Spelling<'a>>
    ensures { option_map texts_of result ≡ number_told (rows_of (found_of matches.now)) }
{
    let changes = matches.get_str("K")?;
    Some(Spelling::Ship { changes })
}
