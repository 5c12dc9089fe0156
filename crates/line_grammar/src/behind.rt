//! What a first word says with what stands behind it. Each word with more than one part behind it has a function
//! of its own.
ghost use Rattle.line_grammar.specs.declared.command.Keyword.TheVariants as k;
ghost use Rattle.line_grammar.specs.Reading.{Gives};
ghost use Rattle.line_grammar.specs.Forms.{alone_at, filled};
ghost use Rattle.line_grammar.specs.Rows.{row};

use crate::command::{Change, Command, Keyword, Query};
use crate::fault::ReadError;
use crate::lists::{some_keyed, some_names, two_lists};
use crate::rests::{
    definition, last_name, last_number, last_point, measuring, named_lists, named_points,
    operation, question, two_points,
};
use crate::tokens::end;
use std::alloc::Global;

/// The command that a first word says with what stands behind it.
#[tactic(auto, unfolding(crate::specs::Forms::filled, crate::specs::Forms::slots_at))]
pub(crate) fn command_behind(
    alloc: Global,
    keyword: Keyword,
    line: &[u8],
) -> Result<Command, ReadError>
    ensures { Gives (λ x. x) result (filled (row keyword) line.now) }
{
    match keyword {
        Keyword::Point => Ok(Command::Change(Change::Point(last_point(line)?))),
        Keyword::Unpoint => Ok(Command::Change(Change::Unpoint(last_point(line)?))),
        Keyword::Segment => segment(line),
        Keyword::Points => points(alloc, line),
        Keyword::Lines => lines(alloc, line),
        Keyword::Regions => regions(alloc, line),
        Keyword::Let => named(alloc, line),
        Keyword::Drop => Ok(Command::Change(Change::Drop(last_name(alloc, line)?))),
        Keyword::Delete => Ok(Command::Change(Change::Delete(last_number(line)?))),
        Keyword::Realm => alone(Command::Query(Query::Realm), line),
        Keyword::Show => Ok(Command::Query(Query::Show(last_name(alloc, line)?))),
        Keyword::Chain => Ok(Command::Query(Query::Chain(last_number(line)?))),
        Keyword::Eval => made(alloc, line),
        Keyword::Ask => asked(alloc, line),
        Keyword::Num => measured(alloc, line),
        Keyword::Faces => Ok(Command::Query(Query::Faces(last_name(alloc, line)?))),
        Keyword::Trace => Ok(Command::Query(Query::Trace(last_number(line)?))),
        Keyword::Sum => Ok(Command::Query(Query::Sum(some_names(alloc, line)?))),
        Keyword::Decompose => Ok(Command::Query(Query::Decompose(last_name(alloc, line)?))),
        Keyword::Overlay => overlaid(alloc, line),
        Keyword::Fusion => Ok(Command::Query(Query::Fusion(some_keyed(alloc, line)?))),
        Keyword::Batch => Ok(Command::Batch(last_number(line)?)),
        Keyword::Checkpoint => alone(Command::Checkpoint, line),
        Keyword::Begin => alone(Command::Begin, line),
        Keyword::Commit => alone(Command::Commit, line),
        Keyword::Abandon => alone(Command::Abandon, line),
    }
}

// A command that is said by its word alone.
fn alone(command: Command, line: &[u8]) -> Result<Command, ReadError>
    ensures { Gives (λ x. x) result (alone_at command line.now) }
{
    end(line)?;
    Ok(command)
}

#[tactic(auto, unfolding(crate::specs::Forms::filled, crate::specs::Forms::slots_at))]
fn segment(line: &[u8]) -> Result<Command, ReadError>
    ensures { Gives (λ x. x) result (filled (row k.Segment) line.now) }
{
    let (from, to) = two_points(line)?;
    Ok(Command::Change(Change::Segment(from, to)))
}

#[tactic(auto, unfolding(crate::specs::Forms::filled, crate::specs::Forms::slots_at))]
fn points(alloc: Global, line: &[u8]) -> Result<Command, ReadError>
    ensures { Gives (λ x. x) result (filled (row k.Points) line.now) }
{
    let (name, places) = named_points(alloc, line)?;
    Ok(Command::Change(Change::Points(name, places)))
}

#[tactic(auto, unfolding(crate::specs::Forms::filled, crate::specs::Forms::slots_at))]
fn lines(alloc: Global, line: &[u8]) -> Result<Command, ReadError>
    ensures { Gives (λ x. x) result (filled (row k.Lines) line.now) }
{
    let (name, paths) = named_lists(alloc, line)?;
    Ok(Command::Change(Change::Lines(name, paths)))
}

#[tactic(auto, unfolding(crate::specs::Forms::filled, crate::specs::Forms::slots_at))]
fn regions(alloc: Global, line: &[u8]) -> Result<Command, ReadError>
    ensures { Gives (λ x. x) result (filled (row k.Regions) line.now) }
{
    let (name, paths) = named_lists(alloc, line)?;
    Ok(Command::Change(Change::Regions(name, paths)))
}

#[tactic(auto, unfolding(crate::specs::Forms::filled, crate::specs::Forms::slots_at))]
fn named(alloc: Global, line: &[u8]) -> Result<Command, ReadError>
    ensures { Gives (λ x. x) result (filled (row k.Let) line.now) }
{
    let (name, (op, (first, second))) = definition(alloc, line)?;
    Ok(Command::Change(Change::Let(name, op, first, second)))
}

#[tactic(auto, unfolding(crate::specs::Forms::filled, crate::specs::Forms::slots_at))]
fn made(alloc: Global, line: &[u8]) -> Result<Command, ReadError>
    ensures { Gives (λ x. x) result (filled (row k.Eval) line.now) }
{
    let (op, (first, second)) = operation(alloc, line)?;
    Ok(Command::Query(Query::Eval(op, first, second)))
}

#[tactic(auto, unfolding(crate::specs::Forms::filled, crate::specs::Forms::slots_at))]
fn asked(alloc: Global, line: &[u8]) -> Result<Command, ReadError>
    ensures { Gives (λ x. x) result (filled (row k.Ask) line.now) }
{
    let (predicate, (first, second)) = question(alloc, line)?;
    Ok(Command::Query(Query::Ask(predicate, first, second)))
}

#[tactic(auto, unfolding(crate::specs::Forms::filled, crate::specs::Forms::slots_at))]
fn measured(alloc: Global, line: &[u8]) -> Result<Command, ReadError>
    ensures { Gives (λ x. x) result (filled (row k.Num) line.now) }
{
    let (num, (first, second)) = measuring(alloc, line)?;
    Ok(Command::Query(Query::Num(num, first, second)))
}

#[tactic(auto, unfolding(crate::specs::Forms::filled, crate::specs::Forms::slots_at))]
fn overlaid(alloc: Global, line: &[u8]) -> Result<Command, ReadError>
    ensures { Gives (λ x. x) result (filled (row k.Overlay) line.now) }
{
    let (first, second) = two_lists(alloc, line)?;
    Ok(Command::Query(Query::Overlay(first, second)))
}
