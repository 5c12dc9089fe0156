//! One or more names behind a first word, up to the end of the line: alone, with keys, or in two lists.
ghost use Rattle.line_grammar.specs.Reading.{Gives};
ghost use Rattle.line_grammar.specs.NameLists.{names_at, some_names_at, led_number_at, led_keyed_at};
ghost use Rattle.line_grammar.specs.NameLists.{keyed_at, some_keyed_at, marked_name_at};
ghost use Rattle.line_grammar.specs.NameLists.{two_lists_behind, two_lists_at, second_list_at};

use crate::fault::ReadError;
use crate::name::Name;
use crate::names::{KeyedNames, Names};
use crate::rests::semicolon;
use crate::tokens::{led_name, literal, name, number};
use std::alloc::Global;

/// One or more names.
#[tactic(auto, unfolding(crate::specs::NameLists::some_names_at))]
pub(crate) fn some_names(alloc: Global, line: &[u8]) -> Result<Names, ReadError>
    ensures { Gives (λ x. x) result (some_names_at line.now) }
{
    let (first, rest) = led_name(alloc, line)?;
    let mut so_far = Vec::new(alloc);
    so_far.push(first)?;
    names_behind(alloc, so_far, rest)
}

// Names up to the end of the line, behind those that were read before.
fn names_behind(alloc: Global, before: Vec<Name>, line: &[u8]) -> Result<Names, ReadError>
    ensures { Gives (λ x. x) result (names_at before.items line.now) }
{
    let mut names = before;
    let mut rest = line;
    while !rest.is_empty() {
        let (name, after) = led_name(alloc, rest)?;
        names.push(name)?;
        rest = after;
    }
    Ok(Names::new(names))
}

// A number behind a space.
#[tactic(auto, unfolding(crate::specs::NameLists::led_number_at))]
fn led_number(line: &[u8]) -> Result<(u64, &[u8]), ReadError>
    ensures { Gives (λ x. (x.0, x.1.now)) result (led_number_at line.now) }
{
    let rest = literal(b" ", line)?;
    number(rest)
}

// A name and its key, each behind a space.
#[tactic(auto, unfolding(crate::specs::NameLists::led_keyed_at))]
fn led_keyed(alloc: Global, line: &[u8]) -> Result<((Name, u64), &[u8]), ReadError>
    ensures { Gives (λ x. (x.0, x.1.now)) result (led_keyed_at line.now) }
{
    let (name, rest) = led_name(alloc, line)?;
    let (key, rest) = led_number(rest)?;
    Ok(((name, key), rest))
}

/// One or more names, each with a key.
#[tactic(auto, unfolding(crate::specs::NameLists::some_keyed_at))]
pub(crate) fn some_keyed(alloc: Global, line: &[u8]) -> Result<KeyedNames, ReadError>
    ensures { Gives (λ x. x) result (some_keyed_at line.now) }
{
    let (first, rest) = led_keyed(alloc, line)?;
    let mut so_far = Vec::new(alloc);
    so_far.push(first)?;
    keyed_behind(alloc, so_far, rest)
}

// Names with their keys up to the end of the line, behind those that were read before.
fn keyed_behind(
    alloc: Global,
    before: Vec<(Name, u64)>,
    line: &[u8],
) -> Result<KeyedNames, ReadError>
    ensures { Gives (λ x. x) result (keyed_at before.items line.now) }
{
    let mut names = before;
    let mut rest = line;
    while !rest.is_empty() {
        let (keyed, after) = led_keyed(alloc, rest)?;
        names.push(keyed)?;
        rest = after;
    }
    Ok(KeyedNames::new(names))
}

// A name behind a space, or behind a semicolon between spaces, which begins a list.
#[tactic(auto, unfolding(crate::specs::NameLists::marked_name_at))]
fn marked_name(alloc: Global, line: &[u8]) -> Result<((bool, Name), &[u8]), ReadError>
    ensures { Gives (λ x. (x.0, x.1.now)) result (marked_name_at line.now) }
{
    let rest = literal(b" ", line)?;
    let (begins, rest) = semicolon(rest)?;
    let (name, rest) = name(alloc, rest)?;
    Ok(((begins, name), rest))
}

/// One or more names, a semicolon, and one or more names.
#[tactic(auto, unfolding(crate::specs::NameLists::two_lists_at))]
pub(crate) fn two_lists(alloc: Global, line: &[u8]) -> Result<(Names, Names), ReadError>
    ensures { Gives (λ x. x) result (two_lists_at line.now) }
{
    let (first, rest) = led_name(alloc, line)?;
    let mut so_far = Vec::new(alloc);
    so_far.push(first)?;
    lists_behind(alloc, so_far, rest)
}

// Names up to a semicolon, behind those that were read before, and the names behind it.
fn lists_behind(alloc: Global, before: Vec<Name>, line: &[u8]) -> Result<(Names, Names), ReadError>
    ensures { Gives (λ x. x) result (two_lists_behind before.items line.now) }
{
    let mut names = before;
    let mut rest = line;
    while !rest.is_empty() {
        let ((begins, name), after) = marked_name(alloc, rest)?;
        if begins {
            return second_list(alloc, names, name, after);
        }
        names.push(name)?;
        rest = after;
    }
    Err(ReadError::Stopped { left: 0 })
}

// The names of the first list, and those of the second behind its first.
fn second_list(
    alloc: Global,
    names: Vec<Name>,
    first: Name,
    line: &[u8],
) -> Result<(Names, Names), ReadError>
    ensures { Gives (λ x. x) result (second_list_at names.items first line.now) }
{
    let mut so_far = Vec::new(alloc);
    so_far.push(first)?;
    let second = names_behind(alloc, so_far, line)?;
    Ok((Names::new(names), second))
}
