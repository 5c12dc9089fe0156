//! What stands behind the first word of a line, up to the line's end.
ghost use Rattle.std.specs.Prelude.{◌≡◌, ℕ, [], IfErr, OnOk};
ghost use Rattle.line_grammar.specs.declared.fault.ReadError.TheVariants.{NoMemory};
ghost use Rattle.line_grammar.specs.Reading.{Gives, points_at};
ghost use Rattle.line_grammar.specs.Listing.{semicolon_at, item_at, add_item, lists_from_at, lists_at};
ghost use Rattle.line_grammar.specs.Forms as forms;

use crate::command::At;
use crate::fault::ReadError;
use crate::name::Name;
use crate::path::{Path, Paths};
use crate::tokens::{end, led_name, led_point, literal, name, number, point};
use crate::words::{measure_of, number_of_two, operator_of, operator_takes_two, predicate_of};
use rose_values::{Num, Op, Pred};
use std::alloc::Global;
use std::mem;

/// A number that ends the line.
#[tactic(auto, unfolding(crate::specs::Forms::last_number_at))]
pub(crate) fn last_number(line: &[u8]) -> Result<u64, ReadError>
    ensures { Gives (λ x. x) result (forms.last_number_at line.now) }
{
    let (number, rest) = number(line)?;
    end(rest)?;
    Ok(number)
}

/// A place that ends the line.
#[tactic(auto, unfolding(crate::specs::Forms::last_point_at))]
pub(crate) fn last_point(line: &[u8]) -> Result<At, ReadError>
    ensures { Gives (λ x. x) result (forms.last_point_at line.now) }
{
    let (place, rest) = point(line)?;
    end(rest)?;
    Ok(place)
}

/// A name that ends the line.
#[tactic(auto, unfolding(crate::specs::Forms::last_name_at))]
pub(crate) fn last_name(alloc: Global, line: &[u8]) -> Result<Name, ReadError>
    ensures { Gives (λ x. x) result (forms.last_name_at line.now) }
{
    let (name, rest) = name(alloc, line)?;
    end(rest)?;
    Ok(name)
}

#[tactic(auto, unfolding(crate::specs::Forms::last_led_point_at))]
fn last_led_point(line: &[u8]) -> Result<At, ReadError>
    ensures { Gives (λ x. x) result (forms.last_led_point_at line.now) }
{
    let (place, rest) = led_point(line)?;
    end(rest)?;
    Ok(place)
}

#[tactic(auto, unfolding(crate::specs::Forms::last_led_name_at))]
fn last_led_name(alloc: Global, line: &[u8]) -> Result<Name, ReadError>
    ensures { Gives (λ x. x) result (forms.last_led_name_at line.now) }
{
    let (name, rest) = led_name(alloc, line)?;
    end(rest)?;
    Ok(name)
}

/// Two places.
#[tactic(auto, unfolding(crate::specs::Forms::two_points_at))]
pub(crate) fn two_points(line: &[u8]) -> Result<(At, At), ReadError>
    ensures { Gives (λ x. x) result (forms.two_points_at line.now) }
{
    let (from, rest) = point(line)?;
    let to = last_led_point(rest)?;
    Ok((from, to))
}

#[tactic(auto, unfolding(crate::specs::Forms::two_names_at))]
fn two_names(alloc: Global, line: &[u8]) -> Result<(Name, Name), ReadError>
    ensures { Gives (λ x. x) result (forms.two_names_at line.now) }
{
    let (first, rest) = name(alloc, line)?;
    let second = last_led_name(alloc, rest)?;
    Ok((first, second))
}

// Places up to the end of the line, each behind a space.
fn points(alloc: Global, line: &[u8]) -> Result<Path, ReadError>
    ensures { Gives (λ x. x) result (points_at [] line.now) }
{
    let mut places = Vec::new(alloc);
    let mut rest = line;
    while !rest.is_empty() {
        let (place, after) = led_point(rest)?;
        places.push(place)?;
        rest = after;
    }
    Ok(Path::new(places))
}

/// A name, and places up to the end of the line.
#[tactic(auto, unfolding(crate::specs::Forms::named_points_at))]
pub(crate) fn named_points(alloc: Global, line: &[u8]) -> Result<(Name, Path), ReadError>
    ensures { Gives (λ x. x) result (forms.named_points_at line.now) }
{
    let (name, rest) = name(alloc, line)?;
    let places = points(alloc, rest)?;
    Ok((name, places))
}

/// Whether a semicolon and a space are at the front, and the line behind them.
#[tactic(auto, unfolding(crate::specs::Listing::semicolon_at))]
pub(crate) fn semicolon(line: &[u8]) -> Result<(bool, &[u8]), ReadError>
    ensures { Gives (λ x. (x.0, x.1.now)) result (semicolon_at line.now) }
{
    match line {
        [b';', ..] => {
            let rest = literal(b"; ", line)?;
            Ok((true, rest))
        }
        _ => Ok((false, line)),
    }
}

// A place behind a space, or behind a semicolon between spaces, which begins a list.
#[tactic(auto, unfolding(crate::specs::Listing::item_at))]
fn item(line: &[u8]) -> Result<((bool, At), &[u8]), ReadError>
    ensures { Gives (λ x. (x.0, x.1.now)) result (item_at line.now) }
{
    let rest = literal(b" ", line)?;
    let (begins, rest) = semicolon(rest)?;
    let (place, rest) = point(rest)?;
    Ok(((begins, place), rest))
}

// The place joins the last list, or begins a new one.
fn add(
    alloc: Global,
    before: &mut Vec<Path>,
    last: &mut Vec<At>,
    item: (bool, At),
) -> Result<(), ReadError>
    ensures added { OnOk result ((before.new.items, last.new.items)
        ≡ add_item (before.old.items, last.old.items) item) }
    ensures cause { IfErr result (λ e. e ≡ NoMemory) }
{
    let (begins, place) = item;
    if begins {
        let whole = mem::replace(last, Vec::new(alloc));
        before.push(Path::new(whole))?;
    }
    last.push(place)?;
    Ok(())
}

// Lists of places up to the end of the line, behind their first place.
fn lists_from(alloc: Global, first: At, line: &[u8]) -> Result<Paths, ReadError>
    ensures { Gives (λ x. x) result (lists_from_at first line.now) }
{
    let mut before = Vec::new(alloc);
    let mut last = Vec::new(alloc);
    last.push(first)?;
    let mut rest = line;
    while !rest.is_empty() {
        let (next, after) = item(rest)?;
        add(alloc, &mut before, &mut last, next)?;
        rest = after;
    }
    before.push(Path::new(last))?;
    Ok(Paths::new(before))
}

// Nothing, or lists of places up to the end of the line.
#[tactic(auto, unfolding(crate::specs::Listing::lists_at))]
fn lists(alloc: Global, line: &[u8]) -> Result<Paths, ReadError>
    ensures { Gives (λ x. x) result (lists_at line.now) }
{
    match line {
        [] => Ok(Paths::new(Vec::new(alloc))),
        [_, ..] => {
            let (first, rest) = led_point(line)?;
            lists_from(alloc, first, rest)
        }
    }
}

/// A name, and lists of places up to the end of the line.
#[tactic(auto, unfolding(crate::specs::Forms::named_lists_at))]
pub(crate) fn named_lists(alloc: Global, line: &[u8]) -> Result<(Name, Paths), ReadError>
    ensures { Gives (λ x. x) result (forms.named_lists_at line.now) }
{
    let (name, rest) = name(alloc, line)?;
    let paths = lists(alloc, rest)?;
    Ok((name, paths))
}

// A second name where two are taken, and the end.
#[tactic(auto, unfolding(crate::specs::Forms::second_at))]
fn second(alloc: Global, two: bool, line: &[u8]) -> Result<Option<Name>, ReadError>
    ensures { Gives (λ x. x) result (forms.second_at two line.now) }
{
    match two {
        true => {
            let name = last_led_name(alloc, line)?;
            Ok(Some(name))
        }
        false => {
            end(line)?;
            Ok(None)
        }
    }
}

// One name, and a second where two are taken.
#[tactic(auto, unfolding(crate::specs::Forms::operands_at))]
fn operands(alloc: Global, two: bool, line: &[u8]) -> Result<(Name, Option<Name>), ReadError>
    ensures { Gives (λ x. x) result (forms.operands_at two line.now) }
{
    let (first, rest) = name(alloc, line)?;
    let second = second(alloc, two, rest)?;
    Ok((first, second))
}

/// An operator, and as many names as it takes.
#[tactic(auto, unfolding(crate::specs::Forms::operation_at))]
pub(crate) fn operation(alloc: Global, line: &[u8]) -> Result<(Op, (Name, Option<Name>)), ReadError>
    ensures { Gives (λ x. x) result (forms.operation_at line.now) }
{
    let (op, rest) = operator_of(line)?;
    let names = operands(alloc, operator_takes_two(op), rest)?;
    Ok((op, names))
}

/// A number operator, and as many names as it takes.
#[tactic(auto, unfolding(crate::specs::Forms::measuring_at))]
pub(crate) fn measuring(
    alloc: Global,
    line: &[u8],
) -> Result<(Num, (Name, Option<Name>)), ReadError>
    ensures { Gives (λ x. x) result (forms.measuring_at line.now) }
{
    let (num, rest) = measure_of(line)?;
    let names = operands(alloc, number_of_two(num), rest)?;
    Ok((num, names))
}

/// A predicate and two names.
#[tactic(auto, unfolding(crate::specs::Forms::question_at))]
pub(crate) fn question(alloc: Global, line: &[u8]) -> Result<(Pred, (Name, Name)), ReadError>
    ensures { Gives (λ x. x) result (forms.question_at line.now) }
{
    let (predicate, rest) = predicate_of(line)?;
    let names = two_names(alloc, rest)?;
    Ok((predicate, names))
}

#[tactic(auto, unfolding(crate::specs::Forms::defined_at))]
fn defined(alloc: Global, line: &[u8]) -> Result<(Op, (Name, Option<Name>)), ReadError>
    ensures { Gives (λ x. x) result (forms.defined_at line.now) }
{
    let rest = literal(b" = ", line)?;
    operation(alloc, rest)
}

/// A name, and behind the equals sign what it is to name.
#[tactic(auto, unfolding(crate::specs::Forms::definition_at))]
pub(crate) fn definition(
    alloc: Global,
    line: &[u8],
) -> Result<(Name, (Op, (Name, Option<Name>))), ReadError>
    ensures { Gives (λ x. x) result (forms.definition_at line.now) }
{
    let (name, rest) = name(alloc, line)?;
    let defined = defined(alloc, rest)?;
    Ok((name, defined))
}
