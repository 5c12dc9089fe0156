//! Whether a command has a text. Nothing here takes memory.
ghost use Rattle.std.specs.Prelude.{◌≡◌, ◌↔◌, ◌<◌, IsTrue, length, true};
ghost use Rattle.std.specs.List.{AllByRecursion};
ghost use Rattle.line_grammar.specs.Fitting.{IsNumber, is_name_byte, IsName, IsPoint, ArePoints, IsSecond};
ghost use Rattle.line_grammar.specs.Fitting.{AreNames, IsKeyed, AreKeyed};
ghost use Rattle.line_grammar.specs.Spellable.{IsSpellableChange, IsSpellable};
ghost use Rattle.line_grammar.specs.Slots.{fits_in};
ghost use Rattle.line_grammar.specs.Parts.{seen};

use crate::command::{At, Change, Command, change_parts, parts_of};
use crate::name::Name;
use crate::names::{KeyedNames, Names};
use crate::parts::Parts;
use crate::path::Path;
use crate::tokens::{letter, name_bytes};
use crate::words::{number_of_two, operator_takes_two};

/// Whether some line stands for the command: its numbers have at most 19 digits, its names are a letter
/// and at most 31 letters, digits and underscores, no list among its lists is empty, nor one of its lists
/// of names, and its operator has as many names as it takes.
pub fn spellable(c: &Command) -> bool
    ensures { IsTrue result ↔ IsSpellable c.now }
{
    parts_fit(&parts_of(c).1)
}

/// Whether some line stands for the change, which is so exactly where one stands for its command.
pub fn spellable_change(change: &Change) -> bool
    ensures { IsTrue result ↔ IsSpellableChange change.now }
{
    parts_fit(&change_parts(change).1)
}

// Whether what is put behind a first word has a text.
fn parts_fit(parts: &Parts<'_>) -> bool
    ensures { IsTrue result ↔ fits_in (seen parts.now) }
{
    match parts {
        Parts::Nothing => true,
        Parts::OneNumber(number) => number_fits(*number),
        Parts::OnePlace(p) => point_fits(p),
        Parts::TwoPlaces(p, q) => point_fits(p) && point_fits(q),
        Parts::OneName(name) => name_fits(name),
        Parts::NameAndPlaces(name, path) => name_fits(name) && points_fit(path.places()),
        Parts::NameAndLists(name, paths) => name_fits(name) && lists_fit(paths.paths()),
        Parts::Operation(op, first, second) => operands_fit(operator_takes_two(*op), first, second),
        Parts::Question(_, first, second) => name_fits(first) && name_fits(second),
        Parts::Measure(num, first, second) => operands_fit(number_of_two(*num), first, second),
        Parts::Definition(name, op, first, second) => {
            name_fits(name) && operands_fit(operator_takes_two(*op), first, second)
        }
        Parts::SomeNames(names) => names_fit(names),
        Parts::TwoLists(first, second) => names_fit(first) && names_fit(second),
        Parts::KeyedNames(names) => keyed_fit(names),
    }
}

// Whether the number has at most 19 digits.
fn number_fits(number: u64) -> bool
    ensures { IsTrue result ↔ IsNumber number }
{
    number < 10_000_000_000_000_000_000
}

fn point_fits(p: &At) -> bool
    ensures { IsTrue result ↔ IsPoint p.now }
{
    number_fits(p.x) && number_fits(p.y)
}

fn points_fit(places: &[At]) -> bool
    ensures { IsTrue result ↔ AllByRecursion IsPoint places.now }
{
    for p in places {
        if !point_fits(p) {
            return false;
        }
    }
    true
}

// Whether the list has a place at least, and each of them fits.
fn list_fits(path: &Path) -> bool
    ensures { IsTrue result ↔ ArePoints path.now }
{
    match path.places() {
        [] => false,
        [first, rest @ ..] => point_fits(first) && points_fit(rest),
    }
}

fn lists_fit(paths: &[Path]) -> bool
    ensures { IsTrue result ↔ AllByRecursion ArePoints paths.now }
{
    for path in paths {
        if !list_fits(path) {
            return false;
        }
    }
    true
}

fn name_fits(name: &Name) -> bool
    ensures { IsTrue result ↔ IsName name.now }
{
    match name.text().as_bytes() {
        [] => false,
        [first, rest @ ..] => letter(*first) && ending_fits(rest),
    }
}

fn all_names_fit(names: &[Name]) -> bool
    ensures { IsTrue result ↔ AllByRecursion IsName names.now }
{
    for name in names {
        if !name_fits(name) {
            return false;
        }
    }
    true
}

// Whether the list has a name at least, and each of them fits.
fn names_fit(names: &Names) -> bool
    ensures { IsTrue result ↔ AreNames names.now }
{
    match names.names() {
        [] => false,
        [first, rest @ ..] => name_fits(first) && all_names_fit(rest),
    }
}

fn key_fits(keyed: &(Name, u64)) -> bool
    ensures { IsTrue result ↔ IsKeyed keyed.now }
{
    name_fits(&keyed.0) && number_fits(keyed.1)
}

fn all_keyed_fit(names: &[(Name, u64)]) -> bool
    ensures { IsTrue result ↔ AllByRecursion IsKeyed names.now }
{
    for keyed in names {
        if !key_fits(keyed) {
            return false;
        }
    }
    true
}

// Whether the list has a name at least, and each of them fits with its key.
fn keyed_fit(names: &KeyedNames) -> bool
    ensures { IsTrue result ↔ AreKeyed names.now }
{
    match names.names() {
        [] => false,
        [first, rest @ ..] => key_fits(first) && all_keyed_fit(rest),
    }
}

// Whether these bytes may stand behind the first letter of a name.
fn ending_fits(bytes: &[u8]) -> bool
    ensures { IsTrue result
        ↔ (AllByRecursion (λ c. is_name_byte c ≡ true) bytes.now × (length bytes.now < 32)) }
{
    bytes.len() < 32 && name_bytes(bytes) == bytes.len()
}

// Whether the second name is there exactly where two are taken.
fn second_fits(two: bool, second: &Option<Name>) -> bool
    ensures { IsTrue result ↔ IsSecond two second.now }
{
    match second {
        None => !two,
        Some(name) => two && name_fits(name),
    }
}

fn operands_fit(two: bool, first: &Name, second: &Option<Name>) -> bool
    ensures { IsTrue result ↔ (IsName first.now × IsSecond two second.now) }
{
    name_fits(first) && second_fits(two, second)
}
