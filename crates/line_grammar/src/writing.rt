//! A command is written part by part, with std's own formatting of numbers, whose text is exact.
ghost use Rattle.std.specs.Prelude.{◌≡◌, ◌++◌, IfOk, OnOk, string_bytes};
ghost use Rattle.std.specs.Fmt.{decimal};
ghost use Rattle.std.specs.List.{flat_map};
ghost use Rattle.line_grammar.specs.Words.{operator, predicate, measure};
ghost use Rattle.line_grammar.specs.Pieces.{point, led_point, next_list, lists, second};
ghost use Rattle.line_grammar.specs.Pieces.{names, led_keyed, keyed_names};
ghost use Rattle.line_grammar.specs.Spelling.{change_text, command_text};
ghost use Rattle.line_grammar.specs.Spellable.{IsSpellable, IsSpellableChange};
ghost use Rattle.line_grammar.specs.Slots.{text_in};
ghost use Rattle.line_grammar.specs.Parts.{seen};

use crate::command::{At, Change, Command, change_parts, first_word, parts_of};
use crate::name::Name;
use crate::parts::Parts;
use crate::path::Path;
use grid_base::{NoMemory, Reply};
use rose_values::{Num, Op, Pred};
use std::alloc::{AllocError, Global};

/// The one text of the command: the line that `read_line` reads as this command, without a line feed.
pub fn write_line(alloc: Global, c: &Command) -> Result<Reply, NoMemory>
    requires { IsSpellable c.now }
    ensures { IfOk result (λ reply. reply ≡ command_text c.now) }
{
    let (first, parts) = parts_of(c);
    let mut text = String::with_capacity(alloc, ROOM)?;
    text.push_str(first_word(first))?;
    push_parts(&mut text, &parts)?;
    Ok(Reply::new(text.into_bytes()))
}

// Room for a segment between any places of the grid.
const ROOM: usize = 48;

/// The one text of the change, which is that of its command.
pub fn write_change(alloc: Global, change: &Change) -> Result<Reply, NoMemory>
    requires { IsSpellableChange change.now }
    ensures { IfOk result (λ reply. reply ≡ change_text change.now) }
{
    let (first, parts) = change_parts(change);
    let mut text = String::with_capacity(alloc, ROOM)?;
    text.push_str(first_word(first))?;
    push_parts(&mut text, &parts)?;
    Ok(Reply::new(text.into_bytes()))
}

// What is put behind a first word.
fn push_parts(text: &mut String, parts: &Parts<'_>) -> Result<(), AllocError>
    ensures { OnOk result (string_bytes text.new
        ≡ string_bytes text.old ++ text_in (seen parts.now)) }
{
    match parts {
        Parts::Nothing => Ok(()),
        Parts::OneNumber(number) => push_number(text, "", *number),
        Parts::OnePlace(p) => push_point(text, "", p),
        Parts::TwoPlaces(p, q) => {
            push_point(text, "", p)?;
            push_point(text, " ", q)
        }
        Parts::OneName(name) => push_name(text, "", name),
        Parts::NameAndPlaces(name, path) => {
            push_name(text, "", name)?;
            push_points(text, path.places())
        }
        Parts::NameAndLists(name, paths) => {
            push_name(text, "", name)?;
            push_lists(text, paths.paths())
        }
        Parts::Operation(op, first, second) => {
            push_operation(text, operator_word(*op), first, second)
        }
        Parts::Question(asked, first, second) => {
            push_name(text, predicate_word(*asked), first)?;
            push_name(text, " ", second)
        }
        Parts::Measure(num, first, second) => {
            push_operation(text, measure_word(*num), first, second)
        }
        Parts::Definition(name, op, first, second) => {
            push_name(text, "", name)?;
            text.push_str(" = ")?;
            push_operation(text, operator_word(*op), first, second)
        }
        Parts::SomeNames(names) => push_names(text, names.names()),
        Parts::TwoLists(first, second) => {
            push_names(text, first.names())?;
            text.push_str(" ;")?;
            push_names(text, second.names())
        }
        Parts::KeyedNames(names) => push_keyed_names(text, names.names()),
    }
}

fn push_number(text: &mut String, word: &str, number: u64) -> Result<(), AllocError>
    ensures { OnOk result (string_bytes text.new
        ≡ string_bytes text.old ++ (word.now ++ decimal number)) }
{
    write!(text, "{word}{number}")
}

fn push_point(text: &mut String, word: &str, p: &At) -> Result<(), AllocError>
    ensures { OnOk result (string_bytes text.new
        ≡ string_bytes text.old ++ (word.now ++ point p.now)) }
{
    let (x, y) = (p.x, p.y);
    write!(text, "{word}{x} {y}")
}

fn push_name(text: &mut String, word: &str, name: &Name) -> Result<(), AllocError>
    ensures { OnOk result (string_bytes text.new
        ≡ string_bytes text.old ++ (word.now ++ name.now)) }
{
    let name = name.text();
    write!(text, "{word}{name}")
}

fn push_names(text: &mut String, list: &[Name]) -> Result<(), AllocError>
    ensures { OnOk result (string_bytes text.new ≡ string_bytes text.old ++ names list.now) }
{
    for name in list {
        push_name(text, " ", name)?;
    }
    Ok(())
}

fn push_keyed(text: &mut String, keyed: &(Name, u64)) -> Result<(), AllocError>
    ensures { OnOk result (string_bytes text.new ≡ string_bytes text.old ++ led_keyed keyed.now) }
{
    push_name(text, " ", &keyed.0)?;
    push_number(text, " ", keyed.1)
}

fn push_keyed_names(text: &mut String, list: &[(Name, u64)]) -> Result<(), AllocError>
    ensures { OnOk result (string_bytes text.new
        ≡ string_bytes text.old ++ keyed_names list.now) }
{
    for keyed in list {
        push_keyed(text, keyed)?;
    }
    Ok(())
}

fn push_points(text: &mut String, places: &[At]) -> Result<(), AllocError>
    ensures { OnOk result (string_bytes text.new
        ≡ string_bytes text.old ++ flat_map led_point places.now) }
{
    for p in places {
        push_point(text, " ", p)?;
    }
    Ok(())
}

fn push_next_list(text: &mut String, path: &Path) -> Result<(), AllocError>
    ensures { OnOk result (string_bytes text.new ≡ string_bytes text.old ++ next_list path.now) }
{
    text.push_str(" ;")?;
    push_points(text, path.places())
}

fn push_next_lists(text: &mut String, paths: &[Path]) -> Result<(), AllocError>
    ensures { OnOk result (string_bytes text.new
        ≡ string_bytes text.old ++ flat_map next_list paths.now) }
{
    for path in paths {
        push_next_list(text, path)?;
    }
    Ok(())
}

fn push_lists(text: &mut String, paths: &[Path]) -> Result<(), AllocError>
    ensures { OnOk result (string_bytes text.new ≡ string_bytes text.old ++ lists paths.now) }
{
    match paths {
        [] => Ok(()),
        [first, more @ ..] => {
            push_points(text, first.places())?;
            push_next_lists(text, more)
        }
    }
}

// The word of an operator or a number operator, and one name or two.
fn push_operation(
    text: &mut String,
    word: &str,
    first: &Name,
    other: &Option<Name>,
) -> Result<(), AllocError>
    ensures { OnOk result (string_bytes text.new
        ≡ string_bytes text.old ++ (word.now ++ (first.now ++ second other.now))) }
{
    push_name(text, word, first)?;
    push_second(text, other)
}

fn push_second(text: &mut String, other: &Option<Name>) -> Result<(), AllocError>
    ensures { OnOk result (string_bytes text.new ≡ string_bytes text.old ++ second other.now) }
{
    match other {
        None => Ok(()),
        Some(name) => push_name(text, " ", name),
    }
}

fn operator_word(op: Op) -> &'static str
    ensures { result.now ≡ operator op }
{
    match op {
        Op::Intersection => "intersection ",
        Op::Plus => "plus ",
        Op::Minus => "minus ",
        Op::CommonBorder => "common_border ",
        Op::Vertices => "vertices ",
        Op::Contour => "contour ",
        Op::Interior => "interior ",
    }
}

fn predicate_word(asked: Pred) -> &'static str
    ensures { result.now ≡ predicate asked }
{
    match asked {
        Pred::Equal => "equal ",
        Pred::Inside => "inside ",
        Pred::EdgeInside => "edge_inside ",
        Pred::VertexInside => "vertex_inside ",
        Pred::AreaDisjoint => "area_disjoint ",
        Pred::EdgeDisjoint => "edge_disjoint ",
        Pred::Disjoint => "disjoint ",
        Pred::Intersects => "intersects ",
        Pred::Meets => "meets ",
        Pred::Adjacent => "adjacent ",
        Pred::Encloses => "encloses ",
        Pred::OnBorderOf => "on_border_of ",
        Pred::BorderInCommon => "border_in_common ",
    }
}

fn measure_word(num: Num) -> &'static str
    ensures { result.now ≡ measure num }
{
    match num {
        Num::Area2 => "area2 ",
        Num::Dist2 => "dist2 ",
        Num::Diameter2 => "diameter2 ",
        Num::NoOfComponents => "no_of_components ",
    }
}
