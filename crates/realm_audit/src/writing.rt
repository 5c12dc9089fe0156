//! The text of a line, with std's own formatting of numbers, whose text is exact.
ghost use Rattle.std.specs.Prelude.{◌≡◌, ◌++◌, ◌∷◌, [], IfOk, OnOk, string_bytes};
ghost use Rattle.realm_audit.specs.Items.{IsLine, text_of, led_numbers, numbers_of, numbers_of_step, coordinates};

use crate::item::Item;
use crate::words::{spelling, word_of_item};
use grid_base::{NoMemory, Point, Reply, Step};
use std::alloc::{AllocError, Global};

/// The one text of a line, without a line feed. Fails only for want of memory.
pub fn certificate_line(alloc: Global, item: &Item) -> Result<Reply, NoMemory>
    requires line { IsLine item.now }
    ensures text { IfOk result (λ reply. reply ≡ text_of item.now) }
{
    let mut text = String::new(alloc);
    text.push_str(spelling(word_of_item(item)))?;
    push_numbers(&mut text, item)?;
    Ok(Reply::new(text.into_bytes()))
}

fn push_numbers(text: &mut String, item: &Item) -> Result<(), AllocError>
    ensures { OnOk result (string_bytes text.new
        ≡ string_bytes text.old ++ led_numbers (numbers_of item.now)) }
{
    match item {
        Item::Point(p) => push_points(text, &[*p]),
        Item::Unpoint(p) => push_points(text, &[*p]),
        Item::Original(id, chain) => {
            push_number(text, *id)?;
            push_points(text, chain.points())
        }
        Item::Remove(id) => push_number(text, *id),
        Item::Segment(id, p, q) => {
            push_number(text, *id)?;
            push_points(text, &[*p, *q])
        }
        Item::Step(step) => push_step(text, step),
        Item::Change | Item::End => Ok(()),
    }
}

fn push_step(text: &mut String, step: &Step) -> Result<(), AllocError>
    ensures { OnOk result (string_bytes text.new
        ≡ string_bytes text.old ++ led_numbers (numbers_of_step step.now)) }
{
    match step {
        Step::Split { p, t } => push_points(text, &[*p, t.a(), t.b()]),
        Step::Meet { t, u, x } => push_points(text, &[t.a(), t.b(), u.a(), u.b(), *x]),
        Step::Corner { t, u } => push_points(text, &[t.a(), t.b(), u.a(), u.b()]),
    }
}

fn push_points(text: &mut String, points: &[Point]) -> Result<(), AllocError>
    ensures { OnOk result (string_bytes text.new
        ≡ string_bytes text.old ++ led_numbers (coordinates points.now)) }
{
    for p in points {
        push_point(text, p)?;
    }
    Ok(())
}

fn push_point(text: &mut String, p: &Point) -> Result<(), AllocError>
    ensures { OnOk result (string_bytes text.new
        ≡ string_bytes text.old ++ led_numbers (p.now.x ∷ p.now.y ∷ [])) }
{
    let (x, y) = (p.x(), p.y());
    write!(text, " {x} {y}")
}

fn push_number(text: &mut String, n: u32) -> Result<(), AllocError>
    ensures { OnOk result (string_bytes text.new ≡ string_bytes text.old ++ led_numbers (n ∷ [])) }
{
    write!(text, " {n}")
}
