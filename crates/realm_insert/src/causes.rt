//! The causes of refusals, looked for in their order, and what a change draws where there is none. What the change itself
//! says is asked for first, so that the later tests know its places to be on the grid.
ghost use Rattle.std.specs.Prelude.{◌≡◌, ◌↔◌, ◌∷◌, [], false, IsTrue};
ghost use Rattle.std.specs.Option.{option_copied};
ghost use Rattle.line_grammar.specs.declared.command.Change.TheVariants.{Let, Delete, Unpoint};
ghost use Rattle.value_table.specs.Table.{IsNamed};
ghost use Rattle.realm_insert.specs.State.{State};
ghost use Rattle.realm_insert.specs.Figures.{Draws};
ghost use Rattle.realm_insert.specs.Lines.{HasPlaceOffGrid, IsOffGrid, IsLet, drawn_between};
ghost use Rattle.realm_insert.specs.Refusals.{DefinesTwice, UsesNoValue, FindsFirst, before_limits, order_of_refusals};
ghost use Rattle.realm_insert.specs.Work.{FindsFigure};
ghost use Rattle.realm_insert.specs.declared.refusal.Refusal.TheVariants.{Range, Shape, Degenerate, NameTaken, NoName};
ghost use Rattle.realm_insert.specs.declared.refusal.Refusal.TheVariants.{Types, NoId, NoPoint, InUse, Ids, Changes};

use crate::asked::{
    Ends, ends_drawn, has_short_list, is_degenerate, is_out_of_range, name_of, point_of,
};
use crate::engine::{Engine, MOST_CHANGES};
use crate::figure::Figure;
use crate::operands::operands_named;
use crate::refusal::{ChangeError, Refusal};
use line_grammar::{At, Change, Name};
use rose_operators::operate;
use rose_overlay::EvalError;
use rose_values::Op;
use std::alloc::Global;
use std::thread::Threads;
use value_table::Table;

// What the change draws, or the first refusal that has its cause.
pub(crate) fn figure_drawn<R: Threads + Sync>(
    rt: &R,
    alloc: Global,
    engine: &Engine,
    c: &Change,
) -> Result<Figure, ChangeError>
    requires ready { engine.now.spent ≡ false }
    ensures { FindsFigure order_of_refusals c.now engine.now.state result }
{
    let figure = figure_wanted(rt, alloc, engine, c)?;
    match past_limits(engine, c, &figure) {
        Some(found) => Err(ChangeError::Refused(found)),
        None => Ok(figure),
    }
}

// What the change draws, or the first refusal that has its cause, whatever is left of ids and changes.
fn figure_wanted<R: Threads + Sync>(
    rt: &R,
    alloc: Global,
    engine: &Engine,
    c: &Change,
) -> Result<Figure, ChangeError>
    requires ready { engine.now.spent ≡ false }
    ensures { FindsFigure before_limits c.now engine.now.state result }
{
    match c {
        Change::Let(name, op, first, second) => {
            figure_made(rt, alloc, engine, name, *op, first, second.as_ref())
        }
        _ => figure_written(alloc, engine, c),
    }
}

// What an operator makes of the values with these names. All that may be wrong is in the names.
fn figure_made<R: Threads + Sync>(
    rt: &R,
    alloc: Global,
    engine: &Engine,
    name: &Name,
    op: Op,
    first: &Name,
    second: Option<&Name>,
) -> Result<Figure, ChangeError>
    requires ready { engine.now.spent ≡ false }
    ensures { FindsFigure before_limits (Let name.now op first.now (option_copied second.entry)) engine.now.state result }
{
    if is_named(engine.table(), name) {
        return Err(ChangeError::Refused(Refusal::NameTaken));
    }
    let Some(of) = operands_named(engine, first, second)? else {
        return Err(ChangeError::Refused(Refusal::NoName));
    };
    match operate(rt, alloc, op, &of.first, of.second.as_ref()) {
        Ok(made) => Ok(Figure::of_geometry(alloc, made)),
        Err(EvalError::WrongTypes) => Err(ChangeError::Refused(Refusal::Types)),
        Err(EvalError::NoMemory) => Err(ChangeError::NoMemory),
    }
}

// What any other change draws.
fn figure_written(alloc: Global, engine: &Engine, c: &Change) -> Result<Figure, ChangeError>
    requires ready { engine.now.spent ≡ false }
    requires not_let { IsLet c.now → ⊥ }
    ensures { FindsFigure before_limits c.now engine.now.state result }
{
    let ends = ends_drawn(alloc, c)?;
    match unfit(engine, c, &ends) {
        Some(found) => Err(ChangeError::Refused(found)),
        None => Ok(Figure::of_line(alloc, c, &ends)?),
    }
}

fn unfit(engine: &Engine, c: &Change, ends: &[Ends]) -> Option<Refusal>
    requires ready { engine.now.spent ≡ false }
    requires not_let { IsLet c.now → ⊥ }
    requires ends { ends.now ≡ drawn_between c.now }
    ensures { FindsFirst before_limits c.now engine.now.state result }
{
    if let Some(found) = malformed(c, ends) {
        return Some(found);
    }
    if let Some(found) = misnamed(engine.table(), c) {
        return Some(found);
    }
    taking(engine, c)
}

// What is wrong in the change itself.
fn malformed(c: &Change, ends: &[Ends]) -> Option<Refusal>
    requires ends { ends.now ≡ drawn_between c.now }
    ensures { (s : State) → FindsFirst (Range ∷ Shape ∷ Degenerate ∷ []) c.now s result }
{
    if is_out_of_range(c) {
        Some(Refusal::Range)
    } else if has_short_list(c) {
        Some(Refusal::Shape)
    } else if is_degenerate(ends) {
        Some(Refusal::Degenerate)
    } else {
        None
    }
}

// What is wrong with its names. No change but by an operator asks for kinds.
fn misnamed(table: &Table, c: &Change) -> Option<Refusal>
    requires not_let { IsLet c.now → ⊥ }
    ensures { (s : State) → s.values ≡ table.now → FindsFirst (NameTaken ∷ NoName ∷ Types ∷ []) c.now s result }
{
    if defines_twice(table, c) {
        Some(Refusal::NameTaken)
    } else if uses_no_value(table, c) {
        Some(Refusal::NoName)
    } else {
        None
    }
}

fn defines_twice(table: &Table, c: &Change) -> bool
    ensures { IsTrue result ↔ DefinesTwice c.now table.now }
{
    match name_of(c) {
        Some(name) => is_named(table, name),
        None => false,
    }
}

fn uses_no_value(table: &Table, c: &Change) -> bool
    requires not_let { IsLet c.now → ⊥ }
    ensures { IsTrue result ↔ UsesNoValue c.now table.now }
{
    match c {
        Change::Drop(name) => !is_named(table, name),
        _ => false,
    }
}

fn is_named(table: &Table, name: &Name) -> bool
    ensures { IsTrue result ↔ IsNamed name.now table.now }
{
    table.get(name.text()).is_some()
}

// Why what the change takes away can't go.
fn taking(engine: &Engine, c: &Change) -> Option<Refusal>
    requires ready { engine.now.spent ≡ false }
    requires on_grid { HasPlaceOffGrid c.now → ⊥ }
    ensures { FindsFirst (NoId ∷ NoPoint ∷ InUse ∷ []) c.now engine.now.state result }
{
    match c {
        Change::Delete(id) => deleting(engine, *id),
        Change::Unpoint(p) => unmarking(engine, p),
        _ => None,
    }
}

fn deleting(engine: &Engine, id: u64) -> Option<Refusal>
    requires ready { engine.now.spent ≡ false }
    ensures { FindsFirst (NoId ∷ NoPoint ∷ InUse ∷ []) (Delete id) engine.now.state result }
{
    let drawing = engine.drawing();
    let Ok(id) = u32::try_from(id) else {
        return Some(Refusal::NoId);
    };
    if drawing.chain(id).is_none() {
        Some(Refusal::NoId)
    } else if engine.table().users_of(id) > 0 {
        Some(Refusal::InUse)
    } else {
        None
    }
}

fn unmarking(engine: &Engine, p: &At) -> Option<Refusal>
    requires ready { engine.now.spent ≡ false }
    requires on_grid { IsOffGrid p.now → ⊥ }
    ensures { FindsFirst (NoId ∷ NoPoint ∷ InUse ∷ []) (Unpoint p.now) engine.now.state result }
{
    let p = point_of(p);
    if !engine.drawing().is_explicit(&p) {
        Some(Refusal::NoPoint)
    } else if engine.table().users_of_point(&p) > 0 {
        Some(Refusal::InUse)
    } else {
        None
    }
}

// Whether too few ids or changes are left.
fn past_limits(engine: &Engine, c: &Change, figure: &Figure) -> Option<Refusal>
    requires ready { engine.now.spent ≡ false }
    requires draws { Draws c.now engine.now.state figure.now }
    ensures { FindsFirst (Ids ∷ Changes ∷ []) c.now engine.now.state result }
{
    let drawn = figure.segments().len() as u64;
    let left = MOST_IDS - engine.next_id();
    if drawn > left {
        Some(Refusal::Ids)
    } else if engine.changes() >= MOST_CHANGES {
        Some(Refusal::Changes)
    } else {
        None
    }
}

// The first number that is no id: 2^32.
const MOST_IDS: u64 = 4_294_967_296;
