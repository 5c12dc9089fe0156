//! The engine: the drawing, an index of its pieces by their keys, and the numbers of the state. It is spent from the
//! beginning of a change to its end, so want of memory, or a step that doesn't fit, leaves it spent.
ghost use Rattle.std.specs.Prelude.{◌≡◌, ◌⊎◌, ◌↔◌, ◌+◌, ◌≤◌, ◌<◌, ◌^◌, ℕ, true, false, List, [], ◌∷◌, ◌++◌};
ghost use Rattle.std.specs.Prelude.{All, Contains, IsTrue, min, Err, IfOk, OnOk, MatchResult, MatchOption, IfSome, IsSomeAnd, IsNone};
ghost use Rattle.grid_base.specs.Drawing.{IsDrawnRealm};
ghost use Rattle.grid_base.specs.declared.kinds.Step.{Step as Seen};
ghost use Rattle.record_codec.specs.Traces.{IsTrace};
ghost use Rattle.record_codec.specs.Fitting.{IsList};
ghost use Rattle.record_codec.specs.Payload.{IsSnapshot, IsKeptTrace as HasKeptText};
ghost use Rattle.unswept_regions.specs.Unswept.{IsUnsweptValue};
ghost use Rattle.value_table.specs.Table.{value_named};
ghost use Rattle.realm_insert.specs.State.{fresh_state, kept_trace, latest, HasIdsBelow, AreLatest};
ghost use Rattle.line_grammar.specs.Spellable.{IsSpellableChange};
ghost use Rattle.realm_insert.specs.Lines.{IsLet};
ghost use Rattle.realm_insert.specs.Figures.{Draws};
ghost use Rattle.realm_insert.specs.Refusals.{IsAccepted, IsRefusedBy};
ghost use Rattle.realm_insert.specs.Changes.{ChangesTo};
ghost use Rattle.realm_insert.specs.Differences.{points_besides};
ghost use Rattle.realm_insert.specs.Values.{AreValuesOf, IsGeometryNamed};
ghost use Rattle.realm_insert.specs.Next.{Next, MakesNoViolation, KeepsAll};
ghost use Rattle.realm_insert.specs.Misfits.{MisfitsAt};
ghost use Rattle.realm_insert.specs.Snapshots.{state_of, traces_in, kept_steps, IsValidState};
ghost use Rattle.realm_insert.specs.declared.refusal.Refusal.{Refusal as Word};
ghost use Rattle.realm_insert.specs.declared.settling.SettleError.TheVariants.{Mismatch};

use crate::applied::Applied;
use crate::causes::figure_drawn;
use crate::defining::revalue;
use crate::figure::Figure;
use crate::making::redraw;
use crate::placing::points_to_mark;
use crate::refusal::{ChangeError, Refusal, ReplayError};
use crate::restoring::{numbers_in, restored};
use crate::settling::SettleError;
use crate::snapshot_error::SnapshotError;
use grid_base::{NoMemory, Point, Step};
use line_grammar::Change;
use realm_drawing::Drawing;
use realm_index::NearIndex;
use record_codec::{Kept, ListOf, Snapshot, Trace};
use rose_values::Geometry;
use state_copies::{copied_originals, copied_values, explicit_points};
use std::alloc::Global;
use std::marker::Model;
use std::thread::Threads;
use unswept_regions::no_region_sweeps;
use value_geometry::geometry_of;
use value_table::Table;

/// How many changes may be accepted: 2^63.
pub const MOST_CHANGES: u64 = 9_223_372_036_854_775_808;

// How many traces are kept.
const MOST_TRACES: usize = 16;

// The trace of the change with this number.
#[derive(Debug, Drop)]
struct LastTrace {
    number: u64,
    trace: Trace,
}

impl Model for LastTrace {
    ghost use Rattle.realm_insert.specs.State.{KeptTrace};

    ghost Value = { KeptTrace };

    ghost view = { λ k. record { number = k.number; steps = k.trace } };
}

/// The state, and what makes it fast. While it isn't spent its drawing is a realm. It is let go of by one call: what is in
/// it isn't gone through again wherever a function that owns one ends.
pub struct Engine {
    alloc: Global,
    drawing: Drawing,
    index: NearIndex,
    table: Table,
    next_id: u64,
    changes: u64,
    traces: Vec<LastTrace>,
    spent: bool,
}

impl Model for Engine {
    ghost use Rattle.realm_insert.specs.State.{SpendableState};
    ghost use Rattle.realm_insert.specs.Kept.{IsSettledUnlessSpent};

    ghost Value = { SpendableState };

    ghost view = { λ e. record {
      state = record {
        drawing = e.drawing.drawing;
        next_id = e.next_id;
        values = e.table;
        changes = e.changes;
        traces = e.traces.items;
      };
      spent = e.spent;
    } };

    ghost invariant = { λ e. IsSettledUnlessSpent e.spent e.drawing e.index e.table e.next_id e.changes e.traces.items };
}

impl LastTrace {
    // The same trace once more, under its number.
    fn copied(&self, alloc: Global) -> Result<LastTrace, NoMemory>
        ensures same { IfOk result (λ copy. copy ≡ self.now) }
    {
        Ok(LastTrace {
            number: self.number,
            trace: self.trace.copied(alloc)?,
        })
    }
}

impl Drop for Engine {
    fn drop(self) {
        let Engine {
            alloc: _,
            drawing: _drawing,
            index: _index,
            table: _table,
            next_id: _,
            changes: _,
            traces: _traces,
            spent: _,
        } = self;
    }
}

impl Engine {
    /// The engine of the empty state.
    pub fn new(alloc: Global) -> Engine
        ensures { result ≡ fresh_state }
    {
        Engine {
            alloc,
            drawing: Drawing::new(alloc),
            index: NearIndex::new(alloc),
            table: Table::new(alloc),
            next_id: 1,
            changes: 0,
            traces: Vec::new(alloc),
            spent: false,
        }
    }

    /// The engine of the state that the snapshot keeps, exactly where that is a valid state.
    pub fn from_snapshot(alloc: Global, s: Snapshot) -> Result<Engine, SnapshotError>
        ensures made { IfOk result (λ e. (e.spent ≡ false) × (e.state ≡ state_of s)) }
        ensures valid { IfOk result (λ _. IsValidState (state_of s)) }
        ensures invalid { result ≡ Err SnapshotError.Invalid → IsValidState (state_of s) → ⊥ }
    {
        let made = engine_of(alloc, &s)?;
        match made {
            Some(engine) => Ok(engine),
            None => Err(SnapshotError::Invalid),
        }
    }

    /// The whole state, which is valid.
    pub fn snapshot(&self) -> Result<Snapshot, NoMemory>
        requires ready { self.now.spent ≡ false }
        ensures kept { IfOk result (λ s. IsSnapshot s × (state_of s ≡ self.now.state)) }
        ensures valid { IfOk result (λ s. IsValidState (state_of s)) }
    {
        self.is_valid();
        let alloc = self.alloc;
        let drawing = self.drawing();
        let points = explicit_points(alloc, drawing)?;
        let originals = copied_originals(alloc, drawing, self.next_id())?;
        let values = copied_values(alloc, self.table())?;
        let traces = copied_traces(alloc, self.traces.as_slice())?;
        Ok(Snapshot {
            changes: self.changes(),
            next_id: self.next_id(),
            points: ListOf::new(points),
            originals: ListOf::new(originals),
            values: ListOf::new(values),
            traces: ListOf::new(traces),
        })
    }

    /// The same engine once more. What it keeps is copied as it is kept, so nothing is drawn or tested again. That takes the
    /// time to go through it once, and as much memory as it has.
    pub fn copied(&self) -> Result<Engine, NoMemory>
        ensures same { IfOk result (λ copy. copy ≡ self.now) }
    {
        let drawing = self.drawing.copied()?;
        let index = self.index.copied()?;
        let table = self.table.copied()?;
        let traces = traces_again(self.alloc, self.traces.as_slice())?;
        Ok(Engine {
            alloc: self.alloc,
            drawing,
            index,
            table,
            next_id: self.next_id,
            changes: self.changes,
            traces,
            spent: self.spent,
        })
    }

    /// The state is valid: a law of what the engine keeps. Nothing is done but to look here and there.
    pub fn is_valid(&self)
        requires ready { self.now.spent ≡ false }
        ensures valid { IsValidState self.now.state }
    {
        let drawing = &self.drawing;
        let (_, _) = (drawing.chain(0), drawing.is_explicit(&Point::at(0, 0)));
        let _ = self.table.len();
    }

    /// Whether a change ended for want of memory or by a step that didn't fit, so that the engine can't be used any more.
    pub fn is_spent(&self) -> bool
        ensures { result ≡ self.now.spent }
    {
        self.spent
    }

    /// What is drawn. It is a realm, and each id in it is at least 1 and below the next one.
    pub fn drawing(&self) -> &Drawing
        requires ready { self.now.spent ≡ false }
        ensures drawing { result.now.drawing ≡ self.now.state.drawing }
        ensures realm { IsDrawnRealm self.now.state.drawing }
        ensures ids { HasIdsBelow self.now.state.next_id self.now.state.drawing }
        ensures most_ids { self.now.state.next_id ≤ 2 ^ 32 }
    {
        &self.drawing
    }

    /// The values by name. Each is made of what is drawn.
    pub fn table(&self) -> &Table
        requires ready { self.now.spent ≡ false }
        ensures table { result.now ≡ self.now.state.values }
        ensures values_fit { AreValuesOf self.now.state.drawing self.now.state.values }
    {
        &self.table
    }

    /// What the value with this name is made of at present; none where no value has the name. Only the chains of its parts
    /// are looked at. A region has swept across no grid point.
    pub fn geometry(&self, name: &str) -> Result<Option<Geometry>, NoMemory>
        requires ready { self.now.spent ≡ false }
        ensures geometry { IfOk result (λ found. IsGeometryNamed self.now.state name.now found) }
        ensures unswept { IfOk result (λ found. IfSome found (λ g.
            IfSome (value_named name.now self.now.state.values) (λ v. IsUnsweptValue self.now.state.drawing v g))) }
    {
        let drawing = self.drawing();
        match self.table().get(name) {
            Some(value) => {
                let geometry = geometry_of(self.alloc, drawing, value)?;
                no_region_sweeps(drawing, value, &geometry);
                Ok(Some(geometry))
            }
            None => Ok(None),
        }
    }

    /// How many changes were accepted.
    pub fn changes(&self) -> u64
        requires ready { self.now.spent ≡ false }
        ensures changes { result ≡ self.now.state.changes }
        ensures most { result ≤ 2 ^ 63 }
    {
        self.changes
    }

    /// The id that the next original gets, from 1; 2^32 where no id is left.
    pub fn next_id(&self) -> u64
        requires ready { self.now.spent ≡ false }
        ensures next_id { result ≡ self.now.state.next_id }
        ensures least { 1 ≤ result }
        ensures most { result ≤ 2 ^ 32 }
    {
        self.next_id
    }

    /// The steps of the change with this number; none where it isn't among the last 16. The kept traces are those of the
    /// last changes, in order.
    pub fn trace(&self, number: u64) -> Option<&[Step]>
        requires ready { self.now.spent ≡ false }
        ensures trace { IfSome result (λ steps. Contains self.now.state.traces (kept_trace number steps.now)) }
        ensures fits { IfSome result (λ steps. IsTrace steps.now) }
        ensures latest { AreLatest self.now.state.changes self.now.state.traces }
        ensures none { IsNone result
            ↔ ((steps : List Seen) → Contains self.now.state.traces (kept_trace number steps) → ⊥) }
    {
        for kept in &self.traces {
            if kept.number == number {
                return Some(kept.trace.steps());
            }
        }
        None
    }

    /// Why the change would be refused; none where it would be accepted.
    pub fn refusal<R: Threads + Sync>(
        &self,
        rt: &R,
        c: &Change,
    ) -> Result<Option<Refusal>, NoMemory>
        requires ready { self.now.spent ≡ false }
        requires spellable { IsSpellableChange c.now }
        ensures { IfOk result (λ found.
            MatchOption found (IsAccepted c.now self.now.state) (IsRefusedBy c.now self.now.state)) }
    {
        match figure_drawn(rt, self.alloc, self, c) {
            Ok(_) => Ok(None),
            Err(ChangeError::Refused(refusal)) => Ok(Some(refusal)),
            Err(ChangeError::NoMemory) => Err(NoMemory),
        }
    }

    /// Makes the change: what it places or takes away, then the steps that settle the drawing, and what it makes of the
    /// values.
    pub fn change<R: Threads + Sync>(&mut self, rt: &R, c: &Change) -> Result<Applied, ChangeError>
        requires ready { self.old.spent ≡ false }
        requires spellable { IsSpellableChange c.now }
        ensures next { IfOk result (λ applied. Next self.old.state c.now applied.trace self.new.state) }
        ensures numbers { IfOk result (λ applied. (applied.first ≡ self.old.state.next_id)
            × (self.old.state.next_id + applied.added ≡ self.new.state.next_id)) }
        ensures points { IfOk result (λ applied.
            applied.points.items ≡ points_besides self.new.state.drawing.points self.old.state.drawing.points) }
        ensures untouched { IfOk result (λ applied. MakesNoViolation self.old.state c.now
            → (applied.trace ≡ []) × ChangesTo c.now self.old.state self.new.state.drawing) }
        ensures let_is_there { IfOk result (λ applied. IsLet c.now
            → (applied.trace ≡ []) × KeepsAll self.old.state.drawing self.new.state.drawing) }
        ensures refused { (word : Word) → result ≡ Err (ChangeError.Refused word)
            → IsRefusedBy c.now self.old.state word × (self.new ≡ self.old) }
        ensures spent { (self.new.spent ≡ true) ↔ (result ≡ Err ChangeError.NoMemory) }
    {
        // What is drawn before it is a realm, which has the parts of all values.
        let (_, _) = (self.drawing(), self.table());
        match figure_drawn(rt, self.alloc, self, c) {
            Ok(figure) => match self.make(c, figure, None) {
                Ok(applied) => Ok(applied),
                Err(SettleError::NoMemory) => Err(ChangeError::NoMemory),
                Err(SettleError::Mismatch { .. }) => unreachable!(),
            },
            Err(ChangeError::Refused(refusal)) => Err(ChangeError::Refused(refusal)),
            Err(ChangeError::NoMemory) => {
                self.spent = true;
                Err(ChangeError::NoMemory)
            }
        }
    }

    /// Makes the change with these steps in the place of those that `change` looks for. The engine is spent after each
    /// error but a refusal.
    pub fn replay<R: Threads + Sync>(
        &mut self,
        rt: &R,
        c: &Change,
        trace: &[Step],
    ) -> Result<Applied, ReplayError>
        requires ready { self.old.spent ≡ false }
        requires spellable { IsSpellableChange c.now }
        ensures next { IfOk result (λ applied. Next self.old.state c.now trace.now self.new.state
            × (applied.trace ≡ trace.now)) }
        ensures numbers { IfOk result (λ applied. (applied.first ≡ self.old.state.next_id)
            × (self.old.state.next_id + applied.added ≡ self.new.state.next_id)) }
        ensures points { IfOk result (λ applied.
            applied.points.items ≡ points_besides self.new.state.drawing.points self.old.state.drawing.points) }
        ensures refused { (word : Word) → result ≡ Err (ReplayError.Refused word)
            → IsRefusedBy c.now self.old.state word × (self.new ≡ self.old) }
        ensures mismatch { (number : ℕ) → result ≡ Err (ReplayError.Mismatch number)
            → IsAccepted c.now self.old.state × MisfitsAt c.now self.old.state trace.now number }
        ensures spent { (self.new.spent ≡ true) ↔ ((result ≡ Err ReplayError.NoMemory)
            ⊎ ((number : ℕ) × (result ≡ Err (ReplayError.Mismatch number)))) }
    {
        match figure_drawn(rt, self.alloc, self, c) {
            Ok(figure) => match self.make(c, figure, Some(trace)) {
                Ok(applied) => Ok(applied),
                Err(SettleError::NoMemory) => Err(ReplayError::NoMemory),
                Err(SettleError::Mismatch { step }) => Err(ReplayError::Mismatch { step }),
            },
            Err(ChangeError::Refused(refusal)) => Err(ReplayError::Refused(refusal)),
            Err(ChangeError::NoMemory) => {
                self.spent = true;
                Err(ReplayError::NoMemory)
            }
        }
    }

    // Makes a change that isn't refused and draws the figure, by the given steps if there are any.
    fn make(
        &mut self,
        c: &Change,
        figure: Figure,
        given: Option<&[Step]>,
    ) -> Result<Applied, SettleError>
        requires ready { self.old.spent ≡ false }
        requires spellable { IsSpellableChange c.now }
        requires accepted { IsAccepted c.now self.old.state }
        requires draws { Draws c.now self.old.state figure }
        ensures next { IfOk result (λ applied. Next self.old.state c.now applied.trace self.new.state) }
        ensures numbers { IfOk result (λ applied. (applied.first ≡ self.old.state.next_id)
            × (self.old.state.next_id + applied.added ≡ self.new.state.next_id)) }
        ensures points { IfOk result (λ applied.
            applied.points.items ≡ points_besides self.new.state.drawing.points self.old.state.drawing.points) }
        ensures given { IfOk result (λ applied. IfSome given.entry (λ steps. applied.trace ≡ steps.now)) }
        ensures mismatch { (number : ℕ) → result ≡ Err (Mismatch number)
            → IsSomeAnd given.entry (λ steps. MisfitsAt c.now self.old.state steps.now number) }
        ensures spent { MatchResult result (λ _. self.new.spent ≡ false) (λ _. self.new.spent ≡ true) }
    {
        self.spent = true;
        let first = self.next_id;
        let added = figure.segments().len() as u64;
        let points = points_to_mark(self.alloc, &self.drawing, figure.points())?;
        let trace = redraw(
            self.alloc,
            &mut self.drawing,
            &mut self.index,
            first,
            c,
            &figure,
            given,
        )?;
        revalue(self.alloc, &mut self.table, first, c, figure)?;
        count(self.alloc, &mut self.traces, &mut self.changes, &trace)?;
        self.next_id = first + added;
        self.spent = false;
        Ok(Applied {
            first,
            added,
            points,
            trace,
        })
    }
}

// Counts the change, and keeps its trace as the last of at most 16.
fn count(
    alloc: Global,
    traces: &mut Vec<LastTrace>,
    changes: &mut u64,
    trace: &Trace,
) -> Result<(), NoMemory>
    requires change_left { changes.old < 2 ^ 63 }
    requires latest { AreLatest changes.old traces.old.items }
    ensures changes { OnOk result (changes.new ≡ changes.old + 1) }
    ensures latest { OnOk result (AreLatest changes.new traces.new.items) }
    ensures traces { OnOk result
        (traces.new.items ≡ latest (traces.old.items ++ kept_trace (changes.old + 1) trace.now ∷ [])) }
    ensures fits { IsTrace trace.now }
{
    // That each step has a text is known where they are read.
    let _steps = trace.steps();
    let number = *changes + 1;
    let trace = trace.copied(alloc)?;
    if traces.len() == MOST_TRACES {
        traces.remove(0);
    }
    traces.push(LastTrace { number, trace })?;
    *changes = number;
    Ok(())
}

// The engine of the state that the snapshot keeps; none where that isn't valid.
fn engine_of(alloc: Global, s: &Snapshot) -> Result<Option<Engine>, NoMemory>
    ensures { IfOk result (λ found. MatchOption found (IsValidState (state_of s.now) → ⊥)
        (λ e. (e.spent ≡ false) × (e.state ≡ state_of s.now) × IsValidState (state_of s.now))) }
{
    if !numbers_in(s) {
        return Ok(None);
    }
    let listed = traces_for(alloc, s)?;
    let Some(traces) = listed else {
        return Ok(None);
    };
    let made = restored(alloc, s)?;
    let Some(parts) = made else {
        return Ok(None);
    };
    let engine = Engine {
        alloc,
        drawing: parts.drawing,
        index: parts.index,
        table: parts.table,
        next_id: s.next_id,
        changes: s.changes,
        traces,
        spent: false,
    };
    Ok(Some(engine))
}

fn traces_for(alloc: Global, s: &Snapshot) -> Result<Option<Vec<LastTrace>>, NoMemory>
    ensures { IfOk result (λ found. MatchOption found (AreLatest s.now.changes (traces_in s.now.traces) → ⊥)
        (λ traces. (traces.items ≡ traces_in s.now.traces) × AreLatest s.now.changes traces.items
        × All (λ kept. IsTrace kept.steps) traces.items)) }
{
    traces_of(alloc, s.changes, s.traces.items())
}

// The traces that a snapshot keeps; none where they aren't those of the last of so many changes, in order.
fn traces_of(alloc: Global, changes: u64, list: &[Kept]) -> Result<Option<Vec<LastTrace>>, NoMemory>
    ensures { IfOk result (λ found. MatchOption found (AreLatest changes (traces_in list.now) → ⊥)
        (λ traces. (traces.items ≡ traces_in list.now) × AreLatest changes traces.items
        × All (λ kept. IsTrace kept.steps) traces.items)) }
{
    let count = list.len() as u64;
    if !is_count(changes, count) {
        return Ok(None);
    }
    let passed = changes - count;
    let mut traces = Vec::new(alloc);
    for i in 0..list.len() {
        let kept = &list[i];
        if !is_numbered(kept, passed + i as u64 + 1) {
            return Ok(None);
        }
        push_trace(alloc, &mut traces, kept)?;
    }
    Ok(Some(traces))
}

fn is_numbered(kept: &Kept, number: u64) -> bool
    ensures { IsTrue result ↔ (kept.now.number ≡ number) }
{
    kept.number == number
}

// Whether the traces of so many changes are kept: of the last 16, or of all.
fn is_count(changes: u64, count: u64) -> bool
    ensures { IsTrue result ↔ (count ≡ min changes 16) }
{
    (count == changes && changes <= 16) || (count == 16 && changes > 16)
}

// Adds the trace at the end.
fn push_trace(alloc: Global, traces: &mut Vec<LastTrace>, kept: &Kept) -> Result<(), NoMemory>
    ensures added { OnOk result (traces.new.items ≡ traces.old.items ++ kept_trace kept.now.number kept.now.steps ∷ []) }
    ensures fits { OnOk result (IsTrace kept.now.steps) }
{
    // That each step has a text is known where they are read.
    let _steps = kept.steps.steps();
    let trace = kept.steps.copied(alloc)?;
    traces.push(LastTrace {
        number: kept.number,
        trace,
    })?;
    Ok(())
}

// The same traces once more, in their order.
fn traces_again(alloc: Global, list: &[LastTrace]) -> Result<Vec<LastTrace>, NoMemory>
    ensures same { IfOk result (λ v. v.items ≡ list.now) }
{
    let mut copies = Vec::with_capacity(alloc, list.len())?;
    for kept in list {
        let copy = kept.copied(alloc)?;
        copies.push(copy)?;
    }
    Ok(copies)
}

// The traces, as a snapshot keeps them.
fn copied_traces(alloc: Global, list: &[LastTrace]) -> Result<Vec<Kept>, NoMemory>
    ensures same { IfOk result (λ v. traces_in v.items ≡ list.now) }
    ensures fits { IfOk result (λ v. IsList HasKeptText v.items) }
{
    let mut copies = Vec::new(alloc);
    for kept in list {
        copy_trace(alloc, kept, &mut copies)?;
    }
    Ok(copies)
}

// Adds the trace at the end.
fn copy_trace(alloc: Global, kept: &LastTrace, copies: &mut Vec<Kept>) -> Result<(), NoMemory>
    ensures added { OnOk result (copies.new.items ≡ copies.old.items ++ kept_steps kept.now ∷ []) }
    ensures number { OnOk result (kept.now.number < 2 ^ 64) }
    ensures fits { IsTrace kept.now.steps }
{
    // That each step has a text is known where they are read.
    let _steps = kept.trace.steps();
    let steps = kept.trace.copied(alloc)?;
    let number = number_of(kept);
    copies.push(Kept { number, steps })?;
    Ok(())
}

fn number_of(kept: &LastTrace) -> u64
    ensures { result ≡ kept.now.number }
{
    kept.number
}
