//! A group of changes that is open: the engine of the state at its begin, the entries of its changes, and the gate behind
//! which they will be written as one record.
ghost use Rattle.std.specs.Prelude.{◌≡◌, ◌+◌, ◌<◌, ◌≤◌, ◌^◌, ◌↔◌, [], false, length, Some, IfOk, OnOk, IfSome, MatchOption};
ghost use Rattle.record_codec.specs.Fitting.{IsRecord};
ghost use Rattle.realm_insert.specs.State.{State};
ghost use Rattle.realm_store.specs.Leading.{LeadOnBy};
ghost use Rattle.realm_store.specs.Keeping.{Kept, kept_at};
ghost use Rattle.realm_store.specs.Making.{HasRoom, LacksRoom};
ghost use Rattle.realm_store.specs.NextGates.{IsGateFor};
ghost use Rattle.realm_store.specs.Groups.{with_entry};

use crate::gates::{NextGate, gate_for, lack_of};
use grid_base::NoMemory;
use realm_files::Place;
use realm_insert::{Engine, Refusal};
use realm_journal::{Prepared, prepare};
use record_codec::{Entries, Entry, Record};
use std::alloc::Global;

/// An open group.
#[derive(Drop)]
pub(crate) struct OpenGroup {
    /// The engine of the state at the begin.
    pub(crate) begun: Engine,
    pub(crate) entries: Entries,
    /// Made ready at the begin.
    pub(crate) gate: NextGate,
}

/// A group with no change yet, begun at the state of this engine.
pub(crate) fn begin_group(
    alloc: Global,
    engine: &Engine,
    place: Option<Place>,
    has_gate: bool,
) -> Result<OpenGroup, NoMemory>
    requires ready { engine.now.spent ≡ false }
    ensures begun { IfOk result (λ held. (held.begun.state ≡ engine.now.state) × (held.begun.spent ≡ false)) }
    ensures entries { IfOk result (λ held. held.entries ≡ []) }
    ensures gate { IfOk result (λ held. IsGateFor held.gate (kept_at engine.now.state place has_gate)) }
{
    let begun = engine.copied()?;
    let gate = gate_for(alloc, engine, place, has_gate)?;
    Ok(OpenGroup {
        begun,
        entries: Entries::new(alloc),
        gate,
    })
}

/// Why no change may join the group, where one is open and no record may be written behind its gate.
pub(crate) fn lack_in(group: &Option<OpenGroup>) -> Option<Refusal>
    ensures { IfSome group.now (λ held. (kept : Kept) → IsGateFor held.gate kept
        → MatchOption result (HasRoom kept) (LacksRoom kept)) }
{
    match group {
        Some(held) => lack_of(&held.gate),
        None => None,
    }
}

/// Adds the entry to the group, where one is open.
pub(crate) fn join_group(group: &mut Option<OpenGroup>, entry: Entry) -> Result<(), NoMemory>
    requires short { length entry.line ≤ 2 ^ 20 }
    ensures joined { OnOk result (IfSome group.old (λ held. group.new ≡ Some (with_entry held entry))) }
{
    match group {
        Some(held) => held.entries.push(entry),
        None => Ok(()),
    }
}

/// How many changes the group has, 0 where none is open.
pub(crate) fn changes_of(group: &Option<OpenGroup>) -> u64
    ensures { MatchOption group.now (result ≡ 0) (λ held. result ≡ length held.entries) }
{
    match group {
        Some(held) => held.entries.entries().len() as u64,
        None => 0,
    }
}

/// The record of a group, ready to be appended. This takes all the memory of its writing.
pub(crate) fn prepare_group(
    alloc: Global,
    begun: &Engine,
    entries: Entries,
) -> Result<Prepared, NoMemory>
    requires ready { begun.now.spent ≡ false }
    requires some { 0 < length entries }
    requires leads { (state : State) × LeadOnBy begun.now.state entries state }
    ensures is_of { IfOk result (λ prepared. prepared
        ≡ record { number = begun.now.state.changes + 1; entries = entries }) }
    ensures is_record { IfOk result (λ prepared. IsRecord prepared) }
{
    prepare(alloc, &Record::new(begun.changes() + 1, entries))
}
