//! The word `certify`: gives the certificate of what the newest file keeps, and takes nothing. Behind the start the state that the
//! journal begins with is held and goes on from change to change, with the bytes of the records and one record at a time; of the
//! text no more than the items of one change and one line.
ghost use Rattle.std.specs.Prelude.{◌≡◌, ◌≢◌, ◌⊎◌, ◌++◌, ◌∷◌, [], false, List, OnOk};
ghost use Rattle.outside_world.specs.Counts.{Rose};
ghost use Rattle.outside_world.specs.GoesOn.{GoesOn};
ghost use Rattle.realm_audit.specs.declared.item.Item.{Item as Seen};
ghost use Rattle.realm_audit.specs.declared.item.Item.TheVariants as items;
ghost use Rattle.realm_insert.specs.State.{State};
ghost use Rattle.realm_insert.specs.Snapshots.{IsValidState, state_of};
ghost use Rattle.realm_pages.specs.declared.damage.Damage.{Damage};
ghost use Rattle.realm_files.specs.Rows.{LeadOn};
ghost use Rattle.realm_store.specs.Stands.{StandsFor, meaning};
ghost use Rattle.realm_store.specs.Leading.{LeadOnBy};
ghost use Rattle.realm_store.specs.Damages.{IsDamaged};
ghost use Rattle.certificate_law.specs.Certificates.{AreChangeItems, IsCertificate, entries_of, opening_items};
ghost use Rattle.rose_shell.specs.Faults.{TellsFault};
ghost use Rattle.rose_shell.specs.Certifying.{GivesItems, HasCertified};
ghost use Rattle.rose_shell.specs.Items.{GaveChanges, GaveItems};

use crate::fault::Fault;
use crate::items::{give_item, give_items, give_originals, give_points};
use crate::status::Status;
use outside_world::Outside;
use realm_audit::Item;
use realm_insert::Engine;
use realm_journal::Records;
use realm_store::{Journal, Started, Store};
use record_codec::{Entry, Snapshot};
use std::alloc::Global;
use std::thread::Threads;
use store_certificate::{certify_entry, engine_at};

/// Reads what the files stand for, and gives the certificate of their journal.
pub(crate) fn certify<R: Threads + Sync, W: Outside>(rt: &R, alloc: Global, world: &mut W) -> Status
    requires intact { W.failed world.old ≡ false }
    ensures never_usage { result ≢ Status.Usage }
    ensures never_source_fault { result ≢ Status.SourceFault }
    ensures intact { ¬ (TellsFault result) → W.failed world.new ≡ false }
    ensures sink_fault { result ≡ Status.SinkFault
        → Rose (W.sink_faults world.old) (W.sink_faults world.new) }
    ensures disk_fault { result ≡ Status.DiskFault
        → Rose (W.disk_faults world.old) (W.disk_faults world.new) }
    ensures damaged { (d : Damage) → result ≡ Status.Damaged d → W.tells world.new
        → IsDamaged d (W.view world.old).reads }
    ensures told { W.tells world.new
        → HasCertified (W.view world.old) (W.view world.new) result }
    ensures complete { W.tells world.new
        → ¬ (Rose (W.sink_faults world.old) (W.sink_faults world.new))
        → ¬ (Rose (W.disk_faults world.old) (W.disk_faults world.new))
        → (state : State) → StandsFor (W.view world.old).reads state
        → (result ≡ Status.Done) ⊎ (result ≡ Status.NoMemory) }
    ensures goes_on { GoesOn ⟦<W as Outside>⟧ world.old world.new }
{
    match Store::start_with_journal(rt, alloc, world) {
        Ok(started) => give_journal(rt, alloc, world, started),
        Err(error) => Status::from(error),
    }
}

// Gives the certificate of the journal of what was started, and tells how that ended.
fn give_journal<R: Threads + Sync, W: Outside>(
    rt: &R,
    alloc: Global,
    world: &mut W,
    started: Started,
) -> Status
    requires intact { W.failed world.old ≡ false }
    requires valid { IsValidState (state_of started.journal.base) }
    requires leads { LeadOn meaning (state_of started.journal.base) started.journal.records
        started.store.kept.state }
    ensures ends { (result ≡ Status.Done) ⊎ ((result ≡ Status.SinkFault) ⊎ (result ≡ Status.NoMemory)) }
    ensures intact { ¬ (TellsFault result) → W.failed world.new ≡ false }
    ensures sink_fault { result ≡ Status.SinkFault
        → Rose (W.sink_faults world.old) (W.sink_faults world.new) }
    ensures told { W.tells world.new → (list : List Seen)
        × IsCertificate started.journal.base started.journal.records started.store.kept.state list
        × GivesItems (W.view world.old) (W.view world.new) list result }
    ensures goes_on { GoesOn ⟦<W as Outside>⟧ world.old world.new }
{
    match give_certificate(rt, alloc, world, started) {
        Ok(()) => Status::Done,
        Err(fault) => Status::from(fault),
    }
}

// Gives the certificate of this journal. The store is let go of before.
fn give_certificate<R: Threads + Sync, W: Outside>(
    rt: &R,
    alloc: Global,
    world: &mut W,
    started: Started,
) -> Result<(), Fault>
    requires intact { W.failed world.old ≡ false }
    requires valid { IsValidState (state_of started.journal.base) }
    requires leads { LeadOn meaning (state_of started.journal.base) started.journal.records
        started.store.kept.state }
    ensures { (list : List Seen)
        × IsCertificate started.journal.base started.journal.records started.store.kept.state list
        × GaveItems ⟦<W as Outside>⟧ world.old world.new list result }
{
    let Started { store, journal } = started;
    drop(store);
    let Journal { base, records } = journal;
    give_opening(alloc, world, &base)?;
    let engine = engine_at(alloc, base)?;
    give_behind(rt, alloc, world, engine, records)
}

// Gives the lines of the state at the beginning.
fn give_opening<W: Outside>(alloc: Global, world: &mut W, base: &Snapshot) -> Result<(), Fault>
    requires intact { W.failed world.old ≡ false }
    requires valid { IsValidState (state_of base.now) }
    ensures { GaveItems ⟦<W as Outside>⟧ world.old world.new (opening_items base.now) result }
{
    give_points(alloc, world, base.points.items())?;
    give_originals(alloc, world, base.originals.items())
}

// Gives the lines of the changes of these records, and the last line.
fn give_behind<R: Threads + Sync, W: Outside>(
    rt: &R,
    alloc: Global,
    world: &mut W,
    engine: Engine,
    records: Records,
) -> Result<(), Fault>
    requires intact { W.failed world.old ≡ false }
    requires ready { engine.spent ≡ false }
    requires leads { (end : State) × LeadOnBy engine.state (entries_of records) end }
    ensures { (end : State) → LeadOnBy engine.state (entries_of records) end
        → (changes : List Seen) × AreChangeItems engine.state (entries_of records) end changes
        × GaveItems ⟦<W as Outside>⟧ world.old world.new (changes ++ items.End ∷ []) result }
{
    let mut engine = engine;
    let mut records = records;
    give_changes(rt, alloc, world, &mut engine, &mut records)?;
    give_item(alloc, world, &Item::End)
}

// Gives the lines of the changes of these records, which are read and made again one after another.
fn give_changes<R: Threads + Sync, W: Outside>(
    rt: &R,
    alloc: Global,
    world: &mut W,
    engine: &mut Engine,
    records: &mut Records,
) -> Result<(), Fault>
    requires intact { W.failed world.old ≡ false }
    requires ready { engine.old.spent ≡ false }
    requires leads { (end : State) × LeadOnBy engine.old.state (entries_of records.old) end }
    ensures { (end : State) → LeadOnBy engine.old.state (entries_of records.old) end
        → GaveChanges ⟦<W as Outside>⟧ world.old world.new engine.old.state (entries_of records.old) end result }
{
    while let Some(record) = records.next_record(alloc)? {
        give_entries(rt, alloc, world, engine, record.entries.entries())?;
    }
    Ok(())
}

// Gives the lines of the changes of these entries.
fn give_entries<R: Threads + Sync, W: Outside>(
    rt: &R,
    alloc: Global,
    world: &mut W,
    engine: &mut Engine,
    entries: &[Entry],
) -> Result<(), Fault>
    requires intact { W.failed world.old ≡ false }
    requires ready { engine.old.spent ≡ false }
    requires leads { (end : State) × LeadOnBy engine.old.state entries.now end }
    ensures ready { OnOk result (engine.new.spent ≡ false) }
    ensures led { (end : State) → LeadOnBy engine.old.state entries.now end
        → OnOk result (engine.new.state ≡ end) }
    ensures gave { (end : State) → LeadOnBy engine.old.state entries.now end
        → GaveChanges ⟦<W as Outside>⟧ world.old world.new engine.old.state entries.now end result }
{
    for entry in entries {
        let items = certify_entry(rt, alloc, engine, entry)?;
        give_items(alloc, world, &items)?;
    }
    Ok(())
}
