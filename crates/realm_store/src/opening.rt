//! Opens the newest of two files when a store is started: first its payload, which tells a state, and then its records,
//! whose changes are made again from there.
ghost use Rattle.std.specs.Prelude.{◌≡◌, ◌≤◌, ◌<◌, ◌^◌, ℕ, List, All, false, length, drop, None, Err, IfOk, IsErrOf};
ghost use Rattle.outside_world.specs.Counts.{Rose};
ghost use Rattle.outside_world.specs.GoesOn.{GoesOn};
ghost use Rattle.record_codec.specs.Fitting.{IsRecord};
ghost use Rattle.realm_insert.specs.Snapshots.{state_of, IsValidState};
ghost use Rattle.realm_pages.specs.Finding.{IsFound};
ghost use Rattle.realm_pages.specs.declared.damage.Damage.{Damage as Seen};
ghost use Rattle.realm_pages.specs.declared.damage.Damage.TheVariants.{BadSnapshot};
ghost use Rattle.realm_pages.specs.declared.error.PagesError.TheVariants.{Damaged};
ghost use Rattle.realm_files.specs.Stands.{Files};
ghost use Rattle.realm_store.specs.Damages.{IsDamaged};
ghost use Rattle.realm_store.specs.Replaying.{LeadOn};
ghost use Rattle.realm_store.specs.Opening.{IsBaseOn, IsBase, BaseFound, BaseOpened, OpensRow, RecordsOpened};

use crate::remaking::{RowEnd, remake_row};
use crate::store::Store;
use outside_world::{FileName, Outside};
use realm_files::{Place, sync_both};
use realm_insert::{Engine, SnapshotError};
use realm_journal::{Records, ScanError, read_from};
use realm_pages::{Damage, Found, PagesError as StartError, newest};
use record_codec::Snapshot;
use std::alloc::Global;
use std::thread::Threads;

/// The engine of the state that the payload of the newest file keeps, and the place of the gate behind that; where no file
/// counts, the engine of the empty state.
#[derive(Drop)]
pub(crate) struct Base {
    pub(crate) engine: Engine,
    pub(crate) place: Option<Place>,
}

/// A store that was opened, and the records of its file, which can be read once more.
#[derive(Drop)]
pub(crate) struct Opened {
    pub(crate) store: Store,
    pub(crate) records: Records,
}

/// Syncs both files, and opens the payload of the newest.
pub(crate) fn open_base<W: Outside>(alloc: Global, world: &mut W) -> Result<Base, StartError>
    requires intact { W.failed world.old ≡ false }
    ensures ready { IfOk result (λ base. base.engine.spent ≡ false) }
    ensures told { W.tells world.new → BaseOpened (W.view world.old) (W.view world.new) result }
    ensures intact { ¬ (IsErrOf result StartError.Disk) → W.failed world.new ≡ false }
    ensures disk_fault { IsErrOf result StartError.Disk
        → Rose (W.disk_faults world.old) (W.disk_faults world.new) }
    ensures goes_on { GoesOn ⟦<W as Outside>⟧ world.old world.new }
{
    sync_both(world)?;
    find_base(alloc, world)
}

// Opens the payload of the newest file.
fn find_base<W: Outside>(alloc: Global, world: &mut W) -> Result<Base, StartError>
    requires intact { W.failed world.old ≡ false }
    ensures ready { IfOk result (λ base. base.engine.spent ≡ false) }
    ensures told { W.tells world.new → BaseFound (W.view world.old) (W.view world.new) result }
    ensures intact { ¬ (IsErrOf result StartError.Disk) → W.failed world.new ≡ false }
    ensures disk_fault { IsErrOf result StartError.Disk
        → Rose (W.disk_faults world.old) (W.disk_faults world.new) }
    ensures goes_on { GoesOn ⟦<W as Outside>⟧ world.old world.new }
{
    match newest(alloc, world)? {
        None => Ok(Base {
            engine: Engine::new(alloc),
            place: None,
        }),
        Some(found) => open_found(alloc, found),
    }
}

// Opens the payload of a newest file that was found.
fn open_found(alloc: Global, found: Found) -> Result<Base, StartError>
    ensures ready { IfOk result (λ base. base.engine.spent ≡ false) }
    ensures base { (files : Files) → IsFound files found
        → IfOk result (λ base. IsBase files base.engine.state base.place) }
    ensures damaged { (files : Files) (d : Seen) → IsFound files found
        → result ≡ Err (Damaged d) → IsDamaged d files }
    ensures no_fault { IsErrOf result StartError.Disk → ⊥ }
{
    let Found {
        file,
        version,
        generation,
        snapshot,
        end: next,
    } = found;
    let engine = open_snapshot(alloc, file, snapshot)?;
    let place = Place {
        file,
        version,
        generation,
        next,
    };
    Ok(Base {
        engine,
        place: Some(place),
    })
}

// The engine of the state that the snapshot of a file keeps.
fn open_snapshot(alloc: Global, file: FileName, snapshot: Snapshot) -> Result<Engine, StartError>
    ensures ready { IfOk result (λ engine. engine.spent ≡ false) }
    ensures state { IfOk result (λ engine. engine.state ≡ state_of snapshot) }
    ensures valid { IfOk result (λ _. IsValidState (state_of snapshot)) }
    ensures damaged { (d : Seen) → result ≡ Err (Damaged d)
        → (d ≡ BadSnapshot file) × (IsValidState (state_of snapshot) → ⊥) }
    ensures no_fault { IsErrOf result StartError.Disk → ⊥ }
{
    match Engine::from_snapshot(alloc, snapshot) {
        Ok(engine) => Ok(engine),
        Err(SnapshotError::Invalid) => Err(StartError::Damaged(Damage::BadSnapshot { file })),
        Err(SnapshotError::NoMemory) => Err(StartError::NoMemory),
    }
}

/// Makes the records behind a base again.
pub(crate) fn open_behind<R: Threads + Sync, W: Outside>(
    rt: &R,
    alloc: Global,
    world: &mut W,
    base: Base,
) -> Result<Opened, StartError>
    requires intact { W.failed world.old ≡ false }
    requires ready { base.engine.spent ≡ false }
    ensures ready { IfOk result (λ opened. opened.store.spent ≡ false) }
    ensures no_group { IfOk result (λ opened. opened.store.group ≡ None) }
    ensures with_text { IfOk result (λ opened. All IsRecord opened.records) }
    ensures leads { IfOk result (λ opened. LeadOn base.engine.state opened.records opened.store.kept.state) }
    ensures told { W.tells world.new → IsBase (W.view world.old).reads base.engine.state base.place
        → RecordsOpened (W.view world.old) (W.view world.new) base.engine.state result }
    ensures intact { ¬ (IsErrOf result StartError.Disk) → W.failed world.new ≡ false }
    ensures disk_fault { IsErrOf result StartError.Disk
        → Rose (W.disk_faults world.old) (W.disk_faults world.new) }
    ensures goes_on { GoesOn ⟦<W as Outside>⟧ world.old world.new }
{
    let Base { engine, place } = base;
    match place {
        None => Ok(Opened {
            store: Store::of(alloc, engine, None, true),
            records: Records::new(Vec::new(alloc)),
        }),
        Some(place) => open_records(rt, alloc, world, place, engine),
    }
}

// Makes the records behind the gate of this place again.
fn open_records<R: Threads + Sync, W: Outside>(
    rt: &R,
    alloc: Global,
    world: &mut W,
    place: Place,
    engine: Engine,
) -> Result<Opened, StartError>
    requires intact { W.failed world.old ≡ false }
    requires ready { engine.spent ≡ false }
    ensures ready { IfOk result (λ opened. opened.store.spent ≡ false) }
    ensures no_group { IfOk result (λ opened. opened.store.group ≡ None) }
    ensures with_text { IfOk result (λ opened. All IsRecord opened.records) }
    ensures leads { IfOk result (λ opened. LeadOn engine.state opened.records opened.store.kept.state) }
    ensures told { W.tells world.new → IsBaseOn (W.view world.old).reads engine.state place
        → RecordsOpened (W.view world.old) (W.view world.new) engine.state result }
    ensures intact { ¬ (IsErrOf result StartError.Disk) → W.failed world.new ≡ false }
    ensures disk_fault { IsErrOf result StartError.Disk
        → Rose (W.disk_faults world.old) (W.disk_faults world.new) }
    ensures goes_on { GoesOn ⟦<W as Outside>⟧ world.old world.new }
{
    match read_from(alloc, world, place.file, place.next) {
        Ok(bytes) => open_bytes(rt, alloc, bytes, place, engine),
        Err(ScanError::Disk) => Err(StartError::Disk),
        Err(ScanError::NoMemory) => Err(StartError::NoMemory),
    }
}

// Makes the records of these bytes again, which the file of this place has from there on.
fn open_bytes<R: Threads + Sync>(
    rt: &R,
    alloc: Global,
    bytes: Vec<u8>,
    place: Place,
    engine: Engine,
) -> Result<Opened, StartError>
    requires ready { engine.spent ≡ false }
    ensures ready { IfOk result (λ opened. opened.store.spent ≡ false) }
    ensures no_group { IfOk result (λ opened. opened.store.group ≡ None) }
    ensures with_text { IfOk result (λ opened. All IsRecord opened.records) }
    ensures leads { IfOk result (λ opened. LeadOn engine.state opened.records opened.store.kept.state) }
    ensures row { (file : List ℕ) → length file < 2 ^ 64 → bytes.items ≡ drop place.next file
        → place.next ≤ length file → OpensRow file engine.state place result }
    ensures no_fault { IsErrOf result StartError.Disk → ⊥ }
{
    let mut engine = engine;
    match remake_row(rt, alloc, &mut engine, &bytes)? {
        RowEnd::Closed { end } => {
            let has_gate = end < bytes.len();
            let next = Place {
                next: place.next.saturating_add(end as u64),
                ..place
            };
            Ok(Opened {
                store: Store::of(alloc, engine, Some(next), has_gate),
                records: Records::new(bytes),
            })
        }
        RowEnd::Bad { count } => Err(StartError::Damaged(Damage::BadRecord {
            file: place.file,
            number: count as u64 + 1,
        })),
    }
}
