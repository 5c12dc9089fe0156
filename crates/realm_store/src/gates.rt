//! The gate behind which the next record is to be written. Where no file counts, or the newest is of the first version of the
//! format, it comes behind a generation of its own, which keeps the state before the record.
ghost use Rattle.std.specs.Prelude.{◌≡◌, ◌↔◌, Bool, true, false, Some, IfOk, IsTrue, MatchOption};
ghost use Rattle.realm_files.specs.Writing.{wants_generation, place_for};
ghost use Rattle.realm_store.specs.Stands.{meaning};
ghost use Rattle.realm_store.specs.Keeping.{Kept, kept_at};
ghost use Rattle.realm_store.specs.Making.{next_gate, HasRoom, LacksGeneration, LacksRoom};
ghost use Rattle.realm_store.specs.NextGates.{IsGateFor};

use crate::renewing::{LAST_GENERATION, gate_behind, generation_of, next_place, payload_of};
use grid_base::NoMemory;
use realm_files::Place;
use realm_insert::{Engine, Refusal};
use realm_pages::{PreparedPages, prepare_pages};
use std::alloc::Global;

// No record is begun at this place, 2^61, nor behind it.
const NO_PLACE: u64 = 2_305_843_009_213_693_952;

/// The gate behind which the next record is to be written.
#[derive(Drop)]
pub(crate) enum NextGate {
    /// It will stand at this place, behind a generation that is put there before.
    Next { place: Place, pages: PreparedPages },
    /// Its byte is missing at the end of the newest file, and is added before.
    Missing { place: Place },
    /// It is there.
    Waiting { place: Place },
    /// It would stand at this place of the other file, but there is no greater generation.
    Last { next: u64 },
}

/// Makes the gate of the next record ready. The engine has the state that is kept: it is the payload of the generation that
/// comes before, where one is wanted.
pub(crate) fn gate_for(
    alloc: Global,
    engine: &Engine,
    place: Option<Place>,
    has_gate: bool,
) -> Result<NextGate, NoMemory>
    requires ready { engine.now.spent ≡ false }
    ensures { IfOk result (λ gate. IsGateFor gate (kept_at engine.now.state place has_gate)) }
{
    match place {
        Some(place) if place.version != 1 => Ok(gate_at(place, has_gate)),
        _ => gate_behind_own(alloc, engine, place),
    }
}

// The gate at this place, which is there or missing.
fn gate_at(place: Place, has_gate: bool) -> NextGate
    ensures { (kept : Kept) → wants_generation kept.place ≡ false → kept.place ≡ Some place → kept.has_gate ≡ has_gate
        → IsGateFor result kept }
{
    if has_gate {
        NextGate::Waiting { place }
    } else {
        NextGate::Missing { place }
    }
}

// The gate behind a generation of its own.
fn gate_behind_own(
    alloc: Global,
    engine: &Engine,
    place: Option<Place>,
) -> Result<NextGate, NoMemory>
    requires ready { engine.now.spent ≡ false }
    requires wanted { wants_generation place ≡ true }
    ensures { IfOk result (λ gate. (has_gate : Bool) → IsGateFor gate (kept_at engine.now.state place has_gate)) }
{
    let payload = payload_of(alloc, engine)?;
    let next = gate_behind(&payload);
    if generation_of(place) >= LAST_GENERATION {
        return Ok(NextGate::Last { next });
    }
    let pages = prepare_pages(alloc, generation_of(place) + 1, &payload)?;
    Ok(NextGate::Next {
        place: next_place(place, next),
        pages,
    })
}

/// Why no record may be written behind the gate, where none may.
pub(crate) fn lack_of(gate: &NextGate) -> Option<Refusal>
    ensures { (kept : Kept) → IsGateFor gate.now kept → MatchOption result (HasRoom kept) (LacksRoom kept) }
{
    if next_of(gate) >= NO_PLACE {
        Some(Refusal::Full)
    } else if lacks_generation(gate) {
        Some(Refusal::Generations)
    } else {
        None
    }
}

// Where the gate stands, or would stand.
fn next_of(gate: &NextGate) -> u64
    ensures { (kept : Kept) → IsGateFor gate.now kept → result ≡ next_gate kept }
{
    match gate {
        NextGate::Next { place, .. } => place.next,
        NextGate::Missing { place } => place.next,
        NextGate::Waiting { place } => place.next,
        NextGate::Last { next } => *next,
    }
}

// Whether a generation is wanted, and there is no greater one.
fn lacks_generation(gate: &NextGate) -> bool
    ensures { (kept : Kept) → IsGateFor gate.now kept → IsTrue result ↔ LacksGeneration kept }
{
    match gate {
        NextGate::Next { .. } => false,
        NextGate::Missing { .. } => false,
        NextGate::Waiting { .. } => false,
        NextGate::Last { .. } => true,
    }
}

/// The place of a gate behind which a record may be written.
pub(crate) fn place_of(gate: &NextGate) -> Place
    requires room { (kept : Kept) × IsGateFor gate.now kept × HasRoom kept }
    ensures { (kept : Kept) → IsGateFor gate.now kept → result ≡ place_for meaning kept }
{
    match gate {
        NextGate::Next { place, .. } => *place,
        NextGate::Missing { place } => *place,
        NextGate::Waiting { place } => *place,
        NextGate::Last { .. } => unreachable!(),
    }
}
