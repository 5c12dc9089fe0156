//! The next generation, and what a checkpoint writes: the state, as the next generation, to the file that isn't the newest.
ghost use Rattle.std.specs.Prelude.{◌≡◌, ◌<◌, ◌^◌, length, false, IfOk};
ghost use Rattle.record_codec.specs.Heads.{IsGeneration};
ghost use Rattle.realm_insert.specs.Snapshots.{payload_of};
ghost use Rattle.realm_pages.specs.Generations.{page_count, gate_behind};
ghost use Rattle.realm_files.specs.Stands.{numbered};
ghost use Rattle.realm_files.specs.Writing.{generation_of, next_file, next_generation, version_now, wants_generation};
ghost use Rattle.realm_store.specs.Stands.{Opens};

use grid_base::NoMemory;
use outside_world::FileName;
use realm_files::Place;
use realm_insert::Engine;
use realm_pages::{PreparedPages, prepare_pages};
use record_codec::encode_snapshot;
use std::alloc::Global;

/// No generation has a greater number than this, 2^63.
pub(crate) const LAST_GENERATION: u64 = 9_223_372_036_854_775_808;

// The version of the format that each generation is written in.
const VERSION: u64 = 2;

// How many bytes of the payload a page holds.
const PAGE_ROOM: usize = 4_054;

/// Whether the next record comes behind a generation of its own: no file counts, or the newest is of the first version.
pub(crate) fn wants_generation(place: Option<Place>) -> bool
    ensures { result ≡ wants_generation place }
{
    match place {
        None => true,
        Some(place) => place.version == 1,
    }
}

/// The number of the newest generation, 0 where no file counts.
pub(crate) fn generation_of(place: Option<Place>) -> u64
    ensures { result ≡ generation_of place }
{
    match place {
        None => 0,
        Some(place) => place.generation,
    }
}

/// Where the next generation goes: to the other file than the newest, and to file A where none counts.
pub(crate) fn next_file(place: Option<Place>) -> FileName
    ensures { result ≡ next_file place }
{
    match place {
        None => FileName::A,
        Some(place) => match place.file {
            FileName::A => FileName::B,
            FileName::B => FileName::A,
        },
    }
}

/// The place of the next generation's first gate, where that stands there in its file.
pub(crate) fn next_place(place: Option<Place>, next: u64) -> Place
    requires greater { generation_of place < 2 ^ 63 }
    ensures { result ≡ record {
      file = next_file place;
      version = version_now;
      generation = next_generation place;
      next = next;
    } }
{
    Place {
        file: next_file(place),
        version: VERSION,
        generation: generation_of(place) + 1,
        next,
    }
}

/// Where the first gate behind a payload stands.
#[tactic(auto, unfolding(realm_pages::specs::Generations::page_count))]
pub(crate) fn gate_behind(payload: &[u8]) -> u64
    ensures { result ≡ gate_behind (page_count (length payload.now)) }
{
    4_096 * (payload.len().div_ceil(PAGE_ROOM) as u64 + 1)
}

/// The payload of the state.
pub(crate) fn payload_of(alloc: Global, engine: &Engine) -> Result<Vec<u8>, NoMemory>
    requires ready { engine.now.spent ≡ false }
    ensures payload { IfOk result (λ bytes. bytes.items ≡ payload_of engine.now.state) }
    ensures opens { IfOk result (λ _. Opens (payload_of engine.now.state) engine.now.state) }
{
    let snapshot = engine.snapshot()?;
    let payload = encode_snapshot(alloc, &snapshot)?;
    Ok(payload)
}

/// Makes the state ready to be written as this generation. This takes all the memory of a checkpoint.
pub(crate) fn prepare_state(
    alloc: Global,
    engine: &Engine,
    generation: u64,
) -> Result<PreparedPages, NoMemory>
    requires ready { engine.now.spent ≡ false }
    requires generation { IsGeneration generation }
    ensures pages { IfOk result (λ pages. pages ≡ numbered version_now generation (payload_of engine.now.state)) }
    ensures opens { IfOk result (λ _. Opens (payload_of engine.now.state) engine.now.state) }
{
    let payload = payload_of(alloc, engine)?;
    prepare_pages(alloc, generation, &payload)
}
