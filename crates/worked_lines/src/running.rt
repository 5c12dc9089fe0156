//! Runs in worlds in memory, each on a world of its own: no call is made on one in which a call has failed.
ghost use Rattle.std.specs.Prelude.{◌≡◌, false, IfOk};
ghost use Rattle.outside_world.specs.Memory.{has_failed};

use grid_base::NoMemory;
use outside_world::{Leave, MemoryWorld};
use realm_store::{Damage, StartError, Store};
use rose_shell::{Status, run, serve};
use std::alloc::Global;
use std::process::Abort;
use std::thread::Threads;

/// A world in memory. It is let go of in one place, by a call that each of its owners makes: what is in it isn't gone through
/// again wherever one of them gives up.
pub(crate) struct Place {
    pub(crate) world: MemoryWorld,
}

impl Drop for Place {
    fn drop(self) {
        let Place { world: _world } = self;
    }
}

/// A world with this input and file A and an empty file B, in which the calls of these numbers fail.
pub(crate) fn place_of(
    alloc: Global,
    input: &str,
    file: &[u8],
    failing: &[u64],
) -> Result<Place, NoMemory>
    ensures intact { IfOk result (λ place. has_failed place.world ≡ false) }
{
    place_of_two(alloc, input, file, b"", failing)
}

/// A world with this input and these two files, in which the calls of these numbers fail.
pub(crate) fn place_of_two(
    alloc: Global,
    input: &str,
    a: &[u8],
    b: &[u8],
    failing: &[u64],
) -> Result<Place, NoMemory>
    ensures intact { IfOk result (λ place. has_failed place.world ≡ false) }
{
    place_of_bytes(alloc, input.as_bytes(), a, b, failing)
}

/// The same with an input that needn't be text.
pub(crate) fn place_of_bytes(
    alloc: Global,
    input: &[u8],
    a: &[u8],
    b: &[u8],
    failing: &[u64],
) -> Result<Place, NoMemory>
    ensures intact { IfOk result (λ place. has_failed place.world ≡ false) }
{
    let input = Vec::from_slice(alloc, input)?;
    let a = Vec::from_slice(alloc, a)?;
    let b = Vec::from_slice(alloc, b)?;
    let failing = Vec::from_slice(alloc, failing)?;
    let world = MemoryWorld::new(alloc, input, a, b, failing)?;
    Ok(Place { world })
}

/// A world with this input and two empty files, whose takes and gives move one byte.
pub(crate) fn place_byte_by_byte(alloc: Global, input: &str) -> Result<Place, NoMemory>
    ensures intact { IfOk result (λ place. has_failed place.world ≡ false) }
{
    let input = Vec::from_slice(alloc, input.as_bytes())?;
    let (a, b) = (Vec::new(alloc), Vec::new(alloc));
    let world = MemoryWorld::in_pieces(alloc, input, a, b, Vec::new(alloc), 1)?;
    Ok(Place { world })
}

/// What the program does with these words there, one space between two of them.
pub(crate) fn run_words<R: Threads + Sync>(
    rt: &R,
    alloc: Global,
    text: &str,
    world: &mut MemoryWorld,
) -> Result<Status, NoMemory>
    requires intact { has_failed world.old ≡ false }
{
    let mut words = Vec::new(alloc);
    for word in text.split_whitespace() {
        words.push(String::from_str(alloc, word)?)?;
    }
    Ok(run(rt, alloc, words.as_slice(), world))
}

/// Serves the lines of the input, with this budget. Tells as well how many changes the store has then, but where it is spent
/// or has a group open.
pub(crate) fn serve_within<R: Threads + Sync>(
    rt: &R,
    alloc: Global,
    world: &mut MemoryWorld,
    budget: u64,
) -> (Status, Option<u64>)
    requires intact { has_failed world.old ≡ false }
{
    match Store::start(rt, alloc, world) {
        Ok(mut store) => {
            let status = serve(rt, alloc, &mut store, world, budget);
            (status, changes_of(&store))
        }
        Err(_) => (Status::DiskFault, None),
    }
}

// How many changes the store has, but where it is spent or has a group open.
fn changes_of(store: &Store) -> Option<u64> {
    if store.is_spent() || store.in_group() {
        return None;
    }
    Some(store.state().changes())
}

/// A run with these words there gives this and ends with this number.
pub(crate) fn look_at_run<R: Threads + Sync + Abort>(
    rt: &R,
    alloc: Global,
    words: &str,
    world: &mut MemoryWorld,
    given: &str,
    number: u8,
) -> Result<(), NoMemory>
    requires intact { has_failed world.old ≡ false }
{
    let status = run_words(rt, alloc, words, world)?;
    assert_eq!(rt; status.number(), number, "at {words:?} for {given:?}");
    assert_eq!(rt; world.given(), given.as_bytes(), "at {words:?}");
    Ok(())
}

/// A run over these lines on file A gives this and ends with this number.
pub(crate) fn look<R: Threads + Sync + Abort>(
    rt: &R,
    alloc: Global,
    lines: &str,
    file: &[u8],
    replies: &str,
    number: u8,
) -> Result<Place, NoMemory> {
    let mut place = place_of(alloc, lines, file, &[])?;
    look_at_run(rt, alloc, "run", &mut place.world, replies, number)?;
    Ok(place)
}

/// What a start tells of two files with these bytes: 0 and the number of changes; or 5 and the number of the record or
/// the page that is damaged, or of the generation that both have; or the number of another status.
pub(crate) fn told<R: Threads + Sync>(rt: &R, alloc: Global, a: &[u8], b: &[u8]) -> (u8, u64) {
    match place_of_two(alloc, "", a, b, &[]) {
        Ok(mut place) => told_by(rt, alloc, &mut place.world),
        Err(_) => (6, 0),
    }
}

// What a start there tells.
fn told_by<R: Threads + Sync>(rt: &R, alloc: Global, world: &mut MemoryWorld) -> (u8, u64)
    requires intact { has_failed world.old ≡ false }
{
    match Store::start(rt, alloc, world) {
        Ok(store) => (0, store.state().changes()),
        Err(StartError::Damaged(Damage::BadPage { page, .. })) => (5, page),
        Err(StartError::Damaged(Damage::BadRecord { number, .. })) => (5, number),
        Err(StartError::Damaged(Damage::Twins { generation })) => (5, generation),
        Err(StartError::Damaged(_)) => (5, 0),
        Err(StartError::Disk) => (4, 0),
        Err(StartError::NoMemory) => (6, 0),
    }
}

/// Files A and B as a crash after so many calls leaves them.
pub(crate) fn left(
    world: &MemoryWorld,
    moment: u64,
    leave: Leave,
) -> Result<(Vec<u8>, Vec<u8>), NoMemory> {
    world.images(moment.min(world.calls()), leave)
}
