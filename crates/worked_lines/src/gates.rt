//! That each line of a batch is answered between the two calls of its gate, and that lines are answered at the same time.
ghost use Rattle.std.specs.Prelude.{◌≡◌, false};
ghost use Rattle.outside_world.specs.Memory.{has_failed};

use crate::running::place_of;
use grid_base::NoMemory;
use outside_world::MemoryWorld;
use realm_store::Store;
use rose_shell::{Gate, Status, serve_gated};
use std::alloc::Global;
use std::process::Abort;
use std::sync::atomic::{AtomicBool, AtomicU32, AtomicU64, Ordering};
use std::thread::Threads;

// How often a job looks for another.
const TURNS: u32 = 100_000_000;

// So often a job that another waits behind is seen to be there, if it is there while a long line is read.
const MANY: u32 = 1_000;

// More bytes than the input of each of these batches has.
const BUDGET: u64 = 4_194_304;

// How often the flag is looked at until it is seen, or so many turns.
fn looks(flag: &AtomicBool) -> u32 {
    for turn in 0..TURNS {
        if flag.load(Ordering::SeqCst) {
            return turn;
        }
    }
    TURNS
}

// ---- the gates

// The jobs that entered and those that left, a bit for each by its number, and whether one entered or left twice, or left
// before it entered.
#[derive(Drop)]
struct Passing {
    entered: AtomicU64,
    left: AtomicU64,
    astray: AtomicBool,
}

impl Gate for Passing {
    fn enter(&self, job: usize) {
        if !is_new(&self.entered, job) {
            self.astray.store(true, Ordering::SeqCst);
        }
    }

    fn leave(&self, job: usize) {
        if !is_new(&self.left, job) || self.entered.load(Ordering::SeqCst) & bit(job) == 0 {
            self.astray.store(true, Ordering::SeqCst);
        }
    }
}

// The bit of the job; none where its number is past 63.
fn bit(job: usize) -> u64 {
    if job < 64 { 1 << job } else { 0 }
}

// Puts the bit of the job into the mask, and says whether it wasn't there.
fn is_new(mask: &AtomicU64, job: usize) -> bool {
    mask.fetch_or(bit(job), Ordering::SeqCst) & bit(job) == 0
}

// The jobs 0 and 63 wait for each other, and note whether they met.
#[derive(Drop)]
struct Meeting {
    first: AtomicBool,
    last: AtomicBool,
    first_met: AtomicBool,
    last_met: AtomicBool,
}

impl Gate for Meeting {
    fn enter(&self, job: usize) {
        if job == 0 {
            self.first.store(true, Ordering::SeqCst);
            let met = looks(&self.last) < TURNS;
            self.first_met.store(met, Ordering::SeqCst);
        }
        if job == 63 {
            self.last.store(true, Ordering::SeqCst);
            let met = looks(&self.first) < TURNS;
            self.last_met.store(met, Ordering::SeqCst);
        }
    }

    fn leave(&self, _job: usize) {}
}

// The jobs 0 and 1 wait for each other. Then job 1 looks until job 0 leaves, and notes how often it looked.
#[derive(Drop)]
struct Watching {
    here: AtomicBool,
    gone: AtomicBool,
    watched: AtomicBool,
    looks: AtomicU32,
}

impl Gate for Watching {
    fn enter(&self, job: usize) {
        if job == 0 {
            self.here.store(true, Ordering::SeqCst);
            looks(&self.watched);
        } else {
            self.watched.store(true, Ordering::SeqCst);
            looks(&self.here);
            self.looks.store(looks(&self.gone), Ordering::SeqCst);
        }
    }

    fn leave(&self, job: usize) {
        if job == 0 {
            self.gone.store(true, Ordering::SeqCst);
        }
    }
}

// ---- the batches

// The lines of the input get these replies past the gate.
fn look<R: Threads + Sync + Abort, G: Gate>(
    rt: &R,
    alloc: Global,
    input: &str,
    replies: &str,
    gate: &G,
) -> Result<(), NoMemory> {
    let mut place = place_of(alloc, input, b"", &[])?;
    let status = serve_past(rt, alloc, &mut place.world, gate);
    assert_eq!(rt; status.number(), 0);
    assert!(rt; place.world.given() == replies.as_bytes());
    Ok(())
}

// Serves the lines of the input past this gate.
fn serve_past<R: Threads + Sync, G: Gate>(
    rt: &R,
    alloc: Global,
    world: &mut MemoryWorld,
    gate: &G,
) -> Status
    requires intact { has_failed world.old ≡ false }
{
    match Store::start(rt, alloc, world) {
        Ok(mut store) => serve_gated(rt, alloc, &mut store, world, BUDGET, gate),
        Err(_) => Status::DiskFault,
    }
}

// A batch of so many lines `realm` gets its replies past the gate.
fn look_at_lines<R: Threads + Sync + Abort, G: Gate>(
    rt: &R,
    alloc: Global,
    lines: usize,
    gate: &G,
) -> Result<(), NoMemory> {
    let mut input = format!(in alloc; "batch {lines}\n")?;
    input.push_str("realm\n".repeat(alloc, lines)?.as_str())?;
    let replies = "realm 0 0\n".repeat(alloc, lines)?;
    look(rt, alloc, input.as_str(), replies.as_str(), gate)
}

// Each of so many jobs enters once, and leaves once behind that.
fn look_at_passing<R: Threads + Sync + Abort>(
    rt: &R,
    alloc: Global,
    lines: usize,
    all: u64,
) -> Result<(), NoMemory> {
    let passing = Passing {
        entered: AtomicU64::new(0),
        left: AtomicU64::new(0),
        astray: AtomicBool::new(false),
    };
    look_at_lines(rt, alloc, lines, &passing)?;
    assert_eq!(rt;
        passing.entered.load(Ordering::SeqCst),
        all,
        "of {lines} lines"
    );
    assert_eq!(rt;
        passing.left.load(Ordering::SeqCst),
        all,
        "of {lines} lines"
    );
    assert!(rt; !passing.astray.load(Ordering::SeqCst), "of {lines} lines");
    Ok(())
}

// The lines of one batch are answered while two of them wait for each other.
fn look_at_meeting<R: Threads + Sync + Abort>(rt: &R, alloc: Global) -> Result<(), NoMemory> {
    let meeting = Meeting {
        first: AtomicBool::new(false),
        last: AtomicBool::new(false),
        first_met: AtomicBool::new(false),
        last_met: AtomicBool::new(false),
    };
    look_at_lines(rt, alloc, 64, &meeting)?;
    assert!(rt; meeting.first_met.load(Ordering::SeqCst));
    assert!(rt; meeting.last_met.load(Ordering::SeqCst));
    Ok(())
}

// How often job 1 looks on while the long line of job 0 is answered.
fn looks_at_long_line<R: Threads + Sync + Abort>(rt: &R, alloc: Global) -> Result<u32, NoMemory> {
    let mut input = String::from_str(alloc, "batch 2\npoints a")?;
    input.push_str(" 1 1".repeat(alloc, 200_000)?.as_str())?;
    input.push_str("\nrealm\n")?;
    let watching = Watching {
        here: AtomicBool::new(false),
        gone: AtomicBool::new(false),
        watched: AtomicBool::new(false),
        looks: AtomicU32::new(0),
    };
    let replies = "no batch-change\nrealm 0 0\n";
    look(rt, alloc, input.as_str(), replies, &watching)?;
    Ok(watching.looks.load(Ordering::SeqCst))
}

// ---- the tests

#[test]
fn batch_gate(rt: HostRuntime) {
    assert!(rt; look_at_meeting(&rt, rt.alloc()).is_ok(), "no memory");
}

#[test]
fn each_job_enters_and_leaves(rt: HostRuntime) {
    for (lines, all) in [(1, 1), (3, 7), (64, u64::MAX)] {
        assert!(rt;
            look_at_passing(&rt, rt.alloc(), lines, all).is_ok(),
            "no memory"
        );
    }
}

// A job that another is to watch may wait for a processor all the while: so it is tried again.
#[test]
fn a_line_is_answered_behind_its_gate(rt: HostRuntime) {
    let mut most = 0;
    for _ in 0..5 {
        if most < MANY {
            most = looks_at_long_line(&rt, rt.alloc()).unwrap_or(0);
        }
    }
    assert!(rt; MANY <= most, "{most} looks");
}
