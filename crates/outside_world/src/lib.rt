//! The world outside a store, as a trait, and worlds in memory. Begin at `Outside`, then read what a call
//! does in `specs/Calls.antt`, and what a crash may leave in `specs/Disk.antt`. Nothing here touches a file
//! or a stream.
#![tactic(auto)]

mod call_log;
mod filling;
mod leave;
mod memory_world;
mod replaying;
mod steady_world;
mod world;

pub use leave::Leave;
pub use memory_world::MemoryWorld;
pub use steady_world::SteadyWorld;
pub use world::{Failed, FileName, Outside};
