//! Who owns each piece of a drawing: many originals may share a piece, and it has one key until the
//! last of them drops it. Begin at `Registry`. Only `add`, `copied`, `pieces` and `vertices` take memory.
#![tactic(auto)]

mod ends;
mod hashed;
mod holding;
mod holdings;
mod registry;

pub use registry::Registry;
