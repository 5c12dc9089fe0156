//! What a session works with.

use std::alloc::Global;

/// What a session works with: threads, memory, and the gate of a batch.
#[derive(Clone, Copy)]
pub struct Means<'a, R, G> {
    pub(crate) rt: &'a R,
    pub(crate) alloc: Global,
    pub(crate) gate: &'a G,
}
