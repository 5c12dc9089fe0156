//! An order that counts how often it is asked.
use grid_base::{Segment, Steps};
use plane_sweep::{Order, order_at};
use std::cell::Cell;
use std::sync::ledger::Ledger;

/// The order of `order_at`, with the number of its calls.
#[derive(Drop)]
pub(crate) struct Counting {
    pub(crate) calls: Cell<u64>,
}

impl Order for Counting {
    fn above<L: Ledger>(&self, t: &Segment, s: &Segment, steps: &mut Steps<L>) -> bool {
        self.calls.set(self.calls.get().wrapping_add(1));
        order_at(t, s, steps)
    }
}
