//! The way of a piece round the grid points, and which pieces stay close to an original.
//! Begin at `hook`, then read what it answers in `specs/Hook.antt`; and at `close`, with `specs/Close.antt`.
#![tactic(auto)]

mod charts;
mod closeness;
mod fraction;
mod hulls;
mod laws;
mod walking;

pub use closeness::close;
pub use hulls::{HookError, hook};
pub use laws::{
    hook_exists, hook_holds_points_between, hook_is_close, hook_is_monotone, hook_leads, one_hook,
};
