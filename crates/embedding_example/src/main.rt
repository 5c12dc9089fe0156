//! Two uses of the crates in a program of one's own: an engine alone, and a store in a world that a crash ends.
#![tactic(auto)]

mod example_error;
mod plots;
mod printing;
mod reopening;

use example_error::ExampleError;
use plots::draw_plots;
use reopening::reopen;

fn main(rt: HostRuntime) -> Result<(), ExampleError> {
    draw_plots(&rt, rt.alloc())?;
    reopen(&rt, rt.alloc())
}
