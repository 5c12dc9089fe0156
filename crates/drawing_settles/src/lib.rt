//! That settling comes to an end in every drawing. Begin at `some_step`: it is a law, which answers nothing and takes no memory.
#![tactic(auto)]

mod laws;

pub use laws::{some_step, some_trace, violated_or_not};
