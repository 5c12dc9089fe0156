//! No region sweeps across a grid point. Begin at `no_region_sweeps`: it is a law, which answers nothing and
//! takes no memory.
#![tactic(auto)]

mod laws;

pub use laws::no_region_sweeps;
