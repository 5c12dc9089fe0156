//! A run of the program in memory, from nothing on. Begin at `run_steadily`. No file is touched.
#![tactic(auto)]

mod running;

pub use running::run_steadily;
