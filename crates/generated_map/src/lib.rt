//! Maps that nobody wrote, to measure by: changes whose places follow from a first number. Begin at
//! `generate`.
#![tactic(auto)]

mod drawing_lots;
mod lines;
mod running;

pub use running::generate;
