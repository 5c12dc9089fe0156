//! Worked cases of the crates right above the grid: short lists of segments, and a vector in blocks. There are tests alone here.
//! Begin at `cases.rt`.
#![tactic(auto)]

#[cfg(test)]
mod cases;
