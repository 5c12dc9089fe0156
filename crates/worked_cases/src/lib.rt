//! Worked cases of the crates below the engine: points and segments, hooks, owners, drawings, values and lines. Each table has
//! numbers that were worked out on paper or by another program. Begin at `cases.rt`; `paper.rt` has what the cases share.
#![tactic(auto)]

#[cfg(test)]
mod cases;
pub mod paper;
