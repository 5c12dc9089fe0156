//! Worked cases of the crates between values and operators: parts, blocks, cycles, faces, classes of the plane and numbers of
//! values, drawn on squared paper. There are tests alone here. Begin at `cases.rt`; `paper.rt` has what the cases share.
#![tactic(auto)]

#[cfg(test)]
mod cases;
#[cfg(test)]
mod paper;
