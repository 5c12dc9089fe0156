//! Worked certificates: the verdict on each, lines that hold and lines that don't, and the text of each kind of line. There are
//! tests alone here. Begin at `cases.rt`.
#![tactic(auto)]

#[cfg(test)]
mod cases;
