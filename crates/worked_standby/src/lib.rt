//! Worked frames: their lines, which of them come next, and which are sent. There are tests alone here. Begin
//! at `cases.rt`; `paper.rt` has the lines that the cases share.
#![tactic(auto)]

#[cfg(test)]
mod cases;
#[cfg(test)]
mod paper;
