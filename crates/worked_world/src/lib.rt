//! Worked cases of what lies at the edge of the program: worlds in memory, the real world over pipes and files, and the words that
//! the program is started with. There are tests alone here. Begin at `cases.rt`.
#![tactic(auto)]

#[cfg(test)]
mod cases;
