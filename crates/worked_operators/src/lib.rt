//! Worked cases of the operators and the predicates, drawn on squared paper. There are tests alone here. Begin at `cases.rt`;
//! `paper.rt` has what the cases share.
#![tactic(auto)]

#[cfg(test)]
mod cases;
#[cfg(test)]
mod paper;
