//! The sides of nested squares and of fields of cells, as a sweep tells them and as threads tell them, and numbered jobs.
//! There are tests alone here, and what they ask of their lists. Begin at `tests.rt`; `squares.rt`, `fields.rt` and
//! `letters.rt` have what they are about.
#![tactic(auto)]

#[cfg(test)]
mod counting;
#[cfg(test)]
mod fields;
#[cfg(test)]
mod letters;
mod noded;
#[cfg(test)]
mod squares;
#[cfg(test)]
mod tests;

pub use noded::are_one_realm;
