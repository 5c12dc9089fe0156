//! Queries: what each is answered about a state in memory, which it doesn't change.
//! Begin at `answer`, then read what a query is answered in `specs/Answers.antt`.
#![tactic(auto)]

mod answering;
mod asking;
mod evaluating;
mod gathering;
mod listing;
mod measuring;
mod naming;
mod outlining;
mod printing;
mod refusals;

pub use answering::{answer, answer_alone};
pub use refusals::refuse;
