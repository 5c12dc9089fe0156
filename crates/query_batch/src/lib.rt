//! Batches: what lines that are answered together are told about one state in memory, which they don't change.
//! Begin at `answer_batch`, then read what a line of a batch is answered in `specs/Answers.antt`.
#![tactic(auto)]

mod answering;
mod gate;
mod joining;
mod line;
mod refusals;

pub use answering::answer_batch;
pub use gate::{Gate, Open};
pub use line::Line;
pub use refusals::refuse_text;
