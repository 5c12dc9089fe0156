//! How a run of the program ends: how it ends where its words aren't known, the line that is said where it doesn't end well, and
//! the number that it ends with. Begin at `line_of`. No memory is taken and no file touched.
#![tactic(auto)]

mod base_16;
mod ending;
mod message;

pub use ending::{exit_of, status_without_words};
pub use message::{Line, line_of, say};
