//! What is asked has a reply, changes too. Begin at `some_answer`: it is a law, which answers nothing and takes no memory.
#![tactic(auto)]

mod laws;

pub use laws::{some_answer, some_change, valid_change};
