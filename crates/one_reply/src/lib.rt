//! What is answered has one reply. Begin at `one_reply`: it is a law, which answers nothing and takes no memory.
#![tactic(auto)]

mod laws;

pub use laws::{one_outcome, one_payload, one_reply, some_reply};
