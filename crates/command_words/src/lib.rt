//! The words behind the program's name, read as one of its commands. Begin at `read_words`.
#![tactic(auto)]

mod laws;
mod numbers;
mod parsing;
mod reading;
mod word;

pub use laws::one_command;
pub use reading::read_words;
pub use word::Word;
