//! The real world of a process: standard input, standard output, two files of the current folder, and the words that it was
//! started with. Begin at `FileWorld`. Nothing here is ended by force, and no thread is started.
#![tactic(auto)]

mod file_world;
mod locking;
mod real_file;
mod words;

pub use file_world::{FileWorld, letter_of};
pub use locking::{HeldFile, TryLock};
pub use words::{WordsError, words_of};
