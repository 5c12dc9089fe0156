//! The cases, by what they are about. Nothing but the public calls of the crates is used.
mod in_memory;
mod of_a_process;
mod of_words;
