//! The cases, from bytes to files. Nothing but the public calls of the crates is used.
mod appends;
mod pages;
mod records;
mod switches;
