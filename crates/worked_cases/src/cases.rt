//! The cases, from the grid upwards. Nothing but the public calls of the crates is used.
mod drawings;
mod hooks;
mod lines;
mod owners;
mod plain_hooks;
mod replays;
mod segments;
mod tables;
mod values;
