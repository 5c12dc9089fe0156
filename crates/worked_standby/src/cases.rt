//! The cases, from lines to what is sent. Nothing but the public calls of the crates is used.
mod lines;
mod next;
mod sending;
