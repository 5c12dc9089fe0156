//! The cases, by what they ask. Nothing but the public calls of the crates is used.
mod combining;
mod shutting_in;
mod telling;
