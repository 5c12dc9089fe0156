//! Lines that were taken and replies to them, on standard output.
use grid_base::Reply;
use std::{io, str};

/// Prints the line, and under it the reply.
pub(crate) fn print_answered<R: Print>(rt: &R, line: &str, reply: &Reply) -> io::Result<()> {
    println!(rt; "> {line}")?;
    match str::from_utf8(reply.bytes()) {
        Ok(text) => print!(rt; "{text}"),
        Err(_) => Ok(()),
    }
}
