//! The values of a store by name, in the order in which they were defined. Begin at `Table`.
//! Only `define` and `copied` take memory.
#![tactic(auto)]

mod definitions;
mod table;
mod users;
mod value;

pub use definitions::Definition;
pub use table::{Table, TableError};
pub use value::{IdList, Parts, Value};
