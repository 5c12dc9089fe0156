//! The lines of a user: each command has one text, and a line that is the text of no command is refused
//! at the place up to which some command could still have been meant.
//! Begin with `Command`, then `read_line` and `write_line`. Nothing here looks at the state or the
//! grid.
#![tactic(auto)]

mod behind;
mod command;
mod fault;
mod fitting;
mod laws;
mod lists;
mod name;
mod names;
mod parts;
mod path;
mod reading;
mod rests;
mod tokens;
mod words;
mod writing;

pub use command::{At, Change, Command, Query};
pub use fault::LineError;
pub use fitting::{spellable, spellable_change};
pub use laws::{a_change_is_a_line, one_command_a_text};
pub use name::Name;
pub use names::{KeyedNames, Names};
pub use path::{Path, Paths};
pub use reading::read_line;
pub use writing::{write_change, write_line};
