//! Two files, each with a generation of the state: its payload in pages behind a head and a gate. Begin at
//! `newest`, which reads the newer of them, and `switch_to`, which puts a new generation on a file. While it does,
//! the other file isn't touched, so that one whole generation stands at each moment.
#![tactic(auto)]

mod damage;
mod error;
mod found;
mod heads;
mod laws;
mod pages;
mod prepared;
mod reading;
mod switching;

pub use damage::Damage;
pub use error::{PagesError, SwitchError};
pub use found::Found;
pub use laws::one_finding;
pub use prepared::{PreparedPages, prepare_pages};
pub use reading::newest;
pub use switching::switch_to;
