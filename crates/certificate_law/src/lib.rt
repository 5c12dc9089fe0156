//! What the certificate of a store's files is, and that it is sound: laws of the definitions. Nothing here runs.
#![tactic(auto)]

mod laws;

pub use laws::{certificate_is_sound, journal_has_one_certificate};
