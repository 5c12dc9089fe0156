//! That an audit finds sound what a run of `certify` gave: a law of what both words promise. Nothing here runs.
#![tactic(auto)]

mod laws;

pub use laws::certificate_is_audited;
