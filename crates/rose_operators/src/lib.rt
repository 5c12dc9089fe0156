//! What every operator makes of values, `interior` among them. Begin at `operate`.
#![tactic(auto)]

mod laws;
mod operating;

pub use laws::one_result;
pub use operating::{operate, operate_alone};
