//! What a drawing and a table hold, once more in lists: the parts of a snapshot.
#![tactic(auto)]

mod originals;
mod points;
mod values;

pub use originals::copied_originals;
pub use points::explicit_points;
pub use values::copied_values;
