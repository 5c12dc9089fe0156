//! What a snapshot keeps, made and looked at: a drawing of given originals, and a table of given values. Begin at `drawing_of` and
//! `table_of`. Whether pieces cross isn't asked here.
#![tactic(auto)]

mod copies;
mod drawing;
mod ends;
mod names;
mod numbers;
mod order;
mod pairs;
mod parts;
mod table;
mod values;

pub use copies::{add_point, copied_points};
pub use drawing::drawing_of;
pub use numbers::numbers_fit;
pub use table::table_of;
pub use values::kept_value;
