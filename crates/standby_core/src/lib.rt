//! What a primary sends to a standby: frames, each of them one line. Begin with `Frame`, `read_frame` and
//! `write_frame`. `frames_for` says which frames are sent, and `verdict` whether one comes next. Nothing here
//! touches a file.
#![tactic(auto)]

mod copies;
mod digits;
mod frame;
mod judging;
mod laws;
mod reading;
mod shipping;
mod verdicts;
mod writing;

pub use frame::Frame;
pub use judging::verdict;
pub use laws::{no_frame_holds_a_line_end, no_two_frames_have_one_line};
pub use reading::read_frame;
pub use shipping::frames_for;
pub use verdicts::Verdict;
pub use writing::write_frame;
