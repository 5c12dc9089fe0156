//! A second checker of what a drawing went through. A certificate is a text of lines: how the drawing was at first, and
//! then each change with its steps. An auditor reads it line by line and keeps a drawing of its own.
//! Begin at `Auditor`, then read when a line holds in `specs/Audits.antt`. Nothing here touches a file.
#![tactic(auto)]

mod audit;
mod auditor;
mod board;
mod bounds;
mod chains;
mod explicit;
mod fresh;
mod groups;
mod item;
mod laws;
mod links;
mod numbers;
mod originals;
mod phase;
mod reading;
mod redrawing;
mod shares;
mod shelves;
mod verdict;
mod window;
mod words;
mod writing;

pub use auditor::Auditor;
pub use item::Item;
pub use laws::{
    hearing_is_judged, one_verdict, run_is_counted, run_settles, run_stands, sound_text,
};
pub use verdict::Verdict;
pub use writing::certificate_line;
