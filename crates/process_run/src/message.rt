//! What the program says on standard error where a run doesn't end well. A line is shown piece by piece, so it takes no memory.
ghost use Rattle.std.specs.Prelude.{◌≡◌, Some, None};
ghost use Rattle.std.specs.Option.{option_map};
ghost use Rattle.process_run.specs.Said.{said_of, line_text, damage_text};

use crate::base_16::InBase16;
use process_world::letter_of;
use realm_pages::Damage;
use rose_shell::Status;
use std::fmt;
use std::fmt::Display;

/// Says on standard error why a run doesn't end well. Where this fails nothing more is tried.
pub fn say<R: Eprint>(rt: &R, status: Status) {
    if let Some(line) = line_of(status) {
        let _ = eprintln!(rt; "{line}");
    }
}

/// The line that is said of a run with this status; none where the whole output was given.
pub fn line_of(status: Status) -> Option<Line>
    ensures line { option_map line_text result ≡ said_of status }
{
    match status {
        Status::Done => None,
        Status::Usage => Some(Line::Plain(
            "usage: rose run | rose check | rose gen N START | rose ship K | rose follow | rose certify | rose audit",
        )),
        Status::SourceFault => Some(Line::Plain("source fault")),
        Status::SinkFault => Some(Line::Plain("sink fault")),
        Status::DiskFault => Some(Line::Plain("disk fault")),
        Status::Damaged(damage) => Some(Line::Damaged(damage)),
        Status::NoMemory => Some(Line::Plain("no memory")),
        Status::InputLimit => Some(Line::Plain("input limit")),
    }
}

/// A line that says why a run doesn't end well. It is shown with the program's name, and without an end of line.
#[derive(Clone, Copy)]
pub enum Line {
    /// A cause that is told by words alone.
    Plain(&'static str),
    /// The files are damaged.
    Damaged(Damage),
}

impl Display for Line {
    ghost output = { λ line. Some (line_text line) };

    fn fmt<W: fmt::Write>(&self, f: &mut fmt::Formatter<W>) -> fmt::Result {
        match *self {
            Line::Plain(cause) => write!(f, "rose: {cause}"),
            Line::Damaged(damage) => {
                let place = Place(damage);
                write!(f, "rose: damaged: {place}")
            }
        }
    }
}

// Damage, shown by its place in the files, and what stands there.
#[derive(Clone, Copy)]
struct Place(Damage);

impl Display for Place {
    ghost output = { λ place. Some (damage_text place.0) };

    fn fmt<W: fmt::Write>(&self, f: &mut fmt::Formatter<W>) -> fmt::Result {
        match self.0 {
            Damage::Digest {
                file,
                page,
                kept,
                found,
            } => {
                let letter = letter_of(file);
                let (kept, found) = (InBase16(kept), InBase16(found));
                write!(f, "file {letter} page {page} kept {kept} found {found}")
            }
            Damage::BadPage { file, page } => {
                let letter = letter_of(file);
                write!(f, "file {letter} page {page}")
            }
            Damage::BadSnapshot { file } => {
                let letter = letter_of(file);
                write!(f, "file {letter} snapshot")
            }
            Damage::BadRecord { file, number } => {
                let letter = letter_of(file);
                write!(f, "file {letter} record {number}")
            }
            Damage::Twins { generation } => write!(f, "twins {generation}"),
        }
    }
}
