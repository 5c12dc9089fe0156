//! The auditor, which hears a certificate line by line.
ghost use Rattle.std.specs.Prelude.{◌≡◌, ◌≢◌, ◌↔◌, ◌++◌, ◌∷◌, [], ℕ, List, Ok, false, IsTrue, IfOk, OnOk, OnErr, ◌≤◌, ◌^◌};
ghost use Rattle.realm_audit.specs.Progresses.{hearing_of, IsSoundProgress};
ghost use Rattle.realm_audit.specs.Audits.{first_audit};
ghost use Rattle.realm_audit.specs.Verdicts.{Hears, IsOver, Judges};
ghost use Rattle.realm_audit.specs.Verdicts.Hearing.{Heard, Exhausted};

use crate::audit::{Audit, next_count};
use crate::verdict::Verdict;
use grid_base::NoMemory;
use std::alloc::Global;
use std::marker::Model;
use std::mem;

// How far an auditor has come.
#[derive(Drop)]
enum Progress {
    // so many lines were heard, and all held
    Going(u64, Audit),
    // the line with this number was the first that failed
    Failed(u64),
    // memory ran out
    Spent,
}

/// Hears the lines of a certificate, and says of each whether it holds.
#[derive(Drop)]
pub struct Auditor {
    progress: Progress,
    alloc: Global,
}

impl Model for Auditor {
    ghost use Rattle.realm_audit.specs.Verdicts.{Hearing};
    ghost use Rattle.realm_audit.specs.Progresses.{hearing_of, IsSoundProgress};

    ghost Value = { Hearing };

    ghost view = { λ a. hearing_of a.progress };

    ghost invariant = { λ a. IsSoundProgress a.progress };
}

impl Auditor {
    /// An auditor that has heard nothing. Takes no memory.
    pub fn new(alloc: Global) -> Auditor
        ensures { result ≡ Heard 0 first_audit }
    {
        Auditor {
            progress: Progress::Going(0, Audit::new(alloc)),
            alloc,
        }
    }

    /// Hears the next line, without its line feed, and says whether it holds. Behind the first that doesn't, none does.
    /// Fails only for want of memory: then no line holds any more, and there is no verdict.
    pub fn line(&mut self, text: &[u8]) -> Result<bool, NoMemory>
        ensures hears { IfOk result (λ held. Hears self.old text.now held self.new) }
        ensures going { OnOk result (self.old ≢ Exhausted → self.new ≢ Exhausted) }
        ensures behind { IsOver self.old → (result ≡ Ok false) × (self.new ≡ self.old) }
        ensures spent { OnErr result (self.new ≡ Exhausted) }
    {
        match mem::replace(&mut self.progress, Progress::Spent) {
            Progress::Going(lines, audit) => {
                let (held, progress) = heard(self.alloc, lines, audit, text)?;
                self.progress = progress;
                Ok(held)
            }
            other => {
                self.progress = other;
                Ok(false)
            }
        }
    }

    /// The verdict on the lines that were heard, where memory didn't run out. Takes no memory.
    pub fn verdict(&self) -> Verdict
        requires heard { self.now ≢ Exhausted }
        ensures { Judges self.now result }
    {
        match &self.progress {
            Progress::Going(lines, audit) => verdict_of(*lines, audit),
            Progress::Failed(line) => Verdict::Unsound { line: *line },
            Progress::Spent => unreachable!(),
        }
    }
}

// What comes of one more line.
fn heard(alloc: Global, lines: u64, audit: Audit, text: &[u8]) -> Result<(bool, Progress), NoMemory>
    requires few { lines ≤ 2 ^ 63 }
    ensures hears { IfOk result (λ r. Hears (Heard lines audit) text.now r.0 (hearing_of r.1)) }
    ensures few { IfOk result (λ r. IsSoundProgress r.1) }
{
    let line = next_count(lines);
    match audit.after(alloc, text)? {
        Some(audit) => Ok((true, Progress::Going(line, audit))),
        None => Ok((false, Progress::Failed(line))),
    }
}

// The verdict where no line failed.
fn verdict_of(lines: u64, audit: &Audit) -> Verdict
    requires few { lines ≤ 2 ^ 63 }
    ensures { Judges (Heard lines audit.now) result }
{
    let (ended, changes, steps) = audit.counts();
    if ended {
        Verdict::Sound { changes, steps }
    } else {
        Verdict::Unsound {
            line: next_count(lines),
        }
    }
}
