//! A certificate that is heard as its bytes come. Of a line all that has come is kept until the line ends, so it is bounded by
//! memory alone. Once a line has failed nothing more is kept.
ghost use Rattle.std.specs.Prelude.{◌≡◌, ◌≢◌, ◌∷◌, ◌++◌, ℕ, List, [], IfOk, OnOk};
ghost use Rattle.realm_audit.specs.Verdicts.{HasHeard};
ghost use Rattle.realm_audit.specs.Verdicts.Hearing.{Exhausted};
ghost use Rattle.rose_shell.specs.Lines.{lines_from, part_from, last_line};
ghost use Rattle.rose_shell.specs.Auditing.{verdict_text, TellsVerdictOf};
ghost use Rattle.rose_shell.specs.Certificates.{HasCome};

use crate::feeding::line_end;
use grid_base::{NoMemory, Reply};
use realm_audit::{Auditor, Verdict, hearing_is_judged};
use std::alloc::Global;

/// A certificate, as far as it has come.
#[derive(Drop)]
pub(crate) struct Certificate {
    /// What hears its lines.
    pub(crate) auditor: Auditor,
    /// Whether all lines so far hold.
    pub(crate) holds: bool,
    /// What has come of the next line, as long as they do.
    pub(crate) part: Vec<u8>,
}

impl Certificate {
    /// Nothing has come.
    pub(crate) fn new(alloc: Global) -> Certificate
        ensures heard { result.auditor ≢ Exhausted }
        ensures come { HasCome result [] [] }
    {
        hearing_is_judged();
        Certificate {
            auditor: Auditor::new(alloc),
            holds: true,
            part: Vec::new(alloc),
        }
    }

    /// These bytes come next, and each line that ends in them is heard.
    pub(crate) fn hear(&mut self, bytes: &[u8]) -> Result<(), NoMemory>
        requires heard { self.old.auditor ≢ Exhausted }
        ensures heard { OnOk result (self.new.auditor ≢ Exhausted) }
        ensures come { OnOk result ((texts : List (List ℕ)) (part : List ℕ) → HasCome self.old texts part
            → HasCome self.new (texts ++ lines_from part bytes.now) (part_from part bytes.now)) }
    {
        let mut rest = bytes;
        while let Some(end) = line_end(rest) {
            self.keep(&rest[..end])?;
            self.end_line()?;
            rest = &rest[end + 1..];
        }
        self.keep(rest)?;
        Ok(())
    }

    /// The line of the verdict, where no more bytes come. What stands behind the last line feed is a line too, where it isn't empty.
    pub(crate) fn reply(&mut self, alloc: Global) -> Result<Reply, NoMemory>
        requires heard { self.old.auditor ≢ Exhausted }
        ensures tells { IfOk result (λ reply. (texts : List (List ℕ)) (part : List ℕ) → HasCome self.old texts part
            → TellsVerdictOf (texts ++ last_line part) reply) }
    {
        hearing_is_judged();
        self.end_input()?;
        let verdict = self.auditor.verdict();
        verdict_line(alloc, verdict)
    }

    // Keeps these bytes of the next line.
    fn keep(&mut self, bytes: &[u8]) -> Result<(), NoMemory>
        requires heard { self.old.auditor ≢ Exhausted }
        ensures heard { OnOk result (self.new.auditor ≢ Exhausted) }
        ensures come { OnOk result ((texts : List (List ℕ)) (part : List ℕ) → HasCome self.old texts part
            → HasCome self.new texts (part ++ bytes.now)) }
    {
        if !self.holds {
            return Ok(());
        }
        self.part.extend_from_slice(bytes)?;
        Ok(())
    }

    // The next line has ended, and is heard.
    fn end_line(&mut self) -> Result<(), NoMemory>
        requires heard { self.old.auditor ≢ Exhausted }
        ensures heard { OnOk result (self.new.auditor ≢ Exhausted) }
        ensures come { OnOk result ((texts : List (List ℕ)) (part : List ℕ) → HasCome self.old texts part
            → HasCome self.new (texts ++ part ∷ []) []) }
    {
        hearing_is_judged();
        if !self.holds {
            return Ok(());
        }
        let holds = self.auditor.line(self.part.as_slice())?;
        self.holds = holds;
        self.part.clear();
        Ok(())
    }

    // No more bytes come: what has come of a line is the last one.
    fn end_input(&mut self) -> Result<(), NoMemory>
        requires heard { self.old.auditor ≢ Exhausted }
        ensures heard { OnOk result (self.new.auditor ≢ Exhausted) }
        ensures come { OnOk result ((texts : List (List ℕ)) (part : List ℕ) → HasCome self.old texts part
            → HasHeard self.new.auditor (texts ++ last_line part)) }
    {
        if !self.holds || self.part.is_empty() {
            return Ok(());
        }
        self.end_line()
    }
}

// The line of a verdict.
fn verdict_line(alloc: Global, verdict: Verdict) -> Result<Reply, NoMemory>
    ensures { IfOk result (λ reply. reply ≡ verdict_text verdict) }
{
    let text = match verdict {
        Verdict::Sound { changes, steps } => format!(in alloc; "sound {changes} {steps}\n")?,
        Verdict::Unsound { line } => format!(in alloc; "unsound {line}\n")?,
    };
    Ok(Reply::new(text.into_bytes()))
}
