//! How the cases are heard: lines stand between bars.
use grid_base::NoMemory;
use realm_audit::{Auditor, Verdict};
use std::alloc::{AllocError, Global};
use std::process::Abort;

/// Each certificate has the verdict beside it.
pub(crate) fn look_at_all(rt: &impl Abort, alloc: Global, rows: &[(&str, &str)]) {
    for (lines, expected) in rows {
        let verdict = verdict_on(alloc, lines).expect(rt, "memory");
        let told = told(alloc, verdict).expect(rt, "memory");
        assert_eq!(rt; told.as_str(), *expected, "{lines:?}");
    }
}

/// Whether the line holds behind these lines, which hold.
pub(crate) fn hears(rt: &impl Abort, alloc: Global, before: &str, line: &str) -> bool {
    let mut auditor = Auditor::new(alloc);
    for text in before.split('|') {
        let held = auditor.line(text.as_bytes()).expect(rt, "memory");
        assert!(rt; held, "{text:?}");
    }
    auditor.line(line.as_bytes()).expect(rt, "memory")
}

// The verdict on these lines.
fn verdict_on(alloc: Global, lines: &str) -> Result<Verdict, NoMemory> {
    let mut auditor = Auditor::new(alloc);
    for line in lines.split('|') {
        auditor.line(line.as_bytes())?;
    }
    Ok(auditor.verdict())
}

// The verdict in words.
fn told(alloc: Global, verdict: Verdict) -> Result<String, AllocError> {
    let mut text = String::new(alloc);
    match verdict {
        Verdict::Sound { changes, steps } => write!(text, "sound {changes} {steps}")?,
        Verdict::Unsound { line } => write!(text, "unsound {line}")?,
    }
    Ok(text)
}

#[test]
fn where_nothing_was_heard_the_first_line_is_missing(rt: HostRuntime) {
    let auditor = Auditor::new(rt.alloc());
    assert_eq!(rt; auditor.verdict(), Verdict::Unsound { line: 1 });
}
