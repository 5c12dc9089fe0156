//! Certificates that begin with hundreds of originals.
use crate::cases::hearing::look_at_all;
use std::alloc::{AllocError, Global};
use std::process::Abort;

// The original with the number i leads from (0, 2 i) to (10, 2 i).
const ROWS: u32 = 300;

// What comes behind the rows, and the verdict on all of it.
static BEHIND: [(&str, &str); 7] = [
    ("end", "sound 0 0"),
    // Two rows are crossed, and the second is left so.
    (
        "change|segment 301 5 0 5 5|meet 0 2 10 2 5 0 5 5 5 2|meet 0 4 10 4 5 2 5 5 5 4|end",
        "sound 1 2",
    ),
    (
        "change|segment 301 5 0 5 5|meet 0 2 10 2 5 0 5 5 5 2|end",
        "unsound 304",
    ),
    // All of them are crossed as it begins.
    ("original 301 3 0 3 601|change|end", "unsound 302"),
    // The last row is there twice: by the same id, and by another one.
    ("original 300 0 600 10 600|end", "unsound 301"),
    (
        "original 301 0 600 10 600|change|remove 300|end",
        "sound 1 0",
    ),
    // A row that is gone is drawn again.
    (
        "change|remove 150|change|segment 301 0 300 10 300|change|segment 302 5 299 5 301|\
         meet 0 300 10 300 5 299 5 301 5 300|end",
        "sound 3 1",
    ),
];

// The lines of the rows, and these behind them.
fn behind_rows(alloc: Global, lines: &str) -> Result<String, AllocError> {
    let mut text = String::new(alloc);
    for id in 1..=ROWS {
        let y = 2 * id;
        write!(text, "original {id} 0 {y} 10 {y}|")?;
    }
    text.push_str(lines)?;
    Ok(text)
}

#[test]
fn hundreds_of_originals_go_on(rt: HostRuntime) {
    for (lines, verdict) in BEHIND.iter() {
        let text = behind_rows(rt.alloc(), lines).expect(&rt, "memory");
        look_at_all(&rt, rt.alloc(), &[(text.as_str(), *verdict)]);
    }
}
