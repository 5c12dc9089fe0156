//! Words behind the program's name.
use command_words::{Word, read_words};
use std::alloc::Global;
use std::process::Abort;

// The words between bars.
fn parts(rt: &impl Abort, alloc: Global, text: &str) -> Vec<String> {
    let mut words = Vec::new(alloc);
    for part in text.split('|') {
        let word = String::from_str(alloc, part).expect(rt, "memory");
        words.push(word).expect(rt, "memory");
    }
    words
}

// What is found: 0 for nothing, 1 for `run`, 2 for `check`, 3 with both numbers for `gen`, 4 with its number for `ship`, 5 for
// `follow`, 6 for `audit`, and 7 for `certify`.
fn found(rt: &impl Abort, alloc: Global, words: &[String]) -> (u8, u64, u64) {
    match read_words(alloc, words).expect(rt, "memory") {
        None => (0, 0, 0),
        Some(Word::Run) => (1, 0, 0),
        Some(Word::Check) => (2, 0, 0),
        Some(Word::Gen { lines, start }) => (3, lines, start),
        Some(Word::Ship { changes }) => (4, changes, 0),
        Some(Word::Follow) => (5, 0, 0),
        Some(Word::Audit) => (6, 0, 0),
        Some(Word::Certify) => (7, 0, 0),
    }
}

// Words, and what is found.
static WORDS: [(&str, (u8, u64, u64)); 60] = [
    ("run", (1, 0, 0)),
    ("check", (2, 0, 0)),
    ("gen|1|7", (3, 1, 7)),
    ("gen|0|0", (3, 0, 0)),
    (
        "gen|100000|9999999999999999999",
        (3, 100_000, 9_999_999_999_999_999_999),
    ),
    ("ship|0", (4, 0, 0)),
    (
        "ship|9999999999999999999",
        (4, 9_999_999_999_999_999_999, 0),
    ),
    ("follow", (5, 0, 0)),
    ("audit", (6, 0, 0)),
    ("certify", (7, 0, 0)),
    ("ship", (0, 0, 0)),
    ("ship|", (0, 0, 0)),
    ("ship|1|2", (0, 0, 0)),
    ("ship|01", (0, 0, 0)),
    ("ship|+1", (0, 0, 0)),
    ("ship|-1", (0, 0, 0)),
    ("ship|10000000000000000000", (0, 0, 0)),
    ("ship|18446744073709551615", (0, 0, 0)),
    ("ship|18446744073709551616", (0, 0, 0)),
    ("1|ship", (0, 0, 0)),
    ("follow|0", (0, 0, 0)),
    ("follow|follow", (0, 0, 0)),
    ("ship|follow", (0, 0, 0)),
    ("Follow", (0, 0, 0)),
    ("audit|x", (0, 0, 0)),
    ("Audit", (0, 0, 0)),
    ("check|audit", (0, 0, 0)),
    ("certify|0", (0, 0, 0)),
    ("certify|certify", (0, 0, 0)),
    ("Certify", (0, 0, 0)),
    ("certif", (0, 0, 0)),
    ("", (0, 0, 0)),
    ("run|", (0, 0, 0)),
    ("Run", (0, 0, 0)),
    ("run|x", (0, 0, 0)),
    ("check|x", (0, 0, 0)),
    ("help", (0, 0, 0)),
    ("--help", (0, 0, 0)),
    ("help|run", (0, 0, 0)),
    ("run|--help", (0, 0, 0)),
    ("run|--", (0, 0, 0)),
    ("--|run", (0, 0, 0)),
    ("gen|--|1|7", (0, 0, 0)),
    ("run|run", (0, 0, 0)),
    ("ru", (0, 0, 0)),
    ("gen", (0, 0, 0)),
    ("gen|1", (0, 0, 0)),
    ("gen|1|7|", (0, 0, 0)),
    ("gen|1|2|3", (0, 0, 0)),
    ("gen|01|7", (0, 0, 0)),
    ("gen|1|07", (0, 0, 0)),
    ("gen|+1|7", (0, 0, 0)),
    ("gen|1|-7", (0, 0, 0)),
    ("gen|1|", (0, 0, 0)),
    ("gen||7", (0, 0, 0)),
    ("gen|100001|7", (0, 0, 0)),
    ("gen|1|10000000000000000000", (0, 0, 0)),
    ("gen|1|18446744073709551615", (0, 0, 0)),
    ("gen|1|18446744073709551616", (0, 0, 0)),
    ("gen|1|7 ", (0, 0, 0)),
];

#[test]
fn worked_words(rt: HostRuntime) {
    let alloc = rt.alloc();
    for (text, wanted) in WORDS.iter() {
        let words = parts(&rt, alloc, text);
        assert!(rt; found(&rt, alloc, words.as_slice()) == *wanted, "{text}");
    }
    let none: Vec<String> = Vec::new(alloc);
    assert!(rt; found(&rt, alloc, none.as_slice()) == (0, 0, 0));
}
