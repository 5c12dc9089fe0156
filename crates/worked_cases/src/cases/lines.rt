//! Lines, and the places where they go wrong, worked out on paper from the grammar in
//! `docs/formats/LINES.md`.
use grid_base::Reply;
use line_grammar::{
    At, Change, Command, KeyedNames, LineError, Name, Names, Path, Paths, Query,
    a_change_is_a_line, one_command_a_text, read_line, spellable, spellable_change, write_change,
    write_line,
};
use rose_values::{Num, Op};
use std::alloc::Global;
use std::process::Abort;

// The first word, and what may not follow it.
static WORDS: [(&str, usize); 26] = [
    ("", 0),
    (" ", 0),
    ("x", 0),
    ("Point 1 1", 0),
    (" point 1 1", 0),
    ("p", 1),
    ("beg", 3),
    ("dp", 1),
    ("point", 5),
    ("pointx", 5),
    ("points", 6),
    ("pointsx", 6),
    ("unpoint", 7),
    ("unpoints 1 1", 7),
    ("seg", 3),
    ("segments", 7),
    ("real", 4),
    ("realms", 5),
    ("realm ", 5),
    ("realm\r", 5),
    ("reg", 3),
    ("chew", 3),
    ("cha", 3),
    ("check", 5),
    ("checkpoint ", 10),
    ("checkpoint\r", 10),
];

// Numbers and places.
static NUMBERS: [(&str, usize); 35] = [
    ("point ", 6),
    ("point 1", 7),
    ("point 1 ", 8),
    ("point  1 1", 6),
    ("point 1  1", 8),
    ("point 01 2", 7),
    ("point 1 02", 9),
    ("point 00 1", 7),
    ("point -1 2", 6),
    ("point 1,2", 7),
    ("point 1\t2", 7),
    ("point 1 2 3", 9),
    ("point 1 2 ", 9),
    ("point 1 2\r", 9),
    ("point 12345678901234567890 1", 25),
    ("point 1 12345678901234567890", 27),
    ("unpoint 1 01", 11),
    ("segment 0 0 10", 14),
    ("segment 01 0 1 1", 9),
    ("segment 0 0 10 ", 15),
    ("segment 0 0 10 4 5", 16),
    ("segment 0 0 ten 4", 12),
    ("segment 0 0\n1 1", 11),
    ("delete", 6),
    ("delete x", 7),
    ("delete 07", 8),
    ("delete 1 ", 8),
    ("delete 18446744073709551616", 26),
    ("chain p", 6),
    ("chain 1 2", 7),
    ("trace r", 6),
    ("trace 1 1", 7),
    ("batch -1", 6),
    ("batch 1x", 7),
    ("batch 10000000000000000000", 25),
];

// Places and lists of places behind a name.
static LISTS: [(&str, usize); 25] = [
    ("points ", 7),
    ("points P", 7),
    ("points _a", 7),
    ("points 1 1", 7),
    ("points p ", 9),
    ("points p 1", 10),
    ("points p 1 1 2", 14),
    ("points p 1 1 ; 2 2", 13),
    ("points p  1 1", 9),
    ("points p-q", 8),
    ("points p1 1 1x", 13),
    ("points abcdefghijklmnopqrstuvwxyz_012345", 39),
    ("lines", 5),
    ("lines l ", 8),
    ("lines l 0 0 ;", 13),
    ("lines l ; 0 0", 8),
    ("lines l 0 0 ; ; 1 1", 14),
    ("lines l 0 0; 1 1", 11),
    ("lines l 0 0 ;1 1", 13),
    ("lines l 0 ; 1 1", 10),
    ("regions r 0 0 ;", 15),
    ("regions r 0 0 ; ", 16),
    ("regions r 0 0 ; 1", 17),
    ("regions r 0 0 ; 1 1 ; ", 22),
    ("regions r 0 0  ; 1 1", 14),
];

// Names, operators, predicates and numbers of values.
static NAMES: [(&str, usize); 39] = [
    ("let p", 5),
    ("let p=plus q r", 5),
    ("let p =", 7),
    ("let p =  plus q r", 8),
    ("let p == plus q r", 7),
    ("let p = inx q", 10),
    ("let p = plus", 12),
    ("let p = plus q", 14),
    ("let p = plus q ", 15),
    ("let p = plus q r s", 16),
    ("let p = contour q r", 17),
    ("let p = common q r", 14),
    ("let p = equal q r", 8),
    ("let 1 = plus q r", 4),
    ("let p = plus q 1", 15),
    ("drop", 4),
    ("drop ", 5),
    ("drop p q", 6),
    ("drop 7", 5),
    ("show P", 5),
    ("show p ", 6),
    ("show é", 5),
    ("eval plus p", 11),
    ("eval vertices p q", 15),
    ("eval p", 6),
    ("eval area2 r", 5),
    ("ask equal p", 11),
    ("ask equal p q r", 13),
    ("ask on_border p q", 13),
    ("ask edge p q", 8),
    ("ask plus p q", 4),
    ("num area2", 9),
    ("num area2 r s", 11),
    ("num dist2 p", 11),
    ("num area r", 8),
    ("num diameter r", 12),
    ("num no_of_components", 20),
    ("faces r s", 7),
    ("faces 1", 6),
];

// Lists of names, with keys and in two lists.
static SETS: [(&str, usize); 26] = [
    ("su", 2),
    ("sum", 3),
    ("sums", 3),
    ("sum ", 4),
    ("sum p ", 6),
    ("sum p  q", 6),
    ("sum p 1", 6),
    ("sum p ; q", 6),
    ("de", 2),
    ("decompose", 9),
    ("decompose p q", 11),
    ("overlay", 7),
    ("overlay ; q", 8),
    ("overlay p", 9),
    ("overlay p q", 11),
    ("overlay p ;", 11),
    ("overlay p ; ", 12),
    ("overlay p; q", 9),
    ("overlay p ;q", 11),
    ("overlay p ; q ;", 14),
    ("overlay p ; q r ; s", 16),
    ("fusion", 6),
    ("fusion p", 8),
    ("fusion p 1 q", 12),
    ("fusion p 01", 10),
    ("fusion p q", 9),
];

// Every form, operator, predicate and number, with the longest name and the longest number.
static GOOD: [&str; 54] = [
    "point 0 9999999999999999999",
    "unpoint 7 0",
    "segment 4 5 6 7",
    "points p",
    "points p 1 1 2 2 1 1",
    "points abcdefghijklmnopqrstuvwxyz_01234 1 1",
    "lines l",
    "lines l 0 0",
    "lines l 0 0 1 1 ; 2 2",
    "regions r",
    "regions r 0 0 4 0 4 4 ; 9 9 8 8 9 8 ; 1 2",
    "let p = intersection q r",
    "let p = plus p p",
    "let p = minus q r",
    "let p = common_border q r",
    "let p = vertices q",
    "let p = contour q",
    "let p = interior q",
    "drop z9_",
    "delete 0",
    "realm",
    "show p",
    "chain 12",
    "eval minus a b",
    "eval interior a",
    "ask equal a b",
    "ask inside a b",
    "ask edge_inside a b",
    "ask vertex_inside a b",
    "ask area_disjoint a b",
    "ask edge_disjoint a b",
    "ask disjoint a b",
    "ask intersects a b",
    "ask meets a b",
    "ask adjacent a b",
    "ask encloses a b",
    "ask on_border_of a b",
    "ask border_in_common a b",
    "num area2 r",
    "num dist2 p q",
    "num diameter2 r",
    "num no_of_components r",
    "faces r",
    "trace 3",
    "sum p",
    "sum a b abcdefghijklmnopqrstuvwxyz_01234 a",
    "decompose p",
    "overlay a ; b",
    "overlay a a b ; c d",
    "overlay a ; b c",
    "fusion p 0",
    "fusion p 9999999999999999999 q 2 p 2",
    "batch 2",
    "checkpoint",
];

// Names, and whether a line can have them.
static TEXTS: [(&str, bool); 9] = [
    ("p", true),
    ("z_9", true),
    ("abcdefghijklmnopqrstuvwxyz_01234", true),
    ("abcdefghijklmnopqrstuvwxyz_012345", false),
    ("", false),
    ("P", false),
    ("9", false),
    ("a b", false),
    ("a-b", false),
];

// The first line of the table that isn't refused at its place.
fn other_place<'a>(alloc: Global, table: &[(&'a str, usize)]) -> Option<&'a str> {
    for (line, place) in table {
        match read_line(alloc, line.as_bytes()) {
            Err(LineError::Bad { at }) if at == *place => (),
            _ => return Some(*line),
        }
    }
    None
}

#[test]
fn other_lines_are_refused_where_they_go_wrong(rt: HostRuntime) {
    assert!(rt; other_place(rt.alloc(), &WORDS).is_none());
    assert!(rt; other_place(rt.alloc(), &NUMBERS).is_none());
    assert!(rt; other_place(rt.alloc(), &LISTS).is_none());
    assert!(rt; other_place(rt.alloc(), &NAMES).is_none());
    assert!(rt; other_place(rt.alloc(), &SETS).is_none());
}

// The line of the command that the line is read as.
fn written_again(alloc: Global, line: &str) -> Option<Reply> {
    match read_line(alloc, line.as_bytes()) {
        Ok(Command::Change(change)) => write_change(alloc, &change).ok(),
        Ok(command) => write_line(alloc, &command).ok(),
        Err(_) => None,
    }
}

// The first line that is written otherwise than it was read.
fn other_line<'a>(alloc: Global, lines: &[&'a str]) -> Option<&'a str> {
    for line in lines {
        match written_again(alloc, line) {
            Some(reply) if reply.bytes() == line.as_bytes() => (),
            _ => return Some(*line),
        }
    }
    None
}

#[test]
fn every_form_is_read_and_written(rt: HostRuntime) {
    one_command_a_text();
    a_change_is_a_line();
    assert!(rt; other_line(rt.alloc(), &GOOD).is_none());
}

#[test]
fn the_parts_of_a_line_are_its_command(rt: HostRuntime) {
    let found = read_line(rt.alloc(), b"regions r2 1 2 3 4 ; 5 6");
    let Ok(Command::Change(Change::Regions(name, paths))) = found else {
        panic!(rt; "another command");
    };
    assert!(rt; name.into_text().as_str() == "r2");
    let mut paths = paths.into_paths();
    let last = paths.pop().expect(&rt, "a list");
    let first = paths.pop().expect(&rt, "two lists");
    assert!(rt; paths.is_empty());
    assert!(rt; last.places() == PLACES.split_at(2).1);
    assert!(rt; first.into_places().as_slice() == PLACES.split_at(2).0);
}

#[test]
fn the_names_of_a_line_are_its_command(rt: HostRuntime) {
    let found = read_line(rt.alloc(), b"overlay a b ; c");
    let Ok(Command::Query(Query::Overlay(first, second))) = found else {
        panic!(rt; "another command");
    };
    assert!(rt; second.names().len() == 1);
    let mut names = first.into_names();
    assert!(rt; names.len() == 2);
    assert!(rt; names.pop().expect(&rt, "a name").text() == "b");
    let found = read_line(rt.alloc(), b"fusion p 7 q 5");
    let Ok(Command::Query(Query::Fusion(keyed))) = found else {
        panic!(rt; "another command");
    };
    assert!(rt; keyed.names().len() == 2);
    let (last, key) = keyed.into_names().pop().expect(&rt, "a name");
    assert!(rt; last.text() == "q" && key == 5);
}

static PLACES: [At; 3] = [At { x: 1, y: 2 }, At { x: 3, y: 4 }, At { x: 5, y: 6 }];

fn name(rt: &impl Abort, alloc: Global, text: &str) -> Name {
    Name::new(String::from_str(alloc, text).expect(rt, "memory"))
}

// The first name of the table for which that isn't so.
fn other_name<'a>(rt: &impl Abort, alloc: Global, table: &[(&'a str, bool)]) -> Option<&'a str> {
    for (text, expected) in table {
        if spellable_change(&Change::Drop(name(rt, alloc, text))) != *expected {
            return Some(*text);
        }
    }
    None
}

#[test]
fn some_names_have_no_line(rt: HostRuntime) {
    assert!(rt; other_name(&rt, rt.alloc(), &TEXTS).is_none());
}

#[test]
fn some_numbers_have_no_line(rt: HostRuntime) {
    assert!(rt; spellable(&Command::Batch(9_999_999_999_999_999_999)));
    assert!(rt; !spellable(&Command::Batch(10_000_000_000_000_000_000)));
}

#[test]
fn some_commands_have_no_line(rt: HostRuntime) {
    let alloc = rt.alloc();
    let (p, q) = (name(&rt, alloc, "p"), name(&rt, alloc, "q"));
    let two = Query::Eval(Op::Contour, p, Some(q));
    assert!(rt; !spellable(&Command::Query(two)));
    let one = Query::Num(Num::Dist2, name(&rt, alloc, "p"), None);
    assert!(rt; !spellable(&Command::Query(one)));
    let none = Query::Sum(Names::new(Vec::new(alloc)));
    assert!(rt; !spellable(&Command::Query(none)));
    let no_key = Query::Fusion(KeyedNames::new(Vec::new(alloc)));
    assert!(rt; !spellable(&Command::Query(no_key)));
}

// The lines of no path have a line, and those of an empty one don't.
#[test]
fn some_lists_have_no_line(rt: HostRuntime) {
    let alloc = rt.alloc();
    let mut paths = Vec::new(alloc);
    let none = Change::Lines(name(&rt, alloc, "l"), Paths::new(Vec::new(alloc)));
    assert!(rt; spellable_change(&none));
    paths.push(Path::new(Vec::new(alloc))).expect(&rt, "memory");
    let empty = Change::Lines(name(&rt, alloc, "l"), Paths::new(paths));
    assert!(rt; !spellable_change(&empty));
}

// A line of a million bytes, with 250,000 places.
#[test]
fn a_long_line_is_read(rt: HostRuntime) {
    let mut line = String::from_str(rt.alloc(), "points p").expect(&rt, "memory");
    for _ in 0..250_000 {
        line.push_str(" 1 1").expect(&rt, "memory");
    }
    let Ok(Command::Change(Change::Points(_, path))) = read_line(rt.alloc(), line.as_bytes()) else {
        panic!(rt; "refused");
    };
    assert!(rt; path.places().len() == 250_000);
}
