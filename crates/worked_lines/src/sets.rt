//! Sums, parts, overlays and fusions of values, from empty files on. The replies were worked out on squared paper.
use crate::sessions::compare;

static SUMS: [(&str, &str); 5] = [
    // Two squares that overlap.
    (
        "regions a 0 0 4 0 4 4 0 4\nregions b 2 2 6 2 6 6 2 6\nsum a b\noverlay a ; b\n",
        "ok 1 steps 0 first 1 new 4\nok 2 steps 2 first 5 new 4\n\
         regions 8\n0 0 0 4\n0 0 4 0\n0 4 2 4\n2 4 2 6\n2 6 6 6\n4 0 4 2\n4 2 6 2\n6 2 6 6\n\
         set 1\npair 1 1\nregions 4\n2 2 2 4\n2 2 4 2\n2 4 4 4\n4 2 4 4\n",
    ),
    // A side between two squares is no border of their sum, and a third region stands apart.
    (
        "regions a 0 0 2 0 2 2 0 2\nregions b 2 0 4 0 4 2 2 2\nregions c 0 4 4 4 4 6 0 6\nsum b a\nsum c a b\n",
        "ok 1 steps 0 first 1 new 4\nok 2 steps 0 first 5 new 4\nok 3 steps 0 first 9 new 4\n\
         regions 6\n0 0 0 2\n0 0 2 0\n0 2 2 2\n2 0 4 0\n2 2 4 2\n4 0 4 2\n\
         regions 10\n0 0 0 2\n0 0 2 0\n0 2 2 2\n0 4 0 6\n0 4 4 4\n0 6 4 6\n2 0 4 0\n2 2 4 2\n4 0 4 2\n4 4 4 6\n",
    ),
    // Points and lines, each once; the last value counts as the first does.
    (
        "points p 3 3 1 1\npoints q 2 2 1 1\nlines l 0 5 1 5\nlines k 1 5 2 5 ; 0 5 1 5\nsum p q\nsum l k\nsum q\n",
        "ok 1 steps 0 first 1 new 0\nok 2 steps 0 first 1 new 0\nok 3 steps 0 first 1 new 1\nok 4 steps 0 first 2 new 2\n\
         points 3\n1 1\n2 2\n3 3\nlines 2\n0 5 1 5\n1 5 2 5\npoints 2\n1 1\n2 2\n",
    ),
    // A value twice.
    (
        "regions a 0 0 2 0 2 2 0 2\npoints p 1 1\nsum a a\nsum p p p\noverlay a a ; a\nfusion a 1 a 1\nfusion a 2 a 1\n",
        "ok 1 steps 0 first 1 new 4\nok 2 steps 0 first 5 new 0\n\
         regions 4\n0 0 0 2\n0 0 2 0\n0 2 2 2\n2 0 2 2\npoints 1\n1 1\n\
         set 2\npair 1 1\nregions 4\n0 0 0 2\n0 0 2 0\n0 2 2 2\n2 0 2 2\n\
         pair 2 1\nregions 4\n0 0 0 2\n0 0 2 0\n0 2 2 2\n2 0 2 2\n\
         set 1\nkey 1\nregions 4\n0 0 0 2\n0 0 2 0\n0 2 2 2\n2 0 2 2\n\
         set 2\nkey 1\nregions 4\n0 0 0 2\n0 0 2 0\n0 2 2 2\n2 0 2 2\n\
         key 2\nregions 4\n0 0 0 2\n0 0 2 0\n0 2 2 2\n2 0 2 2\n",
    ),
    // Nothing: of each kind, beside something, and in each of the four.
    (
        "regions e\npoints n\nlines k\nregions a 0 0 2 0 2 2 0 2\nsum e\nsum n n\nsum k\nsum e a\n\
         decompose e\ndecompose n\ndecompose k\noverlay e ; a\noverlay e a ; a e\nfusion e 1\nfusion e 7 a 7\n",
        "ok 1 steps 0 first 1 new 0\nok 2 steps 0 first 1 new 0\nok 3 steps 0 first 1 new 0\nok 4 steps 0 first 1 new 4\n\
         regions 0\npoints 0\nlines 0\nregions 4\n0 0 0 2\n0 0 2 0\n0 2 2 2\n2 0 2 2\n\
         set 0\nset 0\nset 0\nset 0\nset 1\npair 2 1\nregions 4\n0 0 0 2\n0 0 2 0\n0 2 2 2\n2 0 2 2\n\
         set 1\nkey 1\nregions 0\nset 1\nkey 7\nregions 4\n0 0 0 2\n0 0 2 0\n0 2 2 2\n2 0 2 2\n",
    ),
];

#[test]
fn values_are_summed(rt: HostRuntime) {
    compare(&rt, rt.alloc(), &SUMS);
}

static PARTS: [(&str, &str); 4] = [
    // Lines that meet in an end are one part, and parts stand by their least segments.
    (
        "lines l 5 5 6 5 ; 0 0 1 0 ; 1 0 1 1\npoints p 3 3 1 1\ndecompose l\ndecompose p\n",
        "ok 1 steps 0 first 1 new 3\nok 2 steps 0 first 4 new 0\n\
         set 2\nlines 2\n0 0 1 0\n1 0 1 1\nlines 1\n5 5 6 5\nset 2\npoints 1\n1 1\npoints 1\n3 3\n",
    ),
    // Two squares with a corner in common are two parts.
    (
        "regions a 2 2 4 2 4 4 2 4 ; 0 0 2 0 2 2 0 2\ndecompose a\n",
        "ok 1 steps 0 first 1 new 8\nset 2\nregions 4\n0 0 0 2\n0 0 2 0\n0 2 2 2\n2 0 2 2\n\
         regions 4\n2 2 2 4\n2 2 4 2\n2 4 4 4\n4 2 4 4\n",
    ),
    // A square with a hole, and an island in it.
    (
        "regions a 5 5 7 5 7 7 5 7 ; 0 0 12 0 12 12 0 12 ; 3 3 9 3 9 9 3 9\ndecompose a\n",
        "ok 1 steps 0 first 1 new 12\nset 2\nregions 8\n0 0 0 12\n0 0 12 0\n0 12 12 12\n\
         3 3 3 9\n3 3 9 3\n3 9 9 9\n9 3 9 9\n12 0 12 12\nregions 4\n5 5 5 7\n5 5 7 5\n5 7 7 7\n7 5 7 7\n",
    ),
    // The face whose outer cycle begins first stands first, though another reaches further down.
    (
        "regions a 3 0 5 0 5 2 3 2 ; 0 4 2 4 2 6 0 6\ndecompose a\n",
        "ok 1 steps 0 first 1 new 8\nset 2\nregions 4\n0 4 0 6\n0 4 2 4\n0 6 2 6\n2 4 2 6\n\
         regions 4\n3 0 3 2\n3 0 5 0\n3 2 5 2\n5 0 5 2\n",
    ),
];

#[test]
fn values_fall_into_parts(rt: HostRuntime) {
    compare(&rt, rt.alloc(), &PARTS);
}

static OVERLAYS: [(&str, &str); 3] = [
    // A zone across the side that two parcels share, and beside a third.
    (
        "regions a 0 0 4 0 4 4 0 4\nregions b 4 0 8 0 8 4 4 4\nregions c 10 0 12 0 12 2 10 2\n\
         regions z 2 1 6 1 6 3 2 3\noverlay c a b ; z\noverlay z ; b c a\n",
        "ok 1 steps 0 first 1 new 4\nok 2 steps 0 first 5 new 4\nok 3 steps 0 first 9 new 4\n\
         ok 4 steps 2 first 13 new 4\n\
         set 2\npair 2 1\nregions 4\n2 1 2 3\n2 1 4 1\n2 3 4 3\n4 1 4 3\n\
         pair 3 1\nregions 4\n4 1 4 3\n4 1 6 1\n4 3 6 3\n6 1 6 3\n\
         set 2\npair 1 1\nregions 4\n4 1 4 3\n4 1 6 1\n4 3 6 3\n6 1 6 3\n\
         pair 1 3\nregions 4\n2 1 2 3\n2 1 4 1\n2 3 4 3\n4 1 4 3\n",
    ),
    // A corner in common, and boxes that meet though the regions don't.
    (
        "regions a 0 0 4 0 0 4\nregions b 4 0 8 0 8 4\nregions c 4 4 4 2 2 4\noverlay a ; b c\n",
        "ok 1 steps 0 first 1 new 3\nok 2 steps 0 first 4 new 3\nok 3 steps 0 first 7 new 3\nset 0\n",
    ),
    // A side in common.
    (
        "regions a 0 0 2 0 2 2 0 2\nregions b 2 0 4 0 4 2 2 2\noverlay a ; b\n",
        "ok 1 steps 0 first 1 new 4\nok 2 steps 0 first 5 new 4\nset 0\n",
    ),
];

#[test]
fn regions_are_overlaid(rt: HostRuntime) {
    compare(&rt, rt.alloc(), &OVERLAYS);
}

static FUSIONS: [(&str, &str); 2] = [
    (
        "points p 1 1\npoints q 2 2\npoints r 3 3\nlines l 0 0 1 0 ; 5 5 6 5\n\
         fusion p 5 q 2 r 5\ndecompose l\nsum p l\n",
        "ok 1 steps 0 first 1 new 0\nok 2 steps 0 first 1 new 0\nok 3 steps 0 first 1 new 0\nok 4 steps 0 first 1 new 2\n\
         set 2\nkey 2\npoints 1\n2 2\nkey 5\npoints 2\n1 1\n3 3\n\
         set 2\nlines 1\n0 0 1 0\nlines 1\n5 5 6 5\nno types\n",
    ),
    // Equal keys alone, the greatest key that a line can say, and keys by their size and not by their digits.
    (
        "regions a 0 0 2 0 2 2 0 2\nregions b 2 0 4 0 4 2 2 2\nfusion a 5 b 5\n\
         fusion a 9999999999999999999 b 0\nfusion b 10 a 9\n",
        "ok 1 steps 0 first 1 new 4\nok 2 steps 0 first 5 new 4\n\
         set 1\nkey 5\nregions 6\n0 0 0 2\n0 0 2 0\n0 2 2 2\n2 0 4 0\n2 2 4 2\n4 0 4 2\n\
         set 2\nkey 0\nregions 4\n2 0 2 2\n2 0 4 0\n2 2 4 2\n4 0 4 2\n\
         key 9999999999999999999\nregions 4\n0 0 0 2\n0 0 2 0\n0 2 2 2\n2 0 2 2\n\
         set 2\nkey 9\nregions 4\n0 0 0 2\n0 0 2 0\n0 2 2 2\n2 0 2 2\n\
         key 10\nregions 4\n2 0 2 2\n2 0 4 0\n2 2 4 2\n4 0 4 2\n",
    ),
];

#[test]
fn values_with_one_key_are_fused(rt: HostRuntime) {
    compare(&rt, rt.alloc(), &FUSIONS);
}

static REFUSED: [(&str, &str); 3] = [
    // Each has a name at least, and `fusion` a key behind each.
    (
        "sum\nsum \nsum p ; q\noverlay a\noverlay ; b\noverlay a ; b ; c\nfusion\nfusion p\nfusion p x\ndecompose\n",
        "no line 3\nno line 4\nno line 6\nno line 9\nno line 8\nno line 14\nno line 6\nno line 8\nno line 9\nno line 9\n",
    ),
    // Kinds that differ, and a kind that isn't taken.
    (
        "points p 1 1\nlines l 0 0 1 0\nregions r 4 0 6 0 6 2 4 2\nregions e\nsum p l\nsum r l\nsum e p\n\
         fusion p 1 l 2\nfusion r 1 e 2 l 3\noverlay r ; l\noverlay p ; r\noverlay l ; l\noverlay r ; r e p\n",
        "ok 1 steps 0 first 1 new 0\nok 2 steps 0 first 1 new 1\nok 3 steps 0 first 2 new 4\nok 4 steps 0 first 6 new 0\n\
         no types\nno types\nno types\nno types\nno types\nno types\nno types\nno types\nno types\n",
    ),
    // A name that isn't there is told before kinds that differ, wherever it stands.
    (
        "points p 1 1\nlines l 0 0 1 0\nsum m p\nsum p l m\ndecompose m\noverlay p ; m\noverlay m ; p\n\
         fusion p 1 l 2 m 3\nfusion m 1\nsum p\n",
        "ok 1 steps 0 first 1 new 0\nok 2 steps 0 first 1 new 1\nno no-name\nno no-name\nno no-name\nno no-name\nno no-name\n\
         no no-name\nno no-name\npoints 1\n1 1\n",
    ),
];

#[test]
fn other_sets_are_refused(rt: HostRuntime) {
    compare(&rt, rt.alloc(), &REFUSED);
}

// The four in one batch, behind a refusal, and in a group, whose values they see.
static TOGETHER: [(&str, &str); 2] = [
    (
        "regions a 0 0 2 0 2 2 0 2\npoints p 1 1\nbatch 5\nsum a p\nsum p\ndecompose p\noverlay a ; a\nfusion p 3\n",
        "ok 1 steps 0 first 1 new 4\nok 2 steps 0 first 5 new 0\nno types\npoints 1\n1 1\nset 1\npoints 1\n1 1\n\
         set 1\npair 1 1\nregions 4\n0 0 0 2\n0 0 2 0\n0 2 2 2\n2 0 2 2\nset 1\nkey 3\npoints 1\n1 1\n",
    ),
    (
        "begin\npoints p 1 1\nsum p\nabandon\nsum p\n",
        "ok begin\nok 1 steps 0 first 1 new 0\npoints 1\n1 1\nok abandon\nno no-name\n",
    ),
];

#[test]
fn sets_are_asked_for_in_batches_and_groups(rt: HostRuntime) {
    compare(&rt, rt.alloc(), &TOGETHER);
}
