//! The search for violations round one segment of the list, among the pieces that are near it. Most are pieces; of
//! one that isn't any more only the ends count. Of the pieces that make a violation a search takes the first by an order
//! of segments, whatever their keys are: so which is mended next depends on the drawing alone, and not on how it came into
//! memory.
ghost use Rattle.std.specs.Prelude.{◌≡◌, ◌≢◌, ◌⊎◌, ◌↔◌, IsTrue, IfOk, IfSome, IsNone, MatchOption, All, Contains};
ghost use Rattle.std.specs.Bool.{OnTrue};
ghost use Rattle.grid_base.specs.Point.{InBox, IsBefore};
ghost use Rattle.grid_base.specs.Segment.{GridSegment, IsEnd, BoxesMeet};
ghost use Rattle.grid_base.specs.Sides.{On, side};
ghost use Rattle.grid_base.specs.Crossing.{Inside, Cross};
ghost use Rattle.grid_base.specs.Drawing.{IsPoint, IsPiece};
ghost use Rattle.realm_drawing.specs.Keyed.{AreKeyed};
ghost use Rattle.realm_index.specs.Aside.{IsAlong};
ghost use Rattle.rose_values.specs.Border.{AreSegmentsAscending};
ghost use Rattle.hook_chain.specs.Mending.{IsPermitted, MendsCrossing};
ghost use Rattle.realm_insert.specs.Kept.{IsIndexed};
ghost use Rattle.realm_insert.specs.Clashes.{IsInsideNone, HasNoEndInside, NoClash, AreClear, IsOneRound, PartWays};
ghost use Rattle.realm_insert.specs.Clashes.{HasKeysRound, HasKeysAt, HasKeyAmong, HasPiecesRound, CanBeSearched};
ghost use Rattle.realm_insert.specs.Work.{IsClean};

use chain_laws::crossing_step;
use grid_base::{NoMemory, Point, Segment, Step, box_meets, cross_of, crosses, in_side};
use realm_drawing::Drawing;
use realm_index::NearIndex;
use rose_overlay::ascending_segments;
use std::alloc::Global;

// A step that mends a violation with `s` or an end of it; none where there is none. Among `pieces` are those that are near
// `s`.
pub(crate) fn violation_at(
    alloc: Global,
    drawing: &Drawing,
    pieces: &[Segment],
    s: &Segment,
) -> Result<Option<Step>, NoMemory>
    requires search { CanBeSearched drawing.now.drawing s.now pieces.now }
    ensures { IfOk result
        (λ found. MatchOption found (IsClean drawing.now.drawing s.now) (IsPermitted drawing.now.drawing)) }
{
    if drawing.key(s).is_some() {
        violation_of(alloc, drawing, pieces, s)
    } else {
        Ok(split_by_ends(drawing, pieces, s))
    }
}

// The same of the piece `s`. Most are clean, which is seen with nothing put in order.
pub(crate) fn violation_of(
    alloc: Global,
    drawing: &Drawing,
    pieces: &[Segment],
    s: &Segment,
) -> Result<Option<Step>, NoMemory>
    requires search { CanBeSearched drawing.now.drawing s.now pieces.now }
    requires piece { IsPiece drawing.now.drawing s.now }
    ensures { IfOk result
        (λ found. MatchOption found (IsClean drawing.now.drawing s.now) (IsPermitted drawing.now.drawing)) }
{
    if let Some(p) = drawing.explicit_inside(s) {
        return Ok(Some(Step::Split { p, t: *s }));
    }
    if are_clear(drawing, s, pieces) {
        return Ok(None);
    }
    let middle = middle_met(alloc, s, pieces)?;
    Ok(first_clash(drawing, s, pieces, &middle))
}

// Whether no piece of the list whose box meets that of `s` makes a violation with it.
fn are_clear(drawing: &Drawing, s: &Segment, pieces: &[Segment]) -> bool
    requires piece { IsPiece drawing.now.drawing s.now }
    requires pieces { All (IsPiece drawing.now.drawing) pieces.now }
    ensures { OnTrue result (AreClear drawing.now.drawing s.now pieces.now) }
{
    for t in pieces {
        if clash_met(drawing, s, t).is_some() {
            return false;
        }
    }
    true
}

// The one in the middle, by the order of segments, of those whose boxes meet that of `s`.
fn middle_met(alloc: Global, s: &Segment, pieces: &[Segment]) -> Result<Segment, NoMemory> {
    let mut met = Vec::new(alloc);
    for t in pieces {
        if box_meets(s, t) {
            met.push(*t)?;
        }
    }
    if met.is_empty() {
        return Ok(*s);
    }
    let half = met.len() / 2;
    let (_, middle, _) = met.as_mut_slice().select_nth_unstable(half);
    Ok(*middle)
}

// A step that mends a violation of the pieces `s` and one of those whose boxes meet its box: the first that has one by the
// order of segments, from `middle` on and then from the least. So a long piece that many cross is mostly cut far from its
// ends.
fn first_clash(drawing: &Drawing, s: &Segment, pieces: &[Segment], middle: &Segment) -> Option<Step>
    requires piece { IsPiece drawing.now.drawing s.now }
    requires pieces { All (IsPiece drawing.now.drawing) pieces.now }
    ensures { MatchOption result (AreClear drawing.now.drawing s.now pieces.now) (IsPermitted drawing.now.drawing) }
{
    let mut first: Option<FoundClash> = None;
    for t in pieces {
        if let Some(step) = sooner_clash(drawing, s, t, &first, middle) {
            first = Some(FoundClash { with: *t, step });
        }
    }
    match first {
        Some(found) => Some(found.step),
        None => None,
    }
}

// A piece that makes a violation with the one that is looked at, and the step that mends it.
#[derive(Clone, Copy)]
struct FoundClash {
    with: Segment,
    step: Step,
}

// A step that mends a violation of the two pieces, if their boxes meet and `t` comes before the piece that was found.
fn sooner_clash(
    drawing: &Drawing,
    s: &Segment,
    t: &Segment,
    found: &Option<FoundClash>,
    middle: &Segment,
) -> Option<Step>
    requires piece { IsPiece drawing.now.drawing s.now }
    requires other { IsPiece drawing.now.drawing t.now }
    ensures permitted { IfSome result (IsPermitted drawing.now.drawing) }
    ensures clear { IsNone result → IsNone found.now → BoxesMeet s.now t.now → NoClash drawing.now.drawing s.now t.now }
{
    if comes_before(t, found, middle) {
        clash_met(drawing, s, t)
    } else {
        None
    }
}

// Whether `t` comes before the piece that was found, from `middle` on and then from the least.
fn comes_before(t: &Segment, found: &Option<FoundClash>, middle: &Segment) -> bool
    ensures { IsNone found.now → IsTrue result }
{
    match found {
        None => true,
        Some(first) => match (t < middle, first.with < *middle) {
            (false, true) => true,
            (true, false) => false,
            _ => *t < first.with,
        },
    }
}

// A step that mends a violation of the two pieces, if their boxes meet.
fn clash_met(drawing: &Drawing, s: &Segment, t: &Segment) -> Option<Step>
    requires piece { IsPiece drawing.now.drawing s.now }
    requires other { IsPiece drawing.now.drawing t.now }
    ensures { MatchOption result (BoxesMeet s.now t.now → NoClash drawing.now.drawing s.now t.now)
        (IsPermitted drawing.now.drawing) }
{
    if box_meets(s, t) {
        clash(drawing, s, t)
    } else {
        None
    }
}

// The same, whether their boxes meet or not.
fn clash(drawing: &Drawing, s: &Segment, t: &Segment) -> Option<Step>
    requires piece { IsPiece drawing.now.drawing s.now }
    requires other { IsPiece drawing.now.drawing t.now }
    ensures { MatchOption result (NoClash drawing.now.drawing s.now t.now) (IsPermitted drawing.now.drawing) }
{
    if part_ways(s, t) {
        return None;
    }
    if let Some(step) = end_inside(drawing, s, t) {
        return Some(step);
    }
    if let Some(step) = end_inside(drawing, t, s) {
        return Some(step);
    }
    crossing_of(s, t)
}

// Whether the two lead different ways from a common end, or are one. Of the pieces that a search comes to most do.
fn part_ways(s: &Segment, t: &Segment) -> bool
    ensures part { IsTrue result → PartWays s.now t.now }
    ensures ordered { IsBefore t.now.a t.now.b }
{
    let (a, b) = (t.a(), t.b());
    if is_end(s, &a) {
        return is_apart(s, &b);
    }
    if is_end(s, &b) {
        return is_apart(s, &a);
    }
    false
}

fn is_end(s: &Segment, p: &Point) -> bool
    ensures { IsTrue result ↔ IsEnd p.now s.now }
{
    *p == s.a() || *p == s.b()
}

// Whether `p` is an end of `s` or off its line.
fn is_apart(s: &Segment, p: &Point) -> bool
    ensures { IsTrue result → IsEnd p.now s.now ⊎ (side s.now.a s.now.b p.now ≢ On) }
{
    is_end(s, p) || cross_of(s, p) != 0
}

// The step that mends the crossing of two pieces. Most don't cross, which is told before they are put in order.
fn crossing_of(s: &Segment, t: &Segment) -> Option<Step>
    ensures apart { IsNone result ↔ (Cross s.now t.now → ⊥) }
    ensures mends { IfSome result (MendsCrossing s.now t.now) }
{
    if crosses(s, t) {
        crossing_step(s, t)
    } else {
        None
    }
}

// The step to an end of `s` inside the piece `t`.
fn end_inside(drawing: &Drawing, s: &Segment, t: &Segment) -> Option<Step>
    requires piece { IsPiece drawing.now.drawing t.now }
    ensures { MatchOption result (HasNoEndInside drawing.now.drawing s.now t.now)
        (IsPermitted drawing.now.drawing) }
{
    if let Some(step) = split_at(drawing, &s.a(), t) {
        return Some(step);
    }
    split_at(drawing, &s.b(), t)
}

// The step to `p` inside the piece `t`; none where `p` is no point or isn't inside it.
fn split_at(drawing: &Drawing, p: &Point, t: &Segment) -> Option<Step>
    requires piece { IsPiece drawing.now.drawing t.now }
    ensures { MatchOption result (IsPoint drawing.now.drawing p.now → Inside p.now t.now → ⊥)
        (IsPermitted drawing.now.drawing) }
{
    if is_inside(p, t) && drawing.is_point(p) {
        Some(Step::Split { p: *p, t: *t })
    } else {
        None
    }
}

// Whether `p` is inside `t`. Most points that are near are its ends, which is told first.
fn is_inside(p: &Point, t: &Segment) -> bool
    ensures { IsTrue result ↔ Inside p.now t.now }
{
    *p != t.a() && *p != t.b() && in_side(t, p)
}

// The same of `s` where it is no piece, so that only its ends are left. What is near them is looked for by the index: a long
// piece that was cut has many others in its box.
pub(crate) fn split_at_ends(
    alloc: Global,
    drawing: &Drawing,
    index: &NearIndex,
    s: &Segment,
) -> Result<Option<Step>, NoMemory>
    requires indexed { IsIndexed drawing.now index.now }
    requires keyed { AreKeyed drawing.now }
    requires no_piece { IsPiece drawing.now.drawing s.now → ⊥ }
    ensures { IfOk result
        (λ found. MatchOption found (IsClean drawing.now.drawing s.now) (IsPermitted drawing.now.drawing)) }
{
    if let Some(step) = split_round(alloc, drawing, index, &s.a())? {
        return Ok(Some(step));
    }
    split_round(alloc, drawing, index, &s.b())
}

// A step to `p` inside a piece, the least by the order of segments; none where `p` is no point or inside no piece.
fn split_round(
    alloc: Global,
    drawing: &Drawing,
    index: &NearIndex,
    p: &Point,
) -> Result<Option<Step>, NoMemory>
    requires indexed { IsIndexed drawing.now index.now }
    requires keyed { AreKeyed drawing.now }
    ensures { IfOk result
        (λ found. MatchOption found (IsInsideNone drawing.now.drawing p.now) (IsPermitted drawing.now.drawing)) }
{
    let round = pieces_round(alloc, drawing, index, p)?;
    Ok(split_by(drawing, round.as_slice(), p))
}

// The same, of which the pieces near it are listed.
fn split_by_ends(drawing: &Drawing, pieces: &[Segment], s: &Segment) -> Option<Step>
    requires search { CanBeSearched drawing.now.drawing s.now pieces.now }
    requires no_piece { IsPiece drawing.now.drawing s.now → ⊥ }
    ensures { MatchOption result (IsClean drawing.now.drawing s.now) (IsPermitted drawing.now.drawing) }
{
    if let Some(step) = split_by(drawing, pieces, &s.a()) {
        return Some(step);
    }
    split_by(drawing, pieces, &s.b())
}

// The same, of which the pieces that have `p` inside are listed, among others.
fn split_by(drawing: &Drawing, pieces: &[Segment], p: &Point) -> Option<Step>
    requires pieces { All (IsPiece drawing.now.drawing) pieces.now }
    requires round { HasPiecesRound drawing.now.drawing p.now pieces.now }
    ensures { MatchOption result (IsInsideNone drawing.now.drawing p.now) (IsPermitted drawing.now.drawing) }
{
    if !drawing.is_point(p) {
        return None;
    }
    match least_round(pieces, p) {
        Some(t) => Some(Step::Split { p: *p, t }),
        None => None,
    }
}

// The least of the segments that have `p` inside.
fn least_round(list: &[Segment], p: &Point) -> Option<Segment>
    ensures { MatchOption result (All (λ t. Inside p.now t → ⊥) list.now) (IsOneRound p.now list.now) }
{
    let mut least = None;
    for t in list {
        if in_side(t, p) && is_less(t, &least) {
            least = Some(*t);
        }
    }
    least
}

// Whether `t` comes before the segment that was found.
fn is_less(t: &Segment, found: &Option<Segment>) -> bool
    ensures { IsNone found.now → IsTrue result }
{
    match found {
        None => true,
        Some(least) => t < least,
    }
}

// The pieces whose boxes meet that of `near`, in no order.
pub(crate) fn pieces_near(
    alloc: Global,
    drawing: &Drawing,
    index: &NearIndex,
    near: &Segment,
) -> Result<Vec<Segment>, NoMemory>
    requires indexed { IsIndexed drawing.now index.now }
    requires keyed { AreKeyed drawing.now }
    ensures { IfOk result (λ list. (t : GridSegment)
        → Contains list.items t ↔ (IsPiece drawing.now.drawing t × BoxesMeet near.now t)) }
{
    let keys = index.meeting_unordered(near)?;
    pieces_met(alloc, drawing, keys.as_slice(), near)
}

// The same, of which the keys are listed.
fn pieces_met(
    alloc: Global,
    drawing: &Drawing,
    keys: &[usize],
    near: &Segment,
) -> Result<Vec<Segment>, NoMemory>
    requires round { HasKeysRound drawing.now near.now keys.now }
    requires keyed { AreKeyed drawing.now }
    ensures { IfOk result (λ list. (t : GridSegment)
        → Contains list.items t ↔ (IsPiece drawing.now.drawing t × BoxesMeet near.now t)) }
{
    let mut list = Vec::with_capacity(alloc, keys.len())?;
    for key in keys {
        if let Some(t) = drawing.piece(*key) {
            if box_meets(near, &t) {
                list.push(t)?;
            }
        }
    }
    Ok(list)
}

// The pieces whose boxes meet that of `s` and don't lie off its line, in no order. All others make no violation with it: of a
// long piece these are most of those in the corners of its box.
pub(crate) fn pieces_met_along(
    alloc: Global,
    drawing: &Drawing,
    index: &NearIndex,
    s: &Segment,
) -> Result<Vec<Segment>, NoMemory>
    requires indexed { IsIndexed drawing.now index.now }
    requires keyed { AreKeyed drawing.now }
    ensures { IfOk result (λ list. (t : GridSegment)
        → Contains list.items t ↔ (IsPiece drawing.now.drawing t × IsAlong s.now t)) }
{
    let keys = index.along(s)?;
    pieces_of(alloc, drawing, keys.as_slice())
}

// The pieces with these keys.
fn pieces_of(alloc: Global, drawing: &Drawing, keys: &[usize]) -> Result<Vec<Segment>, NoMemory>
    requires keyed { AreKeyed drawing.now }
    ensures { IfOk result (λ list. (t : GridSegment)
        → Contains list.items t ↔ HasKeyAmong drawing.now keys.now t) }
{
    let mut list = Vec::with_capacity(alloc, keys.len())?;
    for key in keys {
        if let Some(t) = drawing.piece(*key) {
            list.push(t)?;
        }
    }
    Ok(list)
}

// The pieces that have `p` inside, ascending.
pub(crate) fn pieces_round(
    alloc: Global,
    drawing: &Drawing,
    index: &NearIndex,
    p: &Point,
) -> Result<Vec<Segment>, NoMemory>
    requires indexed { IsIndexed drawing.now index.now }
    requires keyed { AreKeyed drawing.now }
    ensures round { IfOk result (λ list. (t : GridSegment)
        → Contains list.items t ↔ (IsPiece drawing.now.drawing t × Inside p.now t)) }
    ensures ascending { IfOk result (λ list. AreSegmentsAscending list.items) }
{
    let keys = index.on_point(p)?;
    pieces_among(alloc, drawing, keys.as_slice(), p)
}

// The same, of which the keys are listed.
fn pieces_among(
    alloc: Global,
    drawing: &Drawing,
    keys: &[usize],
    p: &Point,
) -> Result<Vec<Segment>, NoMemory>
    requires round { HasKeysAt drawing.now p.now keys.now }
    requires keyed { AreKeyed drawing.now }
    ensures round { IfOk result (λ list. (t : GridSegment)
        → Contains list.items t ↔ (IsPiece drawing.now.drawing t × Inside p.now t)) }
    ensures ascending { IfOk result (λ list. AreSegmentsAscending list.items) }
{
    let mut list = Vec::new(alloc);
    for key in keys {
        if let Some(t) = drawing.piece(*key) {
            if in_side(&t, p) {
                list.push(t)?;
            }
        }
    }
    Ok(ascending_segments(list))
}
