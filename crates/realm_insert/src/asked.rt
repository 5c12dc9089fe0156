//! What a change asks for, as its line writes it. Nothing here looks at the state.
ghost use Rattle.std.specs.Prelude.{◌≡◌, ◌<◌, ◌↔◌, ◌++◌, IsTrue, IfOk, OnOk, All, Any, length, map};
ghost use Rattle.std.specs.List.{flat_map};
ghost use Rattle.std.specs.Option.{option_copied};
ghost use Rattle.realm_insert.specs.Lines.{IsOffGrid, HasPlaceOffGrid, HasShortList, neighbours, neighbours_round};
ghost use Rattle.realm_insert.specs.Lines.{drawn_between, segment_between, IsDrawable, grid_point};
ghost use Rattle.realm_insert.specs.Lines.{name_defined};

use grid_base::{NoMemory, Point, Segment};
use line_grammar::{At, Change, Name, Path};
use std::alloc::Global;

// Two places to draw between.
#[derive(Clone, Copy, Debug, PartialEq, Eq)]
pub(crate) struct Ends {
    pub(crate) from: At,
    pub(crate) to: At,
}

// Whether a place that the change writes is off the grid.
pub(crate) fn is_out_of_range(c: &Change) -> bool
    ensures { IsTrue result ↔ HasPlaceOffGrid c.now }
{
    match c {
        Change::Point(p) | Change::Unpoint(p) => is_off_grid(p),
        Change::Segment(p, q) => is_off_grid(p) || is_off_grid(q),
        Change::Points(_, path) => has_off_grid(path),
        Change::Lines(_, paths) | Change::Regions(_, paths) => paths
            .paths()
            .iter()
            .any(has_off_grid),
        Change::Let(..) | Change::Drop(_) | Change::Delete(_) => false,
    }
}

fn is_off_grid(p: &At) -> bool
    ensures { IsTrue result ↔ IsOffGrid p.now }
{
    Point::new(p.x, p.y).is_err()
}

fn has_off_grid(path: &Path) -> bool
    ensures { IsTrue result ↔ Any IsOffGrid path.now }
{
    path.places().iter().any(is_off_grid)
}

// Whether a path has under two places, or a cycle under three.
pub(crate) fn has_short_list(c: &Change) -> bool
    ensures { IsTrue result ↔ HasShortList c.now }
{
    match c {
        Change::Lines(_, paths) => any_shorter(paths.paths(), 2),
        Change::Regions(_, cycles) => any_shorter(cycles.paths(), 3),
        _ => false,
    }
}

fn any_shorter(paths: &[Path], least: usize) -> bool
    ensures { IsTrue result ↔ Any (λ path. length path < least) paths.now }
{
    paths.iter().any(|path| path.places().len() < least)
}

// The places between which the change draws, in order.
pub(crate) fn ends_drawn(alloc: Global, c: &Change) -> Result<Vec<Ends>, NoMemory>
    ensures { IfOk result (λ v. v.items ≡ drawn_between c.now) }
{
    match c {
        Change::Segment(p, q) => Ok(vec![in alloc; Ends { from: *p, to: *q }]?),
        Change::Lines(_, paths) => ends_along(alloc, paths.paths()),
        Change::Regions(_, cycles) => ends_round(alloc, cycles.paths()),
        _ => Ok(Vec::new(alloc)),
    }
}

fn ends_along(alloc: Global, paths: &[Path]) -> Result<Vec<Ends>, NoMemory>
    ensures { IfOk result (λ v. v.items ≡ flat_map neighbours paths.now) }
{
    let mut list = Vec::new(alloc);
    for path in paths {
        push_neighbours(&mut list, path.places())?;
    }
    Ok(list)
}

fn ends_round(alloc: Global, cycles: &[Path]) -> Result<Vec<Ends>, NoMemory>
    ensures { IfOk result (λ v. v.items ≡ flat_map neighbours_round cycles.now) }
{
    let mut list = Vec::new(alloc);
    for cycle in cycles {
        push_round(&mut list, cycle.places())?;
    }
    Ok(list)
}

fn push_neighbours(list: &mut Vec<Ends>, path: &[At]) -> Result<(), NoMemory>
    ensures { OnOk result (list.new.items ≡ list.old.items ++ neighbours path.now) }
{
    for i in 1..path.len() {
        let (from, to) = (path[i - 1], path[i]);
        list.push(Ends { from, to })?;
    }
    Ok(())
}

fn push_round(list: &mut Vec<Ends>, cycle: &[At]) -> Result<(), NoMemory>
    ensures { OnOk result (list.new.items ≡ list.old.items ++ neighbours_round cycle.now) }
{
    let [first, ..] = cycle else {
        return Ok(());
    };
    push_neighbours(list, cycle)?;
    let (from, to) = (cycle[cycle.len() - 1], *first);
    list.push(Ends { from, to })?;
    Ok(())
}

// Whether two places to draw between are one.
pub(crate) fn is_degenerate(list: &[Ends]) -> bool
    ensures { IsTrue result ↔ Any (λ e. e.from ≡ e.to) list.now }
{
    list.iter().any(|e| e.from == e.to)
}

// The segments between the places.
pub(crate) fn segments_between(alloc: Global, list: &[Ends]) -> Result<Vec<Segment>, NoMemory>
    requires drawable { All IsDrawable list.now }
    ensures { IfOk result (λ v. v.items ≡ map segment_between list.now) }
{
    let mut segments = Vec::new(alloc);
    for e in list {
        segments.push(segment_of(e))?;
    }
    Ok(segments)
}

fn segment_of(e: &Ends) -> Segment
    requires { IsDrawable e.now }
    ensures { result ≡ segment_between e.now }
{
    let (Ok(p), Ok(q)) = (Point::new(e.from.x, e.from.y), Point::new(e.to.x, e.to.y)) else {
        unreachable!()
    };
    match Segment::new(p, q) {
        Some(s) => s,
        None => unreachable!(),
    }
}

// The points at these places, in order.
pub(crate) fn points_at(alloc: Global, places: &[At]) -> Result<Vec<Point>, NoMemory>
    requires on_grid { Any IsOffGrid places.now → ⊥ }
    ensures { IfOk result (λ v. v.items ≡ map grid_point places.now) }
{
    let mut points = Vec::new(alloc);
    for p in places {
        points.push(point_of(p))?;
    }
    Ok(points)
}

// The point at a place of the grid.
pub(crate) fn point_of(p: &At) -> Point
    requires { IsOffGrid p.now → ⊥ }
    ensures { result ≡ grid_point p.now }
{
    match Point::new(p.x, p.y) {
        Ok(p) => p,
        Err(_) => unreachable!(),
    }
}

// The name that the change defines.
pub(crate) fn name_of(c: &Change) -> Option<&Name>
    ensures { option_copied result ≡ name_defined c.now }
{
    match c {
        Change::Points(name, _) => Some(name),
        Change::Lines(name, _) => Some(name),
        Change::Regions(name, _) => Some(name),
        Change::Let(name, ..) => Some(name),
        _ => None,
    }
}
