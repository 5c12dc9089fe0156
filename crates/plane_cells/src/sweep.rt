//! The sweep: from vertex to vertex, with the status, the links between labels and the labels under segments.
//! The label of a gap is 0 where no segment is below it, and i + 1 where segment i is the one right below.
ghost use Rattle.std.specs.Prelude.{◌≡◌, ℕ, suc, [], ◌+◌, ◌*◌, ◌^◌, ◌<◌, ◌≤◌, length, slice_index, IfOk};
ghost use Rattle.plane_cells.specs.Steps.{In, Each, Pairs, HasRights, label_over};
ghost use Rattle.plane_cells.specs.Sheared.{AreOfRealm};
ghost use Rattle.plane_cells.specs.Scan.{AreAscending};
ghost use Rattle.plane_cells.specs.Swept.{AreVertices, wall_before, bound_at, IsSwept, IsDone};
ghost use Rattle.plane_cells.specs.Swept.{AreOthers, AreDue, AreLater};

use crate::columns::{column, point_at, vertices};
use crate::fans::fan;
use crate::splice::replace_run;
use crate::status::{count_below, count_under, ends_to, label};
use grid_base::{GRID_BITS, NoMemory, Segment};
use std::alloc::Global;
use tiered_vector::TieredVector;

// A column behind all: each is below the square of the number of columns of the grid, and this is twice that.
const BEHIND_ALL: u64 = 1 << (2 * GRID_BITS + 1);

// What a sweep has found: which labels stand for one class, the label under each segment, and that of each
// segment that was asked for.
#[derive(Drop)]
pub struct Found {
    pub links: Vec<(usize, usize)>,
    pub right: Vec<usize>,
    pub asked: Vec<usize>,
}

#[derive(Drop)]
struct Sweep<'a> {
    list: &'a [Segment],
    asked: Vec<usize>,
    status: TieredVector<usize>,
    next: usize,
    links: Vec<(usize, usize)>,
    right: Vec<usize>,
}

// Sweeps over all vertices of the border, and finds the label of each segment of the list, none of which is
// of the border.
pub fn pass_all(alloc: Global, border: &[Segment], list: &[Segment]) -> Result<Found, NoMemory>
    requires realm { AreOfRealm border.now }
    requires ascending { AreAscending border.now }
    requires others { AreOthers border.now list.now }
    ensures done { IfOk result (λ f. IsDone border.now f.links.items f.right.items list.now f.asked.items) }
    ensures all { IfOk result (λ f. length f.asked.items ≡ length list.now) }
{
    let vertices = vertices(alloc, border)?;
    let mut sweep = begin(alloc, list, border.len())?;
    for index in 0..vertices.len() {
        ask(border, &vertices, index, &mut sweep)?;
        pass(alloc, border, &vertices, index, &mut sweep)?;
    }
    ask(border, &vertices, vertices.len(), &mut sweep)?;
    Ok(Found {
        links: sweep.links,
        right: sweep.right,
        asked: sweep.asked,
    })
}

// Before the first vertex, for `count` segments.
fn begin<'a>(alloc: Global, list: &'a [Segment], count: usize) -> Result<Sweep<'a>, NoMemory>
    ensures list { IfOk result (λ s. s.list.now ≡ list.now) }
    ensures asked { IfOk result (λ s. s.asked.items ≡ []) }
    ensures status { IfOk result (λ s. s.status ≡ []) }
    ensures next { IfOk result (λ s. s.next ≡ 0) }
    ensures links { IfOk result (λ s. s.links.items ≡ []) }
    ensures right { IfOk result (λ s. length s.right.items ≡ count) }
    ensures zero { IfOk result (λ s. (i : ℕ) → slice_index s.right.items i ≡ 0) }
{
    let mut right = Vec::new(alloc);
    for _ in 0..count {
        right.push(0)?;
    }
    Ok(Sweep {
        list,
        asked: Vec::new(alloc),
        status: TieredVector::new(alloc),
        next: 0,
        links: Vec::new(alloc),
        right,
    })
}

// Finds the labels of the segments of the list that begin before vertex number `index`.
fn ask(
    border: &[Segment],
    vertices: &[u64],
    index: usize,
    sweep: &mut Sweep<'_>,
) -> Result<(), NoMemory>
    requires realm { AreOfRealm border.now }
    requires vertices { AreVertices border.now vertices.now }
    requires index { index ≤ length vertices.now }
    requires others { AreOthers border.now sweep.old.list.now }
    requires swept { IsSwept border.now (wall_before vertices.now index)
        sweep.old.status sweep.old.next sweep.old.links.items sweep.old.right.items
        sweep.old.list.now sweep.old.asked.items }
    requires due { AreDue sweep.old.list.now (length sweep.old.asked.items) (bound_at vertices.now index) }
    ensures list { IfOk result (λ _. sweep.new.list.now ≡ sweep.old.list.now) }
    ensures swept { IfOk result (λ _. IsSwept border.now (wall_before vertices.now index)
        sweep.new.status sweep.new.next sweep.new.links.items sweep.new.right.items
        sweep.old.list.now sweep.new.asked.items) }
    ensures due { IfOk result (λ _. AreDue sweep.old.list.now
        (length sweep.new.asked.items) (bound_at vertices.now index)) }
    ensures later { IfOk result (λ _. AreLater sweep.old.list.now
        (length sweep.new.asked.items) (bound_at vertices.now index)) }
{
    let bound = bound(vertices, index);
    while sweep.asked.len() < sweep.list.len()
        && column(&sweep.list[sweep.asked.len()].a()) < bound
    {
        let s = sweep.list[sweep.asked.len()];
        let count = count_under(border, &sweep.status, &s);
        let found = label(&sweep.status, count);
        sweep.asked.push(found)?;
    }
    Ok(())
}

// The column of vertex number `index`, or one behind all.
fn bound(vertices: &[u64], index: usize) -> u64
    requires { index ≤ length vertices.now }
    ensures { result ≡ bound_at vertices.now index }
{
    if index < vertices.len() {
        vertices[index]
    } else {
        BEHIND_ALL
    }
}

// Passes vertex number `index`.
fn pass(
    alloc: Global,
    border: &[Segment],
    vertices: &[u64],
    index: usize,
    sweep: &mut Sweep<'_>,
) -> Result<(), NoMemory>
    requires realm { AreOfRealm border.now }
    requires ascending { AreAscending border.now }
    requires vertices { AreVertices border.now vertices.now }
    requires index { index < length vertices.now }
    requires swept { IsSwept border.now (wall_before vertices.now index)
        sweep.old.status sweep.old.next sweep.old.links.items sweep.old.right.items
        sweep.old.list.now sweep.old.asked.items }
    requires due { AreDue sweep.old.list.now (length sweep.old.asked.items) (slice_index vertices.now index) }
    requires later { AreLater sweep.old.list.now (length sweep.old.asked.items)
        (slice_index vertices.now index) }
    ensures list { IfOk result (λ _. sweep.new.list.now ≡ sweep.old.list.now) }
    ensures asked { IfOk result (λ _. sweep.new.asked.items ≡ sweep.old.asked.items) }
    ensures swept { IfOk result (λ _. IsSwept border.now (wall_before vertices.now (suc index))
        sweep.new.status sweep.new.next sweep.new.links.items sweep.new.right.items
        sweep.old.list.now sweep.old.asked.items) }
{
    let v = point_at(vertices[index]);
    let below = count_below(border, &sweep.status, &v);
    let behind = ends_to(border, &sweep.status, below, &v);
    let fan = fan(alloc, border, sweep.next, &v)?;
    let under = label(&sweep.status, below);
    let over = label(&sweep.status, behind);
    let other = last_label(under, &fan);
    sweep.links.push((over, other))?;
    set_rights(&mut sweep.right, under, &fan);
    replace_run(&mut sweep.status, below, behind, &fan)?;
    sweep.next += fan.len();
    Ok(())
}

// The label over the last segment of the list, `under` where there is none.
fn last_label(under: usize, fan: &TieredVector<usize>) -> usize
    requires fits { Each (λ i. i < 2 ^ 63) fan.now }
    ensures { result ≡ label_over under fan.now }
{
    let count = fan.len();
    if count == 0 {
        under
    } else {
        fan[count - 1] + 1
    }
}

// Gives each segment of the list the label of the gap under it.
fn set_rights(right: &mut Vec<usize>, under: usize, fan: &TieredVector<usize>)
    requires places { Each (λ i. i < length right.old.items) fan.now }
    requires once { Pairs (λ i j. i ≡ j → ⊥) fan.now }
    requires fits { Each (λ i. i < 2 ^ 63) fan.now }
    ensures rights { HasRights (λ i. slice_index right.new.items i) under fan.now }
    ensures kept { (i : ℕ) → (In i fan.now → ⊥) →
        slice_index right.new.items i ≡ slice_index right.old.items i }
    ensures size { length right.new.items ≡ length right.old.items }
{
    let mut label = under;
    for k in 0..fan.len() {
        let i = fan[k];
        right[i] = label;
        label = i + 1;
    }
}
