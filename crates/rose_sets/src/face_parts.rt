//! One region for each face of a region. The segments of the border are put into parts by the class on
//! their odd side, and each face finds its part by a segment of its outer cycle.
ghost use Rattle.std.specs.Prelude.{◌≡◌, ◌≢◌, ℕ, ◌<◌, [], ◌∷◌, map};
ghost use Rattle.std.specs.Prelude.{IfOk, All, AllPairs, Contains};
ghost use Rattle.std.specs.Prelude.{length, slice_index, slice_index_or};
ghost use Rattle.std.specs.List.{AllZip};
ghost use Rattle.grid_base.specs.Segment.{GridSegment, IsSegmentBefore, segment_of};
ghost use Rattle.grid_base.specs.Border.{AreNoded, IsEvenBorder};
ghost use Rattle.rose_values.specs.declared.geometry.Geometry.TheVariants.{R};
ghost use Rattle.plane_cells.specs.Numbered.{numbered};
ghost use Rattle.r_faces.specs.FaceCycles.{AreFaces};
ghost use Rattle.rose_sets.specs.Sums.{IsSum};
ghost use Rattle.rose_sets.specs.Parts.{AreParts, AreApart};
ghost use Rattle.rose_sets.specs.FaceRegions.{IsRegionAt, IsRegionOfFace};

use grid_base::{NoMemory, Point, Segment};
use plane_cells::side_classes;
use plane_sweep::sides_of_list;
use r_blocks::gather;
use r_faces::{Face, distinct, faces, odd_sides, place_of, places_in};
use rose_values::{Geometry, RegionsValue};
use segment_lists::each_is_on_grid;
use std::alloc::Global;

// The segments of a border in parts, and for each segment the place of its part.
#[derive(Drop)]
struct Rims {
    places: Vec<usize>,
    lists: Vec<Vec<Segment>>,
}

// One region a face, in the order of the faces.
pub(crate) fn regions_of_faces(
    alloc: Global,
    region: &RegionsValue,
) -> Result<Vec<Geometry>, NoMemory>
    ensures parts { IfOk result (λ v. AreParts (R region.now) v.items) }
    ensures sum { IfOk result (λ v. IsSum v.items (R region.now)) }
    ensures apart { IfOk result (λ v. AllPairs AreApart v.items) }
{
    let border = region.segments();
    each_is_on_grid(border);
    let faces = faces(alloc, region)?;
    let parts = borders_of_faces(alloc, border, &faces)?;
    as_regions(alloc, parts)
}

// The regions with these borders.
fn as_regions(alloc: Global, borders: Vec<Vec<Segment>>) -> Result<Vec<Geometry>, NoMemory>
    requires noded { All (λ part. AreNoded part.items) borders.items }
    requires ascending { All (λ part. AllPairs IsSegmentBefore part.items) borders.items }
    requires even { All (λ part. IsEvenBorder part.items) borders.items }
    ensures { IfOk result (λ v. v.items ≡ map (λ part. R part.items) borders.items) }
{
    let mut parts = Vec::new(alloc);
    for border in borders {
        parts.push(Geometry::R(RegionsValue::new(border)))?;
    }
    Ok(parts)
}

// For each face its border.
fn borders_of_faces(
    alloc: Global,
    border: &[Segment],
    faces: &[Face],
) -> Result<Vec<Vec<Segment>>, NoMemory>
    requires noded { AreNoded border.now }
    requires ascending { AllPairs IsSegmentBefore border.now }
    requires even { IsEvenBorder border.now }
    requires faces { AreFaces border.now faces.now }
    ensures { IfOk result (λ v. AllZip (λ f part. IsRegionOfFace border.now f part.items) faces.now v.items) }
{
    each_is_on_grid(border);
    let rims = rims_of(alloc, border)?;
    let mut parts = Vec::new(alloc);
    for k in 0..faces.len() {
        let cycle = faces[k].outer.points();
        let i = place_between(border, cycle[0], cycle[1]);
        parts.push(Vec::from_slice(alloc, &rims.lists[rims.places[i]])?)?;
    }
    Ok(parts)
}

// The parts of the border, one for each face.
fn rims_of(alloc: Global, border: &[Segment]) -> Result<Rims, NoMemory>
    requires noded { AreNoded border.now }
    requires ascending { AllPairs IsSegmentBefore border.now }
    requires even { IsEvenBorder border.now }
    ensures one_each { IfOk result (λ rims. length rims.places.items ≡ length border.now) }
    ensures within { IfOk result (λ rims. All (λ p. p < length rims.lists.items) rims.places.items) }
    ensures regions { IfOk result (λ rims. (i : ℕ) (d : _) → i < length border.now → IsRegionAt border.now i
        (slice_index_or rims.lists.items (slice_index rims.places.items i) d).items) }
{
    each_is_on_grid(border);
    let classes = side_classes(alloc, border)?;
    let odd = sides_of_list(alloc, border, border)?;
    let numbers = odd_sides(alloc, border, &classes, &odd)?;
    let found = distinct(Vec::from_slice(alloc, &numbers)?);
    let places = places_in(alloc, &found, &numbers)?;
    let lists = gather(alloc, border, &places, found.len())?;
    Ok(Rims { places, lists })
}

// The place of the segment between `v` and `w` in the border.
fn place_between(border: &[Segment], v: Point, w: Point) -> usize
    requires ascending { AllPairs IsSegmentBefore border.now }
    requires apart { v ≢ w }
    requires there { Contains border.now (segment_of v w) }
    ensures within { result < length border.now }
    ensures place { numbered border.now result ≡ segment_of v w }
{
    match Segment::new(v, w) {
        Some(s) => place_of(border, &s),
        None => unreachable!(),
    }
}
