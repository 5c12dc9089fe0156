//! What a change draws: points that become explicit, or segments of new originals.
ghost use Rattle.std.specs.Prelude.{◌≡◌, IfOk, Any};
ghost use Rattle.realm_insert.specs.Figures.{of_points, of_segments, figure_of, figure_written};
ghost use Rattle.realm_insert.specs.Lines.{HasPlaceOffGrid, drawn_between};
ghost use Rattle.rose_operators.specs.Results.{IsAscending};

use crate::asked::{Ends, point_of, points_at, segments_between};
use grid_base::{Kind, NoMemory, Point, Segment};
use line_grammar::Change;
use rose_values::Geometry;
use std::alloc::Global;
use std::marker::Model;

// Points that become explicit, segments of new originals, in order, and the kind of the value that they may make.
#[derive(Drop)]
pub(crate) struct Figure {
    kind: Kind,
    points: Vec<Point>,
    segments: Vec<Segment>,
}

impl Model for Figure {
    ghost use Rattle.realm_insert.specs.Figures.{Figure as Seen};

    ghost Value = { Seen };

    ghost view = { λ f. record { kind = f.kind; points = f.points.items; segments = f.segments.items } };
}

impl Figure {
    pub(crate) fn of_points(alloc: Global, points: Vec<Point>) -> Figure
        ensures { result ≡ of_points points.items }
    {
        Figure {
            kind: Kind::Points,
            points,
            segments: Vec::new(alloc),
        }
    }

    pub(crate) fn of_segments(alloc: Global, kind: Kind, segments: Vec<Segment>) -> Figure
        ensures { result ≡ of_segments kind segments.items }
    {
        Figure {
            kind,
            points: Vec::new(alloc),
            segments,
        }
    }

    // The geometry drawn again. What it lists ascends.
    pub(crate) fn of_geometry(alloc: Global, made: Geometry) -> Figure
        ensures figure { result ≡ figure_of made }
        ensures ascending { IsAscending made }
    {
        match made {
            Geometry::P(points) => Figure::of_points(alloc, points.into_points()),
            Geometry::L(lines) => Figure::of_segments(alloc, Kind::Lines, lines.into_segments()),
            Geometry::R(region) => Figure::of_segments(
                alloc,
                Kind::Regions,
                region.into_segments(),
            ),
        }
    }

    // What the line of the change writes, which draws between these places.
    pub(crate) fn of_line(alloc: Global, c: &Change, ends: &[Ends]) -> Result<Figure, NoMemory>
        requires ends { ends.now ≡ drawn_between c.now }
        requires on_grid { HasPlaceOffGrid c.now → ⊥ }
        requires apart { Any (λ e. e.from ≡ e.to) (drawn_between c.now) → ⊥ }
        ensures { IfOk result (λ figure. figure ≡ figure_written c.now) }
    {
        match c {
            Change::Point(p) => {
                let points = vec![in alloc; point_of(p)]?;
                Ok(Figure::of_points(alloc, points))
            }
            Change::Points(_, path) => {
                let points = points_at(alloc, path.places())?;
                Ok(Figure::of_points(alloc, points))
            }
            Change::Regions(..) => {
                let border = segments_between(alloc, ends)?;
                Ok(Figure::of_segments(alloc, Kind::Regions, border))
            }
            _ => {
                let segments = segments_between(alloc, ends)?;
                Ok(Figure::of_segments(alloc, Kind::Lines, segments))
            }
        }
    }

    pub(crate) fn kind(&self) -> Kind
        ensures { result ≡ self.now.kind }
    {
        self.kind
    }

    pub(crate) fn points(&self) -> &[Point]
        ensures { result.now ≡ self.now.points }
    {
        self.points.as_slice()
    }

    pub(crate) fn segments(&self) -> &[Segment]
        ensures { result.now ≡ self.now.segments }
    {
        self.segments.as_slice()
    }

    pub(crate) fn into_points(self) -> Vec<Point>
        ensures { result.items ≡ self.points }
    {
        self.points
    }
}
