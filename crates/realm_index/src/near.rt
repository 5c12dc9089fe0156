//! What is looked for: boxes that meet a box, and of a segment those that don't lie off its line either.
ghost use Rattle.std.specs.Prelude.{◌≡◌, IfSome};
ghost use Rattle.grid_base.specs.Point.{IsBefore};
ghost use Rattle.realm_index.specs.Near.{at_box, along_line, is_open, passes};

use crate::aside::is_aside;
use crate::bounds::Bounds;
use grid_base::Segment;

// A box, and a segment whose box it is where the line counts.
#[derive(Clone, Copy, Debug)]
pub(crate) struct Near {
    bounds: Bounds,
    line: Option<Segment>,
}

impl Near {
    // What meets the box.
    pub(crate) fn at_box(bounds: &Bounds) -> Near
        ensures { result ≡ at_box bounds.now }
    {
        Near {
            bounds: *bounds,
            line: None,
        }
    }

    // What meets the box of the segment and doesn't lie off its line.
    pub(crate) fn along(s: &Segment) -> Near
        ensures near { result ≡ along_line s.now }
        ensures ordered { IsBefore s.now.a s.now.b }
    {
        let _lesser = s.a();
        Near {
            bounds: Bounds::of(s),
            line: Some(*s),
        }
    }

    // Whether the box is one of those. Mostly it isn't met, and then the line isn't looked at.
    pub(crate) fn passes(&self, b: &Bounds) -> bool
        ensures passes { result ≡ passes self.now b.now }
        ensures ordered { IfSome self.now.line (λ s. IsBefore s.a s.b) }
    {
        self.is_ordered();
        self.bounds.meets(b) && self.is_open(b)
    }

    // The segment has its lesser end first, as its type says.
    fn is_ordered(&self)
        ensures { IfSome self.now.line (λ s. IsBefore s.a s.b) }
    {
        if let Some(s) = &self.line {
            let _lesser = s.a();
        }
    }

    // Whether the box doesn't lie off the line, if there is one.
    fn is_open(&self, b: &Bounds) -> bool
        ensures { result ≡ is_open self.now.line b.now }
    {
        match &self.line {
            None => true,
            Some(s) => !is_aside(s, b),
        }
    }
}
