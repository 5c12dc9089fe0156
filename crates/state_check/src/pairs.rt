//! Whether each point stands in a list an even number of times.
ghost use Rattle.std.specs.Prelude.{◌≡◌, ◌↔◌, IsTrue};
ghost use Rattle.state_check.specs.Pairs.{are_pairs, IsEvenList};

use grid_base::Point;

// Sorts the points, and sees whether all stand in pairs then.
pub(crate) fn is_even(mut points: Vec<Point>) -> bool
    ensures { IsTrue result ↔ IsEvenList points.items }
{
    points.sort_unstable();
    are_pairs(points.as_slice())
}

// Whether the first point is the second, the third the fourth, and so on to the end.
#[tactic(auto, unfolding(crate::specs::Pairs::are_pairs))]
fn are_pairs(points: &[Point]) -> bool
    ensures { result ≡ are_pairs points.now }
{
    let mut rest = points;
    while let [first, second, more @ ..] = rest {
        if first != second {
            return false;
        }
        rest = more;
    }
    rest.is_empty()
}
