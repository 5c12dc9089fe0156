//! Whether all ways that are steeper than a piece climb against a line. The grid points above a
//! slope have a hull whose corners Euclid's algorithm finds, and where some way doesn't climb, the
//! way to a corner doesn't.
ghost use Rattle.std.specs.Prelude.{◌≡◌, ◌+◌, ◌*◌, ◌<◌, ◌≤◌, ◌↔◌, IsTrue};
ghost use Rattle.grid_base.specs.Grid.{side_bound};
ghost use Rattle.hook_chain.specs.Climbs.{Climbs, AllSteeperClimb, AllSteeperWithinClimb};

use crate::fraction::{Fraction, moved};

/// Whether each way steeper than `piece` climbs against `line` by more than `margin`.
pub(crate) fn all_climb(line: Fraction, margin: u64, piece: Fraction) -> bool
    requires line_below { (line.p < side_bound) × (line.q < side_bound) × (margin < side_bound) }
    requires piece_below { (piece.p < side_bound) × (piece.q < side_bound) }
    requires some { (0 < piece.p) × (0 < piece.q) }
    requires small { margin < line.q }
    requires forth { line.p * piece.q ≤ line.q * piece.p }
    ensures steeper { IsTrue result → AllSteeperClimb line.q line.p margin piece.q piece.p }
    ensures only { AllSteeperWithinClimb line.q line.p margin piece.q piece.p → IsTrue result }
{
    let mut low = Fraction { p: 0, q: 1 };
    let mut high = Fraction { p: 1, q: 0 };
    let mut under = piece.p;
    let mut over = piece.q;
    while under != over {
        if under < over {
            let k = (over - 1) / under;
            high = moved(high, k, low);
            over -= k * under;
            if !climbs(line, margin, high) {
                return false;
            }
        } else {
            let k = (under - 1) / over;
            low = moved(low, k, high);
            under -= k * over;
        }
    }
    true
}

// Whether the way climbs against `line`.
fn climbs(line: Fraction, margin: u64, way: Fraction) -> bool
    requires line_below { (line.p < side_bound) × (line.q < side_bound) × (margin < side_bound) }
    requires way_below { (way.p < side_bound) × (way.q < side_bound) }
    ensures { IsTrue result ↔ Climbs line.q line.p margin way.q way.p }
{
    u128::from(margin) + product(line.p, way.q) < product(line.q, way.p)
}

fn product(m: u64, n: u64) -> u128
    requires m_below { m < side_bound }
    requires n_below { n < side_bound }
    ensures product { result ≡ m * n }
    ensures below { result < side_bound * side_bound }
{
    u128::from(m) * u128::from(n)
}
