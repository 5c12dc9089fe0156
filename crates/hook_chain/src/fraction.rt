//! Fractions of small denominators, found as Euclid finds a divisor.
ghost use Rattle.std.specs.Prelude.{◌≡◌, ℕ, ◌+◌, ◌-◌, ◌*◌, ◌<◌, ◌≤◌};
ghost use Rattle.grid_base.specs.Grid.{grid_side, side_bound};
ghost use Rattle.hook_chain.specs.Fractions.{IsLeastAbove};

/// A fraction p / q.
#[derive(Clone, Copy)]
pub(crate) struct Fraction {
    pub p: u64,
    pub q: u64,
}

/// The least fraction that isn't below c / d and has a denominator of at most n, in lowest terms.
pub(crate) fn least_above(c: u64, d: u64, n: u64) -> Fraction
    requires proper { (0 < c) × (c < d) × (d < 4 * grid_side) }
    requires some { (0 < n) × (n < 4 * grid_side) }
    ensures { IsLeastAbove c d n result.p result.q }
{
    let mut low = Fraction { p: 0, q: 1 };
    let mut high = Fraction { p: 1, q: 1 };
    let mut under = c;
    let mut over = d - c;
    while over > 0 && low.q + high.q <= n {
        if under <= over {
            let k = (over / under).min((n - high.q) / low.q);
            high = moved(high, k, low);
            over -= k * under;
        } else {
            let k = ((under - 1) / over).min((n - low.q) / high.q);
            low = moved(low, k, high);
            under -= k * over;
        }
    }
    high
}

/// The fraction that lies k times `by` past `from`, its numerator and its denominator each.
pub(crate) fn moved(from: Fraction, k: u64, by: Fraction) -> Fraction
    requires p_below { from.p + k * by.p < side_bound }
    requires q_below { from.q + k * by.q < side_bound }
    ensures p { result.p ≡ from.p + k * by.p }
    ensures q { result.q ≡ from.q + k * by.q }
{
    Fraction {
        p: from.p + k * by.p,
        q: from.q + k * by.q,
    }
}
