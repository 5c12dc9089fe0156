//! The numbers of a state and their bounds.
ghost use Rattle.std.specs.Prelude.{◌≡◌, ◌↔◌, ◌≤◌, ◌<◌, ◌^◌, IsTrue, All};
ghost use Rattle.state_check.specs.Numbers.{HaveFitting};

use grid_base::Original;

// How many changes there may be: 2^63.
const MOST_CHANGES: u64 = 9_223_372_036_854_775_808;

// The first number that is no id: 2^32.
const MOST_IDS: u64 = 4_294_967_296;

/// Whether there are no more changes and ids than there may be, and each original has an id from 1 on and below the next one.
pub fn numbers_fit(changes: u64, next_id: u64, originals: &[Original]) -> bool
    ensures { IsTrue result ↔ HaveFitting changes next_id originals.now }
{
    bounds_hold(changes, next_id) && ids_fit(next_id, originals)
}

fn bounds_hold(changes: u64, next_id: u64) -> bool
    ensures { IsTrue result ↔ ((changes ≤ 2 ^ 63) × (1 ≤ next_id) × (next_id ≤ 2 ^ 32)) }
{
    changes <= MOST_CHANGES && next_id >= 1 && next_id <= MOST_IDS
}

fn ids_fit(next_id: u64, originals: &[Original]) -> bool
    ensures { IsTrue result ↔ All (λ o. (1 ≤ o.id) × (o.id < next_id)) originals.now }
{
    originals.iter().all(|o| id_fits(next_id, o))
}

fn id_fits(next_id: u64, o: &Original) -> bool
    ensures { IsTrue result ↔ ((1 ≤ o.now.id) × (o.now.id < next_id)) }
{
    o.id >= 1 && u64::from(o.id) < next_id
}
