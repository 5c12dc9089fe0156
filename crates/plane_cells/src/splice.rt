//! A run of the status gives way to other segments, one element after another.
ghost use Rattle.std.specs.Prelude.{◌≡◌, ℕ, ◌+◌, ◌≤◌, ◌<◌, List, take, drop, length, ◌++◌, IfOk};

use grid_base::NoMemory;
use tiered_vector::TieredVector;

/// Puts `new` in the place of the elements from `lo` to just before `hi`.
pub fn replace_run(
    list: &mut TieredVector<usize>,
    lo: usize,
    hi: usize,
    new: &TieredVector<usize>,
) -> Result<(), NoMemory>
    requires order { lo ≤ hi }
    requires within { hi ≤ length list.old }
    ensures { IfOk result (λ _. list.new ≡ take lo list.old ++ (new.now ++ drop hi list.old)) }
{
    take_run(list, lo, hi);
    put_run(list, lo, new)
}

// Takes out the elements from `lo` to just before `hi`.
fn take_run(list: &mut TieredVector<usize>, lo: usize, hi: usize)
    requires order { lo ≤ hi }
    requires within { hi ≤ length list.old }
    ensures { list.new ≡ take lo list.old ++ drop hi list.old }
{
    for _ in lo..hi {
        list.remove(lo);
    }
}

// Puts `new` in at `lo`, the last one first.
fn put_run(
    list: &mut TieredVector<usize>,
    lo: usize,
    new: &TieredVector<usize>,
) -> Result<(), NoMemory>
    requires { lo ≤ length list.old }
    ensures { IfOk result (λ _. list.new ≡ take lo list.old ++ (new.now ++ drop lo list.old)) }
{
    for k in (0..new.len()).rev() {
        list.insert(lo, new[k])?;
    }
    Ok(())
}
