//! Blocks of elements, one after another, and how many elements stand before each.
ghost use Rattle.std.specs.Prelude.{◌≡◌, ℕ, ◌+◌, ◌-◌, ◌<◌, ◌≤◌, ◌^◌, All, OnOk, OnErr, Some, length, map};
ghost use Rattle.std.specs.Prelude.{insert, remove, slice_get, slice_index_or, vec_len, vec_capacity};
ghost use Rattle.std.specs.List.Sorted.{IsNonDecreasing, IsPartitionPoint};
ghost use Rattle.tiered_vector.specs.Blocks.{joined, starts_from, IsPlace};

use grid_base::NoMemory;
use std::alloc::Global;

// A block with so many elements is cut in two before another one is put in.
const MOST: usize = 512;

// The last block that starts at `index` or before, and the place of `index` in it.
pub(crate) fn place_of(starts: &[usize], index: usize) -> (usize, usize)
    requires ascending { IsNonDecreasing starts.now }
    requires from_zero { slice_get starts.now 0 ≡ Some 0 }
    ensures { IsPlace starts.now index result.0 result.1 }
{
    let block = starts_up_to(starts, index) - 1;
    (block, index - starts[block])
}

// How many blocks start at `index` or before. They stand first.
fn starts_up_to(starts: &[usize], index: usize) -> usize
    requires { IsNonDecreasing starts.now }
    ensures within { result ≤ length starts.now }
    ensures parted { IsPartitionPoint (λ n. n ≤ index) (λ n. index < n) starts.now result }
{
    starts.partition_point(|start| *start <= index)
}

// Sees to it that there is a block, and that the one for `index` isn't full.
pub(crate) fn make_room<T: Drop>(
    alloc: Global,
    blocks: &mut Vec<Vec<T>>,
    starts: &mut Vec<usize>,
    index: usize,
) -> Result<(), NoMemory>
    requires starts { starts.old.items ≡ starts_from 0 blocks.old.items }
    requires within { index ≤ length (joined blocks.old.items) }
    requires countable { length (joined blocks.old.items) < 2 ^ 64 }
    ensures same { joined blocks.new.items ≡ joined blocks.old.items }
    ensures starts { starts.new.items ≡ starts_from 0 blocks.new.items }
    ensures some { OnOk result (0 < vec_len blocks.new) }
{
    if blocks.is_empty() {
        starts.reserve(1)?;
        blocks.push(Vec::new(alloc))?;
        put_in_room(starts, 0, 0);
        return Ok(());
    }
    let (block, _) = place_of(starts, index);
    if MOST <= blocks[block].len() {
        return halve(blocks, starts, block);
    }
    Ok(())
}

// Cuts the block in two.
fn halve<T: Drop>(
    blocks: &mut Vec<Vec<T>>,
    starts: &mut Vec<usize>,
    block: usize,
) -> Result<(), NoMemory>
    requires there { block < vec_len blocks.old }
    requires starts { starts.old.items ≡ starts_from 0 blocks.old.items }
    requires countable { length (joined blocks.old.items) < 2 ^ 64 }
    ensures same { joined blocks.new.items ≡ joined blocks.old.items }
    ensures starts { starts.new.items ≡ starts_from 0 blocks.new.items }
    ensures some { 0 < vec_len blocks.new }
{
    blocks.reserve(1)?;
    starts.reserve(1)?;
    let middle = blocks[block].len() / 2;
    let second = blocks[block].split_off(middle)?;
    put_in_room(blocks, block + 1, second);
    put_in_room(starts, block + 1, starts[block] + middle);
    Ok(())
}

// Puts an element into a list that has room for it.
fn put_in_room<T: Drop>(list: &mut Vec<T>, index: usize, element: T)
    requires room { vec_len list.old < vec_capacity list.old }
    requires within { index ≤ vec_len list.old }
    ensures { list.new.items ≡ insert list.old.items index element }
{
    match list.insert(index, element) {
        Ok(()) => (),
        Err(_) => unreachable!(),
    }
}

// Puts `element` in at `index`.
pub(crate) fn put_in<T: Drop>(
    blocks: &mut Vec<Vec<T>>,
    starts: &mut Vec<usize>,
    index: usize,
    element: T,
) -> Result<(), NoMemory>
    requires some { 0 < vec_len blocks.old }
    requires starts { starts.old.items ≡ starts_from 0 blocks.old.items }
    requires within { index ≤ length (joined blocks.old.items) }
    requires countable { length (joined blocks.old.items) + 1 < 2 ^ 64 }
    ensures ok { OnOk result (joined blocks.new.items ≡ insert (joined blocks.old.items) index element) }
    ensures err { OnErr result (joined blocks.new.items ≡ joined blocks.old.items) }
    ensures starts { starts.new.items ≡ starts_from 0 blocks.new.items }
{
    let (block, place) = place_of(starts, index);
    blocks[block].insert(place, element)?;
    raise(&mut starts[block + 1..]);
    Ok(())
}

// One element more stands before each of these blocks.
fn raise(starts: &mut [usize])
    requires { All (λ n. n + 1 < 2 ^ 64) starts.old }
    ensures { starts.new ≡ map (λ n. n + 1) starts.old }
{
    for start in starts {
        *start += 1;
    }
}

// Takes out the element at `index`.
pub(crate) fn take_out<T: Drop>(
    blocks: &mut Vec<Vec<T>>,
    starts: &mut Vec<usize>,
    index: usize,
) -> T
    requires starts { starts.old.items ≡ starts_from 0 blocks.old.items }
    requires within { index < length (joined blocks.old.items) }
    ensures value { result ≡ slice_index_or (joined blocks.old.items) index result }
    ensures rest { joined blocks.new.items ≡ remove (joined blocks.old.items) index }
    ensures starts { starts.new.items ≡ starts_from 0 blocks.new.items }
{
    let (block, place) = place_of(starts, index);
    let element = blocks[block].remove(place);
    lower(&mut starts[block + 1..]);
    drop_if_empty(blocks, starts, block);
    element
}

// One element fewer stands before each of these blocks.
fn lower(starts: &mut [usize])
    requires { All (λ n. 0 < n) starts.old }
    ensures { starts.new ≡ map (λ n. n - 1) starts.old }
{
    for start in starts {
        *start -= 1;
    }
}

// Drops the block if it has no elements.
fn drop_if_empty<T: Drop>(blocks: &mut Vec<Vec<T>>, starts: &mut Vec<usize>, block: usize)
    requires there { block < vec_len blocks.old }
    requires starts { starts.old.items ≡ starts_from 0 blocks.old.items }
    ensures same { joined blocks.new.items ≡ joined blocks.old.items }
    ensures starts { starts.new.items ≡ starts_from 0 blocks.new.items }
{
    if blocks[block].is_empty() {
        blocks.remove(block);
        starts.remove(block);
    }
}
