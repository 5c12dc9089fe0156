//! The vector that a caller sees as one list.
ghost use Rattle.std.specs.Prelude.{◌≡◌, ◌<◌, ◌≤◌, [], length, insert, remove, slice_index_or, OnOk, OnErr};

use crate::blocks;
use grid_base::NoMemory;
use std::alloc::Global;
use std::marker::Model;
use std::ops::Index;

/// A list in blocks of up to 512 elements.
#[derive(Drop)]
pub struct TieredVector<T> {
    alloc: Global,
    // The elements, block after block.
    blocks: Vec<Vec<T>>,
    // For each block, how many elements stand in the blocks before it.
    starts: Vec<usize>,
    // How many elements there are.
    count: usize,
}

impl<T> Model for TieredVector<T> {
    ghost use Rattle.std.specs.Prelude.{List, vec_items};
    ghost use Rattle.tiered_vector.specs.Blocks.{joined, AreInBlocks};

    ghost Value = { List T };

    ghost view = { λ v. joined v.blocks.items };

    ghost invariant = { λ v. AreInBlocks v.blocks.items v.starts.items v.count };
}

impl<T> Index<usize> for TieredVector<T> {
    type Output = T;

    ghost can_index = { λ v i. i < length v };

    ghost index_gives = { λ v i x. x ≡ slice_index_or v i x };

    fn index(&self, index: usize) -> &T
        requires { index < length self.now }
        ensures { result.now ≡ slice_index_or self.now index result.now }
    {
        let (block, place) = blocks::place_of(&self.starts, index);
        &self.blocks[block][place]
    }
}

impl<T> TieredVector<T> {
    /// A vector without elements, which takes no memory.
    pub fn new(alloc: Global) -> Self
        ensures { result ≡ [] }
    {
        TieredVector {
            alloc,
            blocks: Vec::new(alloc),
            starts: Vec::new(alloc),
            count: 0,
        }
    }

    /// How many elements there are.
    pub fn len(&self) -> usize
        ensures { result ≡ length self.now }
    {
        self.count
    }
}

impl<T: Drop> TieredVector<T> {
    /// Puts `element` in at `index`: the elements from there on move up by one.
    pub fn insert(&mut self, index: usize, element: T) -> Result<(), NoMemory>
        requires { index ≤ length self.old }
        ensures ok { OnOk result (self.new ≡ insert self.old index element) }
        ensures err { OnErr result (self.new ≡ self.old) }
    {
        if self.count == usize::MAX {
            return Err(NoMemory);
        }
        blocks::make_room(self.alloc, &mut self.blocks, &mut self.starts, index)?;
        blocks::put_in(&mut self.blocks, &mut self.starts, index, element)?;
        self.count += 1;
        Ok(())
    }

    /// Takes out the element at `index`: the elements after it move down by one.
    pub fn remove(&mut self, index: usize) -> T
        requires { index < length self.old }
        ensures value { result ≡ slice_index_or self.old index result }
        ensures rest { self.new ≡ remove self.old index }
    {
        let element = blocks::take_out(&mut self.blocks, &mut self.starts, index);
        self.count -= 1;
        element
    }
}
