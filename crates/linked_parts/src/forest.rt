//! The parts as a forest: each number names one of its part that isn't greater, and only the least of a part
//! names itself. So a search from name to name ends at the least.
ghost use Rattle.std.specs.Prelude.{◌≡◌, ℕ, ◌<◌, length, IfOk, slice_index};
ghost use Rattle.linked_parts.specs.Kept.{IsDown, Names, united};

use grid_base::NoMemory;
use std::alloc::Global;

// What each number names.
#[derive(Drop)]
pub(crate) struct Forest {
    pub(crate) above: Vec<usize>,
}

impl Forest {
    // Each of the numbers below `n` alone.
    pub(crate) fn new(alloc: Global, n: usize) -> Result<Forest, NoMemory>
        ensures length { IfOk result (λ f. length f.above.items ≡ n) }
        ensures alone { IfOk result (λ f. (i : ℕ) → i < n → slice_index f.above.items i ≡ i) }
    {
        let mut above = Vec::new(alloc);
        for i in 0..n {
            above.push(i)?;
        }
        Ok(Forest { above })
    }

    // Makes the parts of `i` and `j` one: the greater of their leasts names the lesser.
    pub(crate) fn unite(&mut self, i: usize, j: usize)
        requires down { IsDown self.old.above.items }
        requires i_below { i < length self.old.above.items }
        requires j_below { j < length self.old.above.items }
        ensures length { length self.new.above.items ≡ length self.old.above.items }
        ensures down { IsDown self.new.above.items }
        ensures united { (least : ℕ → ℕ) → Names self.old.above.items least
            → Names self.new.above.items (united least i j) }
    {
        let a = self.least_of(i);
        let b = self.least_of(j);
        self.above[a.max(b)] = a.min(b);
    }

    // The least number of the part of `i`. On the way each number that it comes to is made to name
    // one further on.
    fn least_of(&mut self, i: usize) -> usize
        requires down { IsDown self.old.above.items }
        requires below { i < length self.old.above.items }
        ensures length { length self.new.above.items ≡ length self.old.above.items }
        ensures down { IsDown self.new.above.items }
        ensures inside { result < length self.new.above.items }
        ensures root { slice_index self.new.above.items result ≡ result }
        ensures names { (least : ℕ → ℕ) → Names self.old.above.items least
            → Names self.new.above.items least }
        ensures least { (least : ℕ → ℕ) → Names self.old.above.items least → result ≡ least i }
    {
        let mut at = i;
        while self.above[at] != at {
            let next = self.above[self.above[at]];
            self.above[at] = next;
            at = next;
        }
        at
    }

    // Makes each number name the least of its part.
    pub(crate) fn settle(&mut self)
        requires down { IsDown self.old.above.items }
        ensures length { length self.new.above.items ≡ length self.old.above.items }
        ensures settled { (least : ℕ → ℕ) → Names self.old.above.items least
            → (i : ℕ) → i < length self.old.above.items → slice_index self.new.above.items i ≡ least i }
    {
        for i in 0..self.above.len() {
            self.above[i] = self.above[self.above[i]];
        }
    }
}
