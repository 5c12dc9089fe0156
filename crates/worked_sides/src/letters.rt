//! Jobs whose texts are known by their numbers.
ghost use Rattle.std.specs.Prelude.{◌≡◌, ◌<◌, ◌+◌, ◌∷◌, []};

use grid_base::{NoMemory, Reply};
use side_parallel::Jobs;
use std::alloc::Global;

/// The jobs 0, 1 and 2, whose texts are `a`, `b` and `c`.
#[derive(Clone, Copy)]
pub(crate) struct Letters {
    pub(crate) alloc: Global,
}

impl Jobs for Letters {
    ghost is_job = { λ _ k. k < 3 };

    ghost is_text = { λ _ k text. text ≡ (97 + k) ∷ [] };

    fn answer(&self, k: usize) -> Result<Reply, NoMemory> {
        let mut bytes = Vec::new(self.alloc);
        bytes.push(b'a' + k as u8)?;
        Ok(Reply::new(bytes))
    }
}
