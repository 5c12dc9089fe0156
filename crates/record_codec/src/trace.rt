//! Lists of steps. A step's points and segments are on the grid by themselves; what a trace asks for beside this is
//! the order of two pieces that meet.
ghost use Rattle.std.specs.Prelude.{◌≡◌, ◌++◌, ◌∷◌, [], IfOk, OnOk, OnErr};
ghost use Rattle.std.specs.List.{AllByRecursion};
ghost use Rattle.record_codec.specs.Traces.{IsStep, IsOrdered, IsTrace};

use crate::steps::spelled;
use grid_base::{NoMemory, Step};
use std::alloc::Global;
use std::marker::Model;

// How many steps no trace has: 2^57.
const TOO_MANY: usize = 144_115_188_075_855_872;

/// The steps of a change, in order: each has a text, and all of them fit in a record. Contracts see the list.
#[derive(Debug, Drop)]
pub struct Trace {
    list: Vec<Step>,
}

impl Model for Trace {
    ghost use Rattle.std.specs.Prelude.{List};
    ghost use Rattle.grid_base.specs.declared.kinds.Step.{Step};
    ghost use Rattle.record_codec.specs.Traces.{IsTrace};

    ghost Value = { List Step };

    ghost view = { λ t. t.list.items };

    ghost invariant = { λ t. IsTrace t.list.items };
}

impl Trace {
    /// The trace with no step.
    pub fn new(alloc: Global) -> Trace
        ensures { result ≡ [] }
    {
        Trace {
            list: Vec::new(alloc),
        }
    }

    /// The trace of these steps. No memory is taken, and want of it is answered where they are 2^57 or more.
    pub fn of(list: Vec<Step>) -> Result<Trace, NoMemory>
        requires { AllByRecursion IsStep list.items }
        ensures { IfOk result (λ trace. trace ≡ list.items) }
    {
        if list.len() >= TOO_MANY {
            return Err(NoMemory);
        }
        Ok(Trace { list })
    }

    /// Adds the step at the end. Want of memory, which is answered too where the trace would have 2^57 steps, leaves
    /// it as it was.
    pub fn push(&mut self, step: Step) -> Result<(), NoMemory>
        requires { IsOrdered step }
        ensures pushed { OnOk result (self.new ≡ self.old ++ step ∷ []) }
        ensures same { OnErr result (self.new ≡ self.old) }
    {
        spelled(&step);
        if self.list.len() + 1 >= TOO_MANY {
            return Err(NoMemory);
        }
        self.list.push(step)?;
        Ok(())
    }

    /// Its steps in order.
    pub fn steps(&self) -> &[Step]
        ensures steps { result.now ≡ self.now }
        ensures fits { IsTrace self.now }
    {
        self.list.as_slice()
    }

    /// The same steps once more.
    pub fn copied(&self, alloc: Global) -> Result<Trace, NoMemory>
        ensures { IfOk result (λ trace. trace ≡ self.now) }
    {
        Ok(Trace {
            list: Vec::from_slice(alloc, self.list.as_slice())?,
        })
    }

    /// Its steps in order, given back. No memory is taken.
    pub fn into_steps(self) -> Vec<Step>
        ensures { result.items ≡ self }
    {
        self.list
    }
}
