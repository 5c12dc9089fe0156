//! Laws of settling, for crates above: functions with nothing to do, whose contracts are the laws.
ghost use Rattle.std.specs.Prelude.{◌⊎◌, ◌+◌, ◌≤◌, List, length};
ghost use Rattle.grid_base.specs.Drawing.{Drawing, HasViolation};
ghost use Rattle.grid_base.specs.declared.kinds.Step.{Step};
ghost use Rattle.hook_chain.specs.Steps.{Settles};
ghost use Rattle.hook_chain.specs.StandingChains.{AllValid};
ghost use Rattle.hook_chain.specs.Measure.{links_of, most_links_of};
ghost use Rattle.hook_chain.specs.Mending.{IsPermitted};

/// While there is a violation, some step is permitted.
pub fn some_step()
    ensures { (d : Drawing) → HasViolation d → (step : Step) × IsPermitted d step }
{}

/// A drawing has a violation or none.
pub fn violated_or_not()
    ensures { (d : Drawing) → HasViolation d ⊎ (HasViolation d → ⊥) }
{}

/// From each drawing whose chains may stand for their originals some trace settles. It is short, whichever it is: each of its
/// steps adds a link, and no more are added than the originals have columns and rows.
pub fn some_trace()
    ensures some { (d : Drawing) → AllValid d → (trace : List Step) × (e : Drawing) × Settles d trace e }
    ensures short { (d e : Drawing) (trace : List Step) → AllValid d → Settles d trace e
        → length trace + links_of d ≤ most_links_of d }
    ensures valid { (d e : Drawing) (trace : List Step) → AllValid d → Settles d trace e → AllValid e }
{}
