//! Laws of steps and chains, for crates above: functions with nothing to do, whose contracts are the laws.
ghost use Rattle.std.specs.Prelude.{◌≡◌, ◌<◌, ◌≤◌, ℕ, List};
ghost use Rattle.grid_base.specs.Point.{GridPoint};
ghost use Rattle.grid_base.specs.Segment.{GridSegment};
ghost use Rattle.grid_base.specs.Drawing.{Drawing, HasViolation};
ghost use Rattle.grid_base.specs.declared.kinds.Step.{Step};
ghost use Rattle.hook_chain.specs.ValidChain.{ValidChain};
ghost use Rattle.hook_chain.specs.Steps.{Permitted, Settles};
ghost use Rattle.hook_chain.specs.StandingChains.{AllValid, IsChainFor};
ghost use Rattle.hook_chain.specs.OneChain.{HaveOneChain};
ghost use Rattle.hook_chain.specs.Measure.{links_of, most_links_of, NoChainShorter};

/// Where a step is permitted the drawing has a violation, and the step leads to one drawing.
pub fn step_mends()
    ensures only_there { (d e : Drawing) (step : Step) → Permitted d step e → HasViolation d }
    ensures one { (d e f : Drawing) (step : Step) → Permitted d step e → Permitted d step f → e ≡ f }
{}

/// A step keeps each chain such that it may stand for its original.
pub fn step_keeps_chains()
    ensures { (d e : Drawing) (step : Step) → AllValid d → Permitted d step e → AllValid e }
{}

/// What is promised of each chain that may stand for an original: it stays in the envelope, the ends of its close links
/// are near, it passes no grid point on the wrong side, and it has few links.
pub fn valid_chain_stands()
    ensures { (o : GridSegment) (chain : List GridPoint) → ValidChain o chain → IsChainFor o chain }
{}

/// Two originals that have one chain keep one chain: where a step redraws it, both follow, and so they do from a
/// drawing to the one that it is settled as.
pub fn one_chain_stays_one()
    ensures step { (d e : Drawing) (step : Step) (m n : ℕ) → Permitted d step e → HaveOneChain d m n
        → HaveOneChain e m n }
    ensures settled { (d e : Drawing) (trace : List Step) (m n : ℕ) → Settles d trace e → HaveOneChain d m n
        → HaveOneChain e m n }
{}

/// Each step adds a link to some chain and leaves none with fewer, and there is an end to that: the measure of settling.
pub fn steps_end()
    ensures adds { (d e : Drawing) (step : Step) → AllValid d → Permitted d step e → links_of d < links_of e }
    ensures shortens_none { (d e : Drawing) (step : Step) → AllValid d → Permitted d step e → NoChainShorter d e }
    ensures same_bound { (d e : Drawing) (step : Step) → AllValid d → Permitted d step e
        → most_links_of e ≡ most_links_of d }
    ensures bound { (d : Drawing) → AllValid d → links_of d ≤ most_links_of d }
{}
