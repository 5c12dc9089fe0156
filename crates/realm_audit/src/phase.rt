//! How far a certificate has come.
ghost use Rattle.std.specs.Prelude.{◌↔◌, IsTrue};
ghost use Rattle.realm_audit.specs.Audits.{TakesPoints, TakesSteps};

/// Which lines may come next.
#[derive(Clone, Copy, Debug, PartialEq, Eq)]
pub enum Phase {
    /// No change was begun: points and originals.
    Opening,
    /// A change was begun, and no step of it was taken: points and segments come and go.
    Placing,
    /// Steps of the change were taken: more of them.
    Stepping,
    /// The last line was heard.
    Ended,
}

impl Phase {
    // Whether points may still come.
    pub(crate) fn takes_points(self) -> bool
        ensures { IsTrue result ↔ TakesPoints self }
    {
        matches!(self, Phase::Opening | Phase::Placing)
    }

    // Whether steps may come.
    pub(crate) fn takes_steps(self) -> bool
        ensures { IsTrue result ↔ TakesSteps self }
    {
        matches!(self, Phase::Placing | Phase::Stepping)
    }
}
