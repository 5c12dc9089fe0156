//! Laws of changes, for crates above: functions with nothing to do, whose contracts are the laws.
ghost use Rattle.std.specs.Prelude.{◌≡◌, ℕ, List};
ghost use Rattle.grid_base.specs.Drawing.{IsDrawnRealm};
ghost use Rattle.grid_base.specs.declared.kinds.Step.{Step};
ghost use Rattle.line_grammar.specs.declared.command.Change.{Change};
ghost use Rattle.realm_insert.specs.Lines.{IsLet};
ghost use Rattle.realm_insert.specs.Misfits.{MisfitsAt};
ghost use Rattle.realm_insert.specs.Next.{Next, MakesNoViolation};
ghost use Rattle.realm_insert.specs.Refusals.{IsRefusedBy};
ghost use Rattle.realm_insert.specs.State.{State};
ghost use Rattle.realm_insert.specs.Values.{AreValuesOf};
ghost use Rattle.realm_insert.specs.declared.refusal.Refusal.{Refusal};

/// A change that was made is made again by its trace: it isn't refused, the trace fails nowhere, and the state that it
/// leads to is the same. A trace that fails does so at one number.
pub fn replay_agrees()
    ensures not_refused { (old new : State) (c : Change) (trace : List Step) (word : Refusal)
        → Next old c trace new → IsRefusedBy c old word → ⊥ }
    ensures fits { (old new : State) (c : Change) (trace : List Step) (number : ℕ)
        → Next old c trace new → MisfitsAt c old trace number → ⊥ }
    ensures one_state { (old new other : State) (c : Change) (trace : List Step)
        → Next old c trace new → Next old c trace other → new ≡ other }
    ensures one_number { (s : State) (c : Change) (trace : List Step) (m n : ℕ)
        → MisfitsAt c s trace m → MisfitsAt c s trace n → m ≡ n }
{}

/// A change by an operator draws what is drawn already, so it makes no violation where there is none.
pub fn let_makes_no_violation()
    ensures { (s : State) (c : Change) → IsLet c → IsDrawnRealm s.drawing → AreValuesOf s.drawing s.values
        → MakesNoViolation s c }
{}
