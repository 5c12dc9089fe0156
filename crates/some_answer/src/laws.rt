//! Laws of changes and lines: functions with nothing to do, whose contracts are the laws.
ghost use Rattle.std.specs.Prelude.{◌≡◌, ◌⊎◌, ℕ, false, List};
ghost use Rattle.grid_base.specs.declared.kinds.Step.{Step};
ghost use Rattle.line_grammar.specs.Lines.{Says};
ghost use Rattle.line_grammar.specs.Spellable.{IsSpellableChange};
ghost use Rattle.line_grammar.specs.declared.command.Change.{Change};
ghost use Rattle.line_grammar.specs.declared.command.Command.{Command};
ghost use Rattle.realm_insert.specs.Next.{Next};
ghost use Rattle.realm_insert.specs.Refusals.{IsRefusedBy};
ghost use Rattle.realm_insert.specs.Snapshots.{IsValidState};
ghost use Rattle.realm_insert.specs.State.{State};
ghost use Rattle.realm_insert.specs.declared.refusal.Refusal.{Refusal};
ghost use Rattle.realm_store.specs.Keeping.{SpendableKept, present};
ghost use Rattle.realm_store.specs.Sound.{IsSound};
ghost use Rattle.rose_shell.specs.Answers.{StoreAnswers};
ghost use Rattle.one_reply.specs.Answerable.{IsDrawnOnGrid};
ghost use Rattle.some_answer.specs.Answered.{HasFewOriginals, IsAnswered};

/// In a valid state that is drawn on the grid each change is refused by a word, or there are a trace and a state to which it leads.
pub fn some_change()
    ensures { (c : Change) (s : State) → IsValidState s → IsDrawnOnGrid s
        → ((word : Refusal) × IsRefusedBy c s word) ⊎ ((trace : List Step) × (new : State) × Next s c trace new) }
{}

/// Whichever trace it is, the new state is sound, and drawn on the grid.
pub fn valid_change()
    ensures sound { (c : Change) (s new : State) (trace : List Step) → IsValidState s → IsDrawnOnGrid s → IsSpellableChange c
        → HasFewOriginals c s → Next s c trace new → IsSound new }
    ensures on_grid { (c : Change) (s new : State) (trace : List Step) → IsValidState s → IsDrawnOnGrid s
        → Next s c trace new → IsDrawnOnGrid new }
{}

/// A line that is answered alone has an answer.
pub fn some_answer()
    ensures { (line : List ℕ) (old : SpendableKept) → old.spent ≡ false → IsValidState (present old)
        → ((c : Command) → Says line c → IsAnswered old c)
        → (reply : List ℕ) × (new : SpendableKept) × StoreAnswers old line reply new }
{}
