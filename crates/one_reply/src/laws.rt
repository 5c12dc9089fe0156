//! Laws of replies: functions with nothing to do, whose contracts are the laws.
ghost use Rattle.std.specs.Prelude.{◌≡◌, ◌⊎◌, ℕ, false, List, Option, Some};
ghost use Rattle.line_grammar.specs.Lines.{Says, IsRefusal};
ghost use Rattle.line_grammar.specs.declared.command.Change.{Change};
ghost use Rattle.line_grammar.specs.declared.command.Command.{Command};
ghost use Rattle.line_grammar.specs.declared.command.Query.{Query};
ghost use Rattle.line_grammar.specs.declared.fault.LineError.TheVariants.{Bad};
ghost use Rattle.realm_insert.specs.State.{State, AreLatest};
ghost use Rattle.realm_insert.specs.Snapshots.{IsValidState};
ghost use Rattle.realm_store.specs.Keeping.{Kept, Group, SpendableKept, present};
ghost use Rattle.realm_store.specs.Making.{IsMade, Joins};
ghost use Rattle.realm_store.specs.Stands.{Opens};
ghost use Rattle.rose_query.specs.Answers.{AnswersQuery};
ghost use Rattle.query_batch.specs.Joined.{AreJoined};
ghost use Rattle.query_batch.specs.Answers.{TellsLine};
ghost use Rattle.rose_shell.specs.Answers.{StoreAnswers};
ghost use Rattle.one_reply.specs.Outcomes.{IsMadeTwice, JoinsTwice, IsOneOutcome};
ghost use Rattle.one_reply.specs.Payloads.{FitsInPages};
ghost use Rattle.one_reply.specs.Answerable.{IsDrawnOnGrid, HasSomeReply, HasSomeReplyInBatch, HasSomeAnswer};

/// A query has one reply in a state, and so has each line of a batch, and so have all of them together. The traces of the
/// state are those of its last changes, as in each valid state.
pub fn one_reply()
    ensures query { (q : Query) (s : State) (first second : List ℕ) → AreLatest s.changes s.traces
        → AnswersQuery q s first → AnswersQuery q s second → first ≡ second }
    ensures batch_line { (line : Option (List ℕ)) (s : State) (first second : List ℕ) → AreLatest s.changes s.traces
        → TellsLine s line first → TellsLine s line second → first ≡ second }
    ensures batch { (lines : List (Option (List ℕ))) (s : State) (first second : List ℕ) → AreLatest s.changes s.traces
        → AreJoined (TellsLine s) lines first → AreJoined (TellsLine s) lines second → first ≡ second }
{}

/// A line that is answered alone has one reply, which leads to one store, but for a change that is settled by two traces: there
/// the replies differ at most in the number of steps, and by one trace in nothing. A line says one command at most.
pub fn one_outcome()
    ensures line { (line : List ℕ) (old : SpendableKept) (first : List ℕ) (new : SpendableKept) (second : List ℕ)
        (other : SpendableKept) → AreLatest (present old).changes (present old).traces
        → StoreAnswers old line first new → StoreAnswers old line second other
        → IsOneOutcome line old first new second other }
    ensures change { (c : Change) (old : Kept) (first : List ℕ) (new : Kept) (second : List ℕ) (other : Kept)
        → IsMade c old first new → IsMade c old second other → IsMadeTwice c old first new second other }
    // The same of a change in a group.
    ensures joined { (c : Change) (kept : Kept) (old : Group) (first : List ℕ) (new : Group) (second : List ℕ) (other : Group)
        → Joins c kept old first new → Joins c kept old second other → JoinsTwice c kept old first new second other }
    ensures command { (line : List ℕ) (c d : Command) → Says line c → Says line d → c ≡ d }
{}

/// A state has one payload, and a valid state that fits into pages has some.
pub fn one_payload()
    ensures one { (s : State) (first second : List ℕ) → Opens first s → Opens second s → first ≡ second }
    ensures some { (s : State) → IsValidState s → FitsInPages s → (payload : List ℕ) × Opens payload s }
{}

/// Each line says a command or goes wrong at a place. In a valid state there is a reply to the queries and the lines that are
/// listed by `HasSomeReply`, `HasSomeReplyInBatch` and `HasSomeAnswer`.
pub fn some_reply()
    ensures query { (q : Query) (s : State) → HasSomeReply q s → IsValidState s → (reply : List ℕ) × AnswersQuery q s reply }
    ensures batch_line { (line : Option (List ℕ)) (s : State) → IsValidState s
        → ((c : Command) (text : List ℕ) → line ≡ Some text → Says text c → HasSomeReplyInBatch c s)
        → (reply : List ℕ) × TellsLine s line reply }
    ensures line { (line : List ℕ) (old : SpendableKept) → old.spent ≡ false → IsValidState (present old)
        → ((c : Command) → Says line c → HasSomeAnswer old c)
        → (reply : List ℕ) × (new : SpendableKept) × StoreAnswers old line reply new }
    // Each state that pages keep is drawn on the grid, as `HasSomeReply` asks for queries on classes of the plane.
    ensures on_grid { (payload : List ℕ) (s : State) → Opens payload s → IsDrawnOnGrid s }
    ensures said { (line : List ℕ) → ((c : Command) × Says line c) ⊎ ((at : ℕ) × IsRefusal line (Bad at)) }
{}
