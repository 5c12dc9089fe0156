//! The laws: functions with nothing to do, whose contracts are the laws.
ghost use Rattle.std.specs.Prelude.{◌≡◌, ◌≤◌, List, All};
ghost use Rattle.record_codec.specs.declared.record.Record.{Record};
ghost use Rattle.realm_insert.specs.State.{State};
ghost use Rattle.realm_store.specs.Keeping.{Kept};
ghost use Rattle.pair_law.specs.History.{IsHistory, IsStateOf};
ghost use Rattle.pair_law.specs.Following.{Turn, IsRun, IsStartedAgain, lines_of};
ghost use Rattle.pair_law.specs.Pair.{Pair, Event, IsBeginning, Happen};
ghost use Rattle.pair_law.specs.Delivery.{IsDelivered};
ghost use Rattle.pair_law.specs.Law.{IsFollowing, IsSomeLineOf, EndsIn, IsSameRun};

/// After any events, the state of the follower is one of the primary's history, with at least as many changes as each
/// acknowledgement says. Further events never leave it with fewer. No list of events is impossible.
pub fn pair_law()
    ensures following { (events : List Event) (start end : Pair) → IsBeginning start → Happen start events end
        → IsFollowing end }
    ensures no_fewer { (events more : List Event) (start mid end : Pair) → IsBeginning start
        → Happen start events mid → Happen mid more end
        → mid.follower.state.changes ≤ end.follower.state.changes }
    ensures possible { (events : List Event) (start : Pair) → IsBeginning start
        → ((end : Pair) → Happen start events end → ⊥) → ⊥ }
{}

/// From a state and a place, lines have one list of replies, make one list of states, and lead to one state and place.
pub fn lines_have_one_output()
    ensures { (start again end other : Kept) (turns also : List Turn) → IsStartedAgain start again
        → lines_of also ≡ lines_of turns → IsRun start turns end → IsRun again also other
        → IsSameRun turns also end other }
{}

/// A follower whose state is one of a history ends in one of its states, over any lines of frames of this history, whichever
/// come, in which order and how often, with other lines among them; and each number that it acknowledges is that of a state
/// which it was in.
pub fn following_ends_in_the_history()
    ensures { (records : List Record) (now : State) (start end : Kept) (turns : List Turn) → IsHistory records now
        → IsStateOf records start.state → All (IsSomeLineOf records) turns → IsRun start turns end
        → EndsIn records start turns end }
{}

/// A follower whose state is one of a history, and which acknowledges all that is sent for its number of changes, each frame
/// once and in order, ends in the present state.
pub fn what_is_sent_is_enough()
    ensures { (records : List Record) (now : State) (start end : Kept) (turns : List Turn) → IsHistory records now
        → IsStateOf records start.state → IsDelivered records now start turns end → end.state ≡ now }
{}
