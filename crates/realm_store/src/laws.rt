//! Laws of what files stand for, for crates above: functions with nothing to do, whose contracts are the laws.
ghost use Rattle.std.specs.Prelude.{◌≡◌, ℕ, true, List, Option};
ghost use Rattle.record_codec.specs.declared.record.Record.{Record};
ghost use Rattle.record_codec.specs.declared.snapshot.Snapshot.{Snapshot};
ghost use Rattle.realm_insert.specs.State.{State, empty_state};
ghost use Rattle.realm_pages.specs.declared.damage.Damage.{Damage};
ghost use Rattle.realm_files.specs.Alone.{StoodAt, alone, place_alone};
ghost use Rattle.realm_files.specs.Keeping.{KnowsGate};
ghost use Rattle.realm_files.specs.Stands.{Files};
ghost use Rattle.realm_files.specs.declared.place.Place.{Place as Seen};
ghost use Rattle.realm_store.specs.Stands.{meaning, StandsAt, StandsFor, AreEmpty};
ghost use Rattle.realm_store.specs.Keeping.{Kept, RestsAt, StandsGated, nothing_kept};
ghost use Rattle.realm_store.specs.Damages.{IsDamaged};
ghost use Rattle.realm_store.specs.Journals.{HasJournal};
ghost use Rattle.realm_store.specs.Before.{StoodBefore};

/// Files stand for one state with one place, or have one damage.
pub fn one_reading()
    ensures one_state { (files : Files) (s t : State) (p q : Option Seen)
        → StandsAt files s p → StandsAt files t q → (s ≡ t) × (p ≡ q) }
    ensures none_damaged { (d : Damage) (files : Files) (state : State)
        → IsDamaged d files → StandsFor files state → ⊥ }
    ensures one_damage { (d e : Damage) (files : Files) → IsDamaged d files → IsDamaged e files → d ≡ e }
{}

/// What file A stood for before there was a second file, it stands for beside an empty file B.
pub fn stands_alone()
    ensures { (file : List ℕ) (state : State) (next : Option ℕ) → StoodAt meaning file state next
        → StandsAt (alone file) state (place_alone next) }
{}

/// Two empty files stand for the empty state, and nothing is kept of them.
pub fn empty_files_stand()
    ensures stands { (files : Files) → AreEmpty files → StandsGated files empty_state }
    ensures rests { (files : Files) → AreEmpty files → RestsAt nothing_kept files }
{}

/// What a start keeps of files that stand for a state with their next gate: this gate, and this state.
pub fn gate_is_kept()
    ensures { (files : Files) (state : State) (kept : Kept) → StandsGated files state → RestsAt kept files
        → KnowsGate kept files → (kept.has_gate ≡ true) × (kept.state ≡ state) }
{}

/// Files stand for what their journal leads to.
pub fn journal_stands()
    ensures { (files : Files) (kept : Kept) (base : Snapshot) (records : List Record) → HasJournal files kept base records
        → StandsAt files kept.state kept.place }
{}

/// What two files stood for when each record was one change, they stand for now that a record may be a group.
pub fn stands_as_before()
    ensures { (files : Files) (state : State) (place : Option Seen) → StoodBefore files state place
        → StandsAt files state place }
{}
