//! Laws of certificates, for crates above: functions with nothing to do, whose contracts are the laws.
ghost use Rattle.std.specs.Prelude.{◌≡◌, ◌⊎◌, ◌^◌, ◌≢◌, min, IsTrue, ◌++◌, ◌∷◌, [], List, ℕ, Bool, All, map, count_by};
ghost use Rattle.std.specs.List.{AllZip};
ghost use Rattle.grid_base.specs.Point.{IsBefore};
ghost use Rattle.hook_chain.specs.Chains.{RunsFrom};
ghost use Rattle.grid_base.specs.Drawing.{IsDrawnRealm};
ghost use Rattle.grid_base.specs.declared.kinds.Step.{Step};
ghost use Rattle.hook_chain.specs.Steps.{Settles};
ghost use Rattle.hook_chain.specs.Straight.{along};
ghost use Rattle.hook_chain.specs.StandingChains.{StaysInEnvelope};
ghost use Rattle.realm_audit.specs.Audits.{Audit, first_audit, LineHolds, Runs};
ghost use Rattle.realm_audit.specs.Verdicts.{Hearing, HasHeard, Hears, Judges, IsVerdict, AllAccepted};
ghost use Rattle.realm_audit.specs.Verdicts.Hearing.{Heard, Exhausted};
ghost use Rattle.realm_audit.specs.Items.{IsTextOf};
ghost use Rattle.realm_audit.specs.Facts.{IsClosing, is_change, is_step};
ghost use Rattle.realm_audit.specs.SoundLists.{IsSoundList};
ghost use Rattle.realm_audit.specs.declared.item.Item.{Item};
ghost use Rattle.realm_audit.specs.declared.item.Item.TheVariants as items;
ghost use Rattle.realm_audit.specs.declared.verdict.Verdict.{Verdict};
ghost use Rattle.realm_audit.specs.declared.verdict.Verdict.TheVariants.{Sound};

/// What an auditor has heard grows by each line, it judges by that, and texts that are accepted are those of items that
/// hold one after the other.
pub fn hearing_is_judged()
    ensures nothing { HasHeard (Heard 0 first_audit) [] }
    ensures one_more { (old new : Hearing) (texts : List (List ℕ)) (text : List ℕ) (held : Bool)
        → HasHeard old texts → Hears old text held new → new ≢ Exhausted → HasHeard new (texts ++ text ∷ []) }
    ensures verdict { (heard : Hearing) (texts : List (List ℕ)) (verdict : Verdict)
        → HasHeard heard texts → Judges heard verdict → IsVerdict texts verdict }
    ensures items { (old new : Audit) (texts : List (List ℕ)) → AllAccepted old texts new
        → (list : List Item) × AllZip IsTextOf texts list × Runs old list new }
{}

/// Where a change begins, and at the end, the drawing is a realm. Whatever lines were heard, each chain leads from its
/// original's lesser end to the greater, and each grid point on it is in the envelope of the original.
pub fn run_stands()
    ensures realm { (old new : Audit) (item : Item) → IsClosing item → LineHolds old item new → IsDrawnRealm new.drawing }
    ensures leads { (list : List Item) (audit : Audit) → Runs first_audit list audit
        → All (λ o. IsBefore o.a o.b × RunsFrom o.a o.b o.chain) audit.drawing.originals }
    ensures in_envelope { (list : List Item) (audit : Audit) → Runs first_audit list audit
        → All (λ o. StaysInEnvelope (along o) o.chain) audit.drawing.originals }
{}

/// The steps of a change come last in it, and settle the drawing that they begin with.
pub fn run_settles()
    ensures come_last { (old between new : Audit) (step : Step) (item : Item) → LineHolds old (items.Step step) between
        → LineHolds between item new → IsClosing item ⊎ IsTrue (is_step item) }
    ensures settle { (old between new : Audit) (trace : List Step) (item : Item) → IsClosing item
        → Runs old (map items.Step trace) between → LineHolds between item new
        → Settles old.drawing trace new.drawing }
{}

/// Changes and steps are counted, up to 2^63.
pub fn run_is_counted()
    ensures changes { (list : List Item) (audit : Audit) → Runs first_audit list audit
        → audit.changes ≡ min (count_by is_change list) (2 ^ 63) }
    ensures steps { (list : List Item) (audit : Audit) → Runs first_audit list audit
        → audit.steps ≡ min (count_by is_step list) (2 ^ 63) }
{}

/// A sound text is that of a list of items, the last of which is `end`. Where a change begins, and at the end, what was drawn
/// so far is a realm, and chains lead from end to end in their envelopes all along. The steps of each change settle the drawing
/// that they begin with.
pub fn sound_text()
    ensures { (texts : List (List ℕ)) (changes steps : ℕ) → IsVerdict texts (Sound changes steps)
        → (list : List Item) × AllZip IsTextOf texts list × IsSoundList list changes steps }
{}

/// A text has one verdict.
pub fn one_verdict()
    ensures { (texts : List (List ℕ)) (first second : Verdict) → IsVerdict texts first → IsVerdict texts second
        → first ≡ second }
{}
