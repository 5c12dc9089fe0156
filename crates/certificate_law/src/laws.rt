//! The laws: functions with nothing to do, whose contracts are the laws.
ghost use Rattle.std.specs.Prelude.{◌≡◌, ◌^◌, min, List, length, map, All};
ghost use Rattle.record_codec.specs.declared.record.Record.{Record};
ghost use Rattle.record_codec.specs.declared.snapshot.Snapshot.{Snapshot};
ghost use Rattle.realm_audit.specs.Items.{IsLine, text_of};
ghost use Rattle.realm_audit.specs.Verdicts.{IsVerdict};
ghost use Rattle.realm_audit.specs.declared.item.Item.{Item};
ghost use Rattle.realm_audit.specs.declared.verdict.Verdict.TheVariants.{Sound};
ghost use Rattle.realm_insert.specs.State.{State};
ghost use Rattle.realm_files.specs.Stands.{Files};
ghost use Rattle.realm_store.specs.Keeping.{Kept};
ghost use Rattle.realm_store.specs.Journals.{HasJournal};
ghost use Rattle.certificate_law.specs.Certificates.{IsCertificate, entries_of, step_count};

/// The certificate of what the files of a store keep is sound, with as many changes as the records have, and their steps.
pub fn certificate_is_sound()
    ensures { (files : Files) (kept : Kept) (base : Snapshot) (records : List Record) (list : List Item)
        → HasJournal files kept base records → IsCertificate base records kept.state list → All IsLine list
        → IsVerdict (map text_of list)
        (Sound (min (length (entries_of records)) (2 ^ 63)) (min (step_count (entries_of records)) (2 ^ 63))) }
{}

/// What the files of a store keep has a certificate, and a base, records and the state that they lead to have but one.
pub fn journal_has_one_certificate()
    ensures there { (files : Files) (kept : Kept) (base : Snapshot) (records : List Record)
        → HasJournal files kept base records → (list : List Item) × IsCertificate base records kept.state list }
    ensures one { (base : Snapshot) (records : List Record) (end : State) (first second : List Item)
        → IsCertificate base records end first → IsCertificate base records end second → first ≡ second }
{}
