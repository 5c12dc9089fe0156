//! What a commit writes. All memory is taken while it is made ready, so want of memory leaves the files as they were. The
//! gate is made ready before the engine changes: a generation of its own keeps the state before.
ghost use Rattle.std.specs.Prelude.{◌≡◌, ◌<◌, ◌≤◌, ◌^◌, ◌⊎◌, ◌∷◌, [], false, length, Err, IfOk, OnOk, MatchOption};
ghost use Rattle.line_grammar.specs.Spelling.{change_text};
ghost use Rattle.line_grammar.specs.Spellable.{IsSpellableChange};
ghost use Rattle.record_codec.specs.Fitting.{IsChange, IsRecord};
ghost use Rattle.realm_insert.specs.Refusals.{IsAccepted, IsRefusedBy};
ghost use Rattle.realm_insert.specs.declared.refusal.Refusal.{Refusal as Word};
ghost use Rattle.realm_store.specs.Keeping.{kept_at};
ghost use Rattle.realm_store.specs.Making.{HasRoom, IsRefusedFor};
ghost use Rattle.realm_store.specs.NextGates.{IsGateFor};
ghost use Rattle.realm_store.specs.ReadyChanges.{IsMadeOf, IsReady};

use crate::gates::{NextGate, gate_for, lack_of};
use crate::looking::is_sound;
use crate::renewing::wants_generation;
use crate::replies::accept;
use grid_base::{NoMemory, Reply};
use line_grammar::Change;
use realm_files::Place;
use realm_insert::{Applied, ChangeError, Engine, Refusal};
use realm_journal::{Prepared, prepare};
use record_codec::{Entries, Entry, Record};
use std::alloc::Global;
use std::thread::Threads;

/// A change that the engine has made: its entry, and the reply to it.
#[derive(Drop)]
pub(crate) struct Made {
    pub(crate) entry: Entry,
    pub(crate) reply: Reply,
}

/// What a commit writes, and the reply to it.
#[derive(Drop)]
pub(crate) struct Ready {
    pub(crate) gate: NextGate,
    pub(crate) record: Prepared,
    pub(crate) reply: Reply,
}

/// Makes a change in the engine, where there is room for its record, and takes all the memory that its writing needs.
pub(crate) fn ready_change<R: Threads + Sync>(
    rt: &R,
    alloc: Global,
    engine: &mut Engine,
    place: Option<Place>,
    has_gate: bool,
    c: &Change,
    line: &[u8],
) -> Result<Ready, ChangeError>
    requires ready { engine.old.spent ≡ false }
    requires spellable { IsSpellableChange c.now }
    requires short { length (change_text c.now) ≤ 2 ^ 20 }
    requires says { line.now ≡ change_text c.now }
    ensures made { IfOk result (λ ready. IsReady c.now (kept_at engine.old.state place has_gate) engine.new.state ready) }
    ensures ready { OnOk result (engine.new.spent ≡ false) }
    ensures refused { (word : Word) → result ≡ Err (ChangeError.Refused word)
        → IsRefusedFor c.now engine.old.state (kept_at engine.old.state place has_gate) word × (engine.new ≡ engine.old) }
{
    let gate = gate_before(rt, alloc, engine, place, has_gate, c)?;
    let made = make_change(rt, alloc, engine, c, line)?;
    let ready = make_ready(alloc, gate, engine.changes(), made)?;
    Ok(ready)
}

// The gate of a change outside a group, where there is room for its record. Where that wants a generation of its own, a
// change that the engine refuses costs no payload; at the last generation any other costs one, and is refused.
fn gate_before<R: Threads + Sync>(
    rt: &R,
    alloc: Global,
    engine: &Engine,
    place: Option<Place>,
    has_gate: bool,
    c: &Change,
) -> Result<NextGate, ChangeError>
    requires ready { engine.now.spent ≡ false }
    requires spellable { IsSpellableChange c.now }
    ensures gate { IfOk result (λ gate. IsGateFor gate (kept_at engine.now.state place has_gate)) }
    ensures room { OnOk result (HasRoom (kept_at engine.now.state place has_gate)) }
    ensures refused { (word : Word) → result ≡ Err (ChangeError.Refused word)
        → IsRefusedFor c.now engine.now.state (kept_at engine.now.state place has_gate) word }
{
    ask_first(rt, engine, place, c)?;
    let gate = gate_for(alloc, engine, place, has_gate)?;
    match lack_of(&gate) {
        None => Ok(gate),
        Some(lack) => Err(refusal_or(rt, engine, c, lack)),
    }
}

// Refuses a change whose record wants a generation of its own, where the engine does.
fn ask_first<R: Threads + Sync>(
    rt: &R,
    engine: &Engine,
    place: Option<Place>,
    c: &Change,
) -> Result<(), ChangeError>
    requires ready { engine.now.spent ≡ false }
    requires spellable { IsSpellableChange c.now }
    ensures { (word : Word) → result ≡ Err (ChangeError.Refused word) → IsRefusedBy c.now engine.now.state word }
{
    if !wants_generation(place) {
        return Ok(());
    }
    match engine.refusal(rt, c) {
        Ok(None) => Ok(()),
        Ok(Some(word)) => Err(ChangeError::Refused(word)),
        Err(NoMemory) => Err(ChangeError::NoMemory),
    }
}

/// Why a change isn't made: the engine refuses it, or there is this lack.
pub(crate) fn refusal_or<R: Threads + Sync>(
    rt: &R,
    engine: &Engine,
    c: &Change,
    lack: Refusal,
) -> ChangeError
    requires ready { engine.now.spent ≡ false }
    requires spellable { IsSpellableChange c.now }
    ensures { (word : Word) → result ≡ ChangeError.Refused word
        → IsRefusedBy c.now engine.now.state word ⊎ (IsAccepted c.now engine.now.state × (word ≡ lack)) }
{
    match engine.refusal(rt, c) {
        Ok(Some(word)) => ChangeError::Refused(word),
        Ok(None) => ChangeError::Refused(lack),
        Err(NoMemory) => ChangeError::NoMemory,
    }
}

/// Makes a change in the engine, and its entry and its reply, where this line is the text of the change.
pub(crate) fn make_change<R: Threads + Sync>(
    rt: &R,
    alloc: Global,
    engine: &mut Engine,
    c: &Change,
    line: &[u8],
) -> Result<Made, ChangeError>
    requires ready { engine.old.spent ≡ false }
    requires spellable { IsSpellableChange c.now }
    requires says { line.now ≡ change_text c.now }
    ensures made { IfOk result (λ made. IsMadeOf c.now engine.old.state engine.new.state made) }
    ensures ready { OnOk result (engine.new.spent ≡ false) }
    ensures refused { (word : Word) → result ≡ Err (ChangeError.Refused word)
        → IsRefusedBy c.now engine.old.state word × (engine.new ≡ engine.old) }
{
    match engine.change(rt, c) {
        Ok(applied) => {
            is_sound(engine);
            let reply = accept(alloc, engine.changes(), &applied)?;
            let entry = entry_of(alloc, line, applied)?;
            Ok(Made { entry, reply })
        }
        Err(error) => Err(error),
    }
}

// The entry of the change with this text.
fn entry_of(alloc: Global, line: &[u8], applied: Applied) -> Result<Entry, NoMemory>
    ensures { IfOk result (λ entry. entry ≡ record { line = line.now; trace = applied.trace }) }
{
    let line = Reply::new(Vec::from_slice(alloc, line)?);
    Ok(Entry {
        line,
        trace: applied.trace,
    })
}

// Takes the memory for the record of the change with this number, which goes behind this gate.
fn make_ready(alloc: Global, gate: NextGate, number: u64, made: Made) -> Result<Ready, NoMemory>
    requires from_one { 0 < number }
    requires change { IsChange made.entry.line }
    requires short { length made.entry.line ≤ 2 ^ 20 }
    ensures gate { IfOk result (λ ready. ready.gate ≡ gate) }
    ensures record { IfOk result (λ ready. (ready.record
        ≡ record { number = number; entries = made.entry ∷ [] }) × IsRecord ready.record) }
    ensures reply { IfOk result (λ ready. ready.reply ≡ made.reply) }
{
    let Made { entry, reply } = made;
    let record = prepare(alloc, &Record::new(number, Entries::one(alloc, entry)?))?;
    Ok(Ready {
        gate,
        record,
        reply,
    })
}
