//! The calls of a session, each at one turn.

ghost use Rattle.std.specs.Prelude.{◌≡◌, ◌<◌, ◌++◌, ◌∷◌, [], length, IsSome, IfOk, OnErr};
ghost use Rattle.c5_primary.specs.Sessions.{BeginOf, ReadOf, CommitOf, CancelOf, IsOutcomeOf};
ghost use Rattle.c5_primary.specs.Sessions.{answers_of, fault_of, still_open};
ghost use Rattle.c5_primary.specs.Parts.{state_of, HoldsParts};

use crate::parts::Parts;
use crate::state::{Opened, SessionFault};
use c5_order::{BeginFault, Decision};
use c5_rows::{Row, RowName, Writes};
use turn_slot::Take;

// The same refusal.
fn fault_of(fault: BeginFault) -> SessionFault
    ensures { result ≡ fault_of fault }
{
    match fault {
        BeginFault::Committed { stamp } => SessionFault::Committed { stamp },
        BeginFault::Began { stamp } => SessionFault::Began { stamp },
        BeginFault::Stamps { last } => SessionFault::Stamps { last },
        BeginFault::NoMemory => SessionFault::NoMemory,
    }
}

/// Begins a transaction of the body of this number.
pub fn begin(parts: &mut Parts<'_, '_>, script: u32) -> Result<u64, SessionFault>
    requires holds { HoldsParts parts.old }
    requires known { script < length (state_of parts.old).base.bodies }
    ensures holds { HoldsParts parts.new }
    ensures begin { BeginOf script (state_of parts.old) (state_of parts.new) result }
    ensures unread { IfOk result (λ _. answers_of (state_of parts.new) ≡ []) }
{
    let Some(pass) = parts.pass.take() else {
        unreachable!()
    };
    let number = pass.number();
    match parts.slot.try_take(pass) {
        Take::Busy { holder, pass } => {
            parts.pass = Some(pass);
            Err(SessionFault::Busy { holder })
        }
        Take::Took { mut value, turn } => {
            value.know_history();
            match value.begin(number, script) {
                Ok(stamp) => {
                    value.know_history();
                    parts.pass = Some(parts.slot.give(turn, value));
                    parts.begun = Some(Opened { stamp, script });
                    Ok(stamp)
                }
                Err(fault) => {
                    parts.pass = Some(parts.slot.give(turn, value));
                    Err(fault_of(fault))
                }
            }
        }
    }
}

/// The row that the open transaction sees.
pub fn read(parts: &mut Parts<'_, '_>, name: &RowName) -> Result<Option<Row>, SessionFault>
    requires holds { HoldsParts parts.old }
    requires begun { IsSome parts.old.begun }
    ensures holds { HoldsParts parts.new }
    ensures read { ReadOf name.now (state_of parts.old) (state_of parts.new) result }
    ensures answers { IfOk result (λ row. answers_of (state_of parts.new)
        ≡ answers_of (state_of parts.old) ++ (name.now, row) ∷ []) }
    ensures kept { OnErr result
        (answers_of (state_of parts.new) ≡ answers_of (state_of parts.old)) }
{
    let Some(pass) = parts.pass.take() else {
        unreachable!()
    };
    let Some(opened) = parts.begun else {
        unreachable!()
    };
    match parts.slot.try_take(pass) {
        Take::Busy { holder, pass } => {
            parts.pass = Some(pass);
            Err(SessionFault::Busy { holder })
        }
        Take::Took { mut value, turn } => {
            value.know_history();
            match value.read(opened.stamp, name) {
                Ok(row) => {
                    parts.pass = Some(parts.slot.give(turn, value));
                    Ok(row)
                }
                Err(_) => {
                    parts.pass = Some(parts.slot.give(turn, value));
                    Err(SessionFault::NoMemory)
                }
            }
        }
    }
}

// The transaction that is open after a decision.
fn still_open(decision: &Decision, opened: Option<Opened>) -> Option<Opened>
    ensures { result ≡ still_open decision.now opened }
{
    match decision {
        Decision::Committed => None,
        Decision::Conflict { .. } => opened,
    }
}

/// Commits the open transaction.
pub fn commit(parts: &mut Parts<'_, '_>, writes: &Writes) -> Result<Decision, SessionFault>
    requires holds { HoldsParts parts.old }
    requires outcome { IsOutcomeOf (state_of parts.old) writes.now }
    ensures holds { HoldsParts parts.new }
    ensures commit { CommitOf writes.now (state_of parts.old) (state_of parts.new) result }
{
    let Some(pass) = parts.pass.take() else {
        unreachable!()
    };
    let Some(opened) = parts.begun else {
        unreachable!()
    };
    match parts.slot.try_take(pass) {
        Take::Busy { holder, pass } => {
            parts.pass = Some(pass);
            Err(SessionFault::Busy { holder })
        }
        Take::Took { mut value, turn } => {
            value.know_history();
            match value.commit(opened.stamp, writes) {
                Ok(decision) => {
                    parts.pass = Some(parts.slot.give(turn, value));
                    parts.begun = still_open(&decision, parts.begun);
                    Ok(decision)
                }
                Err(_) => {
                    parts.pass = Some(parts.slot.give(turn, value));
                    Err(SessionFault::NoMemory)
                }
            }
        }
    }
}

/// Cancels the open transaction.
pub fn cancel(parts: &mut Parts<'_, '_>) -> Result<(), SessionFault>
    requires holds { HoldsParts parts.old }
    requires begun { IsSome parts.old.begun }
    ensures holds { HoldsParts parts.new }
    ensures cancel { CancelOf (state_of parts.old) (state_of parts.new) result }
{
    let Some(pass) = parts.pass.take() else {
        unreachable!()
    };
    let Some(opened) = parts.begun else {
        unreachable!()
    };
    match parts.slot.try_take(pass) {
        Take::Busy { holder, pass } => {
            parts.pass = Some(pass);
            Err(SessionFault::Busy { holder })
        }
        Take::Took { mut value, turn } => {
            value.know_history();
            value.cancel(opened.stamp);
            parts.pass = Some(parts.slot.give(turn, value));
            parts.begun = None;
            Ok(())
        }
    }
}
