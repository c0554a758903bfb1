//! Sessions.

ghost use Rattle.std.specs.Prelude.{◌≡◌, ◌<◌, ◌++◌, ◌∷◌, [], Some, None, length, IsSome, IfOk};
ghost use Rattle.std.specs.Prelude.{IfSome, OnErr, option_map};
ghost use Rattle.c5_definitions.specs.OrderLog.{IsOpen};
ghost use Rattle.turn_slot.specs.Passes.{IsPassOf, numbers, seen, looks};
ghost use Rattle.c5_primary.specs.declared.state.Opened.{Opened as OpenedTxn};
ghost use Rattle.c5_primary.specs.Sessions.{BeginOf, ReadOf, CommitOf, CancelOf, IsOutcomeOf};
ghost use Rattle.c5_primary.specs.Sessions.{answers_of, txn_begun};
ghost use Rattle.c5_primary.specs.Slots.{IsSessionOf, slot_state};

use crate::parts::Parts;
use crate::state::{SessionFault, SessionState};
use crate::turns;
use c5_order::{Decision, Order};
use c5_rows::{Row, RowName, Writes};
use std::marker::Model;
use turn_slot::{Pass, TurnSlot};

/// A caller of an order book that is kept in a slot. It has one transaction at a time, and each of
/// its calls takes one turn, or reports who has it.
#[derive(Drop)]
pub struct Session<'a, 's> {
    parts: Parts<'a, 's>,
}

impl<'a, 's> Model for Session<'a, 's> {
    ghost use Rattle.c5_primary.specs.declared.state.SessionState.{SessionState};
    ghost use Rattle.c5_primary.specs.Parts.{state_of, HoldsParts};
    ghost use Rattle.c5_rows.specs.Cells.{coded_cell};
    ghost use Rattle.c5_rows.specs.Order.{coded_row_name, row_name_cmp};
    ghost use Rattle.std.specs.Coded.{codes, coded_list};
    ghost use Rattle.std.specs.FinMap as map;

    ghost Value = { SessionState };

    ghost coded = { Prim.hlevel
        (codes, map.code {R = row_name_cmp} coded_row_name (coded_list coded_cell)) };

    ghost view = { λ s. state_of s.parts };

    ghost invariant = { λ s. HoldsParts s.parts };
}

impl<'a, 's> Session<'a, 's> {
    /// A session of this pass, which has begun nothing.
    pub fn new(slot: &'a TurnSlot<Order<'s>>, pass: Pass<Order<'s>>) -> Session<'a, 's>
        requires { IsPassOf slot.now pass }
        ensures { result ≡ slot_state slot.now (numbers pass.entry) (seen pass.entry)
            (looks pass.entry) None }
    {
        Session {
            parts: Parts {
                slot,
                pass: Some(pass),
                begun: None,
            },
        }
    }

    /// The pass. What the session has begun stays open in the order book.
    pub fn into_pass(self) -> Pass<Order<'s>>
        ensures pass { (slot : _) → IsSessionOf slot self.entry → IsPassOf slot result }
        ensures numbers { numbers result ≡ self.entry.numbers }
        ensures seen { seen result ≡ self.entry.seen }
        ensures looks { looks result ≡ self.entry.looks }
    {
        let Session { parts } = self;
        let Parts {
            slot: _,
            pass,
            begun: _,
        } = parts;
        let Some(pass) = pass else { unreachable!() };
        pass
    }

    /// The stamp of the transaction that this session began last; `None` before the first, and once
    /// it is committed or cancelled.
    pub fn begun(&self) -> Option<u64>
        ensures stamp { result ≡ option_map (λ (o : OpenedTxn). o.stamp) self.now.begun }
        ensures is_open { IfSome self.now.begun
            (λ o. IsOpen self.now.seen (txn_begun self.now o)) }
    {
        match self.parts.begun {
            Some(opened) => Some(opened.stamp),
            None => None,
        }
    }

    /// Begins a transaction of the body of this number, with the stamp after the last one. The
    /// transaction that the session had begun before stays open in the order book.
    ///
    /// It is refused as `Order::begin` refuses it at this call's turn, or if another pass has the
    /// turn. After a refusal the session has begun what it had begun before.
    pub fn begin(&mut self, script: u32) -> Result<u64, SessionFault>
        requires { script < length self.old.base.bodies }
        ensures begin { BeginOf script self.old self.new result }
        ensures unread { IfOk result (λ _. answers_of self.new ≡ []) }
    {
        turns::begin(&mut self.parts, script)
    }

    /// The row that the open transaction sees. The only refusals are `Busy` and `NoMemory`, after
    /// which the transaction was answered what it was answered before.
    pub fn read(&mut self, name: &RowName) -> Result<Option<Row>, SessionFault>
        requires { IsSome self.old.begun }
        ensures read { ReadOf name.now self.old self.new result }
        ensures answers { IfOk result
            (λ row. answers_of self.new ≡ answers_of self.old ++ (name.now, row) ∷ []) }
        ensures kept { OnErr result (answers_of self.new ≡ answers_of self.old) }
    {
        turns::read(&mut self.parts, name)
    }

    /// Commits the open transaction, unless a later one has read the version of a row of the writes
    /// that it sees. The writes are those that its body gives on what it was answered. The only
    /// refusals are `Busy` and `NoMemory`. The transaction stays open but after `Committed`.
    pub fn commit(&mut self, writes: &Writes) -> Result<Decision, SessionFault>
        requires { IsOutcomeOf self.old writes.now }
        ensures { CommitOf writes.now self.old self.new result }
    {
        turns::commit(&mut self.parts, writes)
    }

    /// Cancels the open transaction. The only refusal is `Busy`. It takes no memory.
    pub fn cancel(&mut self) -> Result<(), SessionFault>
        requires { IsSome self.old.begun }
        ensures { CancelOf self.old self.new result }
    {
        turns::cancel(&mut self.parts)
    }
}
