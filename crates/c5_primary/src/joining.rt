//! The passes of the threads' sessions, joined to one.

ghost use Rattle.std.specs.Prelude.{◌≡◌, ◌<◌, ◌++◌, length, All, IfOk, IsOk};
ghost use Rattle.std.specs.List.{flat_map};
ghost use Rattle.turn_slot.specs.Passes.{numbers, IsPassOf};
ghost use Rattle.c5_primary.specs.Jobs.{AreDoneOf, done_numbers};

use crate::session::Session;
use c5_order::Order;
use c5_rows::NoMemory;
use turn_slot::{Pass, TurnSlot};

// The pass that unites these and the first one.
fn join_more<'s>(
    slot: &TurnSlot<Order<'s>>,
    first: Pass<Order<'s>>,
    mut done: Vec<Result<Session<'_, 's>, NoMemory>>,
) -> Result<Pass<Order<'s>>, NoMemory>
    requires first { IsPassOf slot.now first }
    requires done { AreDoneOf slot.now done.items }
    ensures pass { IfOk result (λ pass. IsPassOf slot.now pass) }
    ensures numbers { IfOk result (λ pass. numbers pass
        ≡ flat_map done_numbers done.entry.items ++ numbers first.entry) }
    ensures all { IfOk result (λ _. All IsOk done.entry.items) }
{
    let mut all = first;
    while let Some(next) = done.pop() {
        match next {
            Ok(session) => all = slot.join(session.into_pass(), all),
            Err(NoMemory) => return Err(NoMemory),
        }
    }
    Ok(all)
}

/// One pass of all that the threads gave back, unless one of them ran out of memory.
pub fn join_all<'s>(
    slot: &TurnSlot<Order<'s>>,
    mut done: Vec<Result<Session<'_, 's>, NoMemory>>,
) -> Result<Pass<Order<'s>>, NoMemory>
    requires some { 0 < length done.items }
    requires done { AreDoneOf slot.now done.items }
    ensures pass { IfOk result (λ pass. IsPassOf slot.now pass) }
    ensures numbers { IfOk result
        (λ pass. numbers pass ≡ flat_map done_numbers done.entry.items) }
    ensures all { IfOk result (λ _. All IsOk done.entry.items) }
{
    let Some(last) = done.pop() else {
        unreachable!()
    };
    match last {
        Ok(session) => join_more(slot, session.into_pass(), done),
        Err(NoMemory) => Err(NoMemory),
    }
}
