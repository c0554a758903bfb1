//! The end of a run: what the threads left is run here, one body after the other.

ghost use Rattle.std.specs.Prelude.{◌≡◌, ◌<◌, ◌≤◌, ◌+◌, ◌^◌, [], length, IsSome, None};
ghost use Rattle.std.specs.Prelude.{IfOk, OnOk, OnErr};
ghost use mathlib.Core.List.{IsPrefix};
ghost use Rattle.c5_rows.specs.Sizes.{max_transactions};
ghost use Rattle.c5_definitions.specs.History.{answered, last_stamp, open_txns};
ghost use Rattle.c5_definitions.specs.OrderLog.{IsOutcome, IsStampOrderRun, committed};
ghost use Rattle.c5_definitions.specs.OrderLog.{committed_stamp};
ghost use Rattle.c5_definitions.specs.SerialRun.{body_at};
ghost use Rattle.c5_primary.specs.Finishing.{own_txn, GoesOn, IsAlone, AreCommittedBelow};

use crate::held::HeldRows;
use crate::state::Opened;
use c5_eval::{EvalFault, evaluate};
use c5_order::{BeginFault, Decision, Order, order_law};
use c5_rows::{NoMemory, Writes};
use c5_script::Body;
use std::alloc::Global;
use turn_slot::Kept;

// The caller of the transactions that are begun here. No pass has this number.
const CALLER: u64 = 0;

// Cancels every open transaction.
fn cancel_all(order: &mut Order<'_>)
    ensures goes_on { GoesOn order.old order.new }
    ensures ended { open_txns order.new.history ≡ [] }
    ensures last { last_stamp order.new.base.last order.new.history
        ≡ last_stamp order.old.base.last order.old.history }
{
    while let Some(stamp) = order.first_begun() {
        order.cancel(stamp);
    }
}

// Begins a body that isn't committed, while no transaction is open.
fn begin(order: &mut Order<'_>, script: u32) -> Result<Opened, NoMemory>
    requires known { script < length order.old.base.bodies }
    requires none { open_txns order.old.history ≡ [] }
    requires left { committed_stamp script (committed order.old.history) ≡ None }
    requires last { last_stamp order.old.base.last order.old.history + 1 < 2 ^ 64 }
    ensures goes_on { GoesOn order.old order.new }
    ensures alone { IfOk result (λ o. IsAlone order.new (own_txn o)) }
    ensures script { IfOk result (λ o. o.script ≡ script) }
    ensures stamp { IfOk result
        (λ o. o.stamp ≡ last_stamp order.old.base.last order.old.history + 1) }
    ensures unread { IfOk result
        (λ o. answered order.new.base.start order.new.history o.stamp ≡ []) }
    ensures err { OnErr result (order.new ≡ order.old) }
{
    match order.begin(CALLER, script) {
        Ok(stamp) => {
            order.know_history();
            Ok(Opened { stamp, script })
        }
        Err(BeginFault::Committed { .. }) => unreachable!(),
        Err(BeginFault::Began { .. }) => unreachable!(),
        Err(BeginFault::Stamps { .. }) => unreachable!(),
        Err(BeginFault::NoMemory) => Err(NoMemory),
    }
}

// The writes that the body of the one open transaction gives.
fn writes_of(
    alloc: Global,
    order: &mut Order<'_>,
    opened: Opened,
    body: &Body,
) -> Result<Writes, NoMemory>
    requires alone { IsAlone order.old (own_txn opened) }
    requires unread { answered order.old.base.start order.old.history opened.stamp ≡ [] }
    requires body { body.now ≡ body_at order.old.base.bodies opened.script }
    ensures goes_on { GoesOn order.old order.new }
    ensures alone { IsAlone order.new (own_txn opened) }
    ensures outcome { IfOk result
        (λ writes. IsOutcome order.new.base order.new.history (own_txn opened) writes) }
{
    order.know_size();
    let before = order.entries();
    let mut rows = HeldRows {
        order,
        stamp: opened.stamp,
        before,
        refusals: 0,
    };
    match evaluate(alloc, body, &mut rows) {
        Ok(outcome) => Ok(outcome.writes),
        Err(EvalFault::Read(NoMemory)) => Err(NoMemory),
        Err(EvalFault::NoMemory) => Err(NoMemory),
    }
}

// Commits the one open transaction. It has no conflict, since no later one has read anything.
fn commit(order: &mut Order<'_>, opened: Opened, writes: &Writes) -> Result<(), NoMemory>
    requires alone { IsAlone order.old (own_txn opened) }
    requires outcome { IsOutcome order.old.base order.old.history (own_txn opened) writes.now }
    ensures goes_on { GoesOn order.old order.new }
    ensures last { last_stamp order.new.base.last order.new.history ≡ opened.stamp }
    ensures ended { OnOk result (open_txns order.new.history ≡ []) }
    ensures committed { OnOk result
        (IsSome (committed_stamp opened.script (committed order.new.history))) }
    ensures err { OnErr result (order.new ≡ order.old) }
{
    order.know_history();
    match order.commit(opened.stamp, writes) {
        Ok(decision) => match decision {
            Decision::Committed => Ok(()),
            Decision::Conflict { .. } => unreachable!(),
        },
        Err(NoMemory) => Err(NoMemory),
    }
}

// Runs a body that isn't committed, while no transaction is open.
fn run_one(alloc: Global, order: &mut Order<'_>, script: u32, body: &Body) -> Result<(), NoMemory>
    requires known { script < length order.old.base.bodies }
    requires body { body.now ≡ body_at order.old.base.bodies script }
    requires none { open_txns order.old.history ≡ [] }
    requires left { committed_stamp script (committed order.old.history) ≡ None }
    requires last { last_stamp order.old.base.last order.old.history + 1 < 2 ^ 64 }
    ensures goes_on { GoesOn order.old order.new }
    ensures last { last_stamp order.new.base.last order.new.history
        ≤ last_stamp order.old.base.last order.old.history + 1 }
    ensures ended { OnOk result (open_txns order.new.history ≡ []) }
    ensures committed { OnOk result
        (IsSome (committed_stamp script (committed order.new.history))) }
    ensures one_open { OnErr result (length (open_txns order.new.history) ≤ 1) }
{
    let opened = begin(order, script)?;
    let writes = writes_of(alloc, order, opened, body)?;
    commit(order, opened, &writes)
}

// Runs every body that isn't committed, in the order of their numbers.
fn run_left(alloc: Global, order: &mut Order<'_>) -> Result<(), NoMemory>
    requires none { open_txns order.old.history ≡ [] }
    requires last { last_stamp order.old.base.last order.old.history + max_transactions < 2 ^ 64 }
    ensures goes_on { GoesOn order.old order.new }
    ensures last { last_stamp order.new.base.last order.new.history
        ≤ last_stamp order.old.base.last order.old.history + length order.old.base.bodies }
    ensures committed { OnOk result
        (AreCommittedBelow (length order.old.base.bodies) order.new.history) }
    ensures ended { OnOk result (open_txns order.new.history ≡ []) }
    ensures one_open { OnErr result (length (open_txns order.new.history) ≤ 1) }
{
    order.know_size();
    let bodies = order.bodies();
    for script in 0..bodies.len() as u32 {
        if order.committed(script).is_none() {
            run_one(alloc, order, script, &bodies[script as usize])?;
        }
    }
    Ok(())
}

/// Ends a run: cancels every open transaction, and then runs every body that isn't committed, one
/// after the other, in the order of their numbers. A body that it runs has the next stamp.
///
/// After `NoMemory`, some of this has been done, at most one transaction is open, and a second call
/// goes on from there. Whatever the result, the committed transactions are a run of their bodies
/// in the order of their stamps, from the rows at the start, and no body comes twice.
pub fn finish(alloc: Global, order: &mut Order<'_>) -> Result<(), NoMemory>
    requires { last_stamp order.old.base.last order.old.history + max_transactions < 2 ^ 64 }
    ensures base { order.new.base ≡ order.old.base }
    ensures grew { IsPrefix order.old.history order.new.history }
    ensures stamps { last_stamp order.new.base.last order.new.history
        ≤ last_stamp order.old.base.last order.old.history + length order.old.base.bodies }
    ensures run { IsStampOrderRun order.new.base (committed order.new.history) }
    ensures committed { OnOk result
        (AreCommittedBelow (length order.new.base.bodies) order.new.history) }
    ensures ended { OnOk result (open_txns order.new.history ≡ []) }
    ensures one_open { OnErr result (length (open_txns order.new.history) ≤ 1) }
{
    cancel_all(order);
    let done = run_left(alloc, order);
    order.know_history();
    order_law();
    done
}
