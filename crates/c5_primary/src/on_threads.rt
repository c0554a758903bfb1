//! A run of a script on threads.

ghost use Rattle.std.specs.Prelude.{◌≡◌, ◌≤◌, [], length, IfOk};
ghost use Rattle.std.specs.FinMap.{empty};
ghost use Rattle.std.specs.List.{range_with_len};
ghost use Rattle.c5_rows.specs.Order.{row_name_cmp};
ghost use Rattle.c5_rows.specs.Sizes.{max_threads, max_transactions};
ghost use Rattle.c5_definitions.specs.History.{open_txns};
ghost use Rattle.c5_definitions.specs.OrderLog.{IsStampOrderRun, committed};
ghost use Rattle.c5_definitions.specs.SerialRun.{serial_txns, SerialRun};
ghost use Rattle.c5_primary.specs.Finishing.{AreCommittedBelow};

use crate::finishing::finish;
use crate::joining::join_all;
use crate::serial::run_serial;
use crate::threads::{jobs_of, run_all};
use c5_io::Gate;
use c5_order::Order;
use c5_rows::{NoMemory, Rows, Txn};
use c5_script::{Body, Script};
use std::alloc::Global;
use std::thread::Threads;
use turn_slot::TurnSlot;

// The order book after threads have taken turns on it.
fn run_shared<'s, R: Threads + Sync, G: Gate>(
    rt: &R,
    alloc: Global,
    order: Order<'s>,
    threads: u32,
    gate: &G,
) -> Result<Order<'s>, NoMemory>
    requires threads { (1 ≤ threads) × (threads ≤ max_threads) }
    requires empty { order.history ≡ [] }
    ensures { IfOk result (λ after. after.base ≡ order.entry.base) }
{
    order.know_size();
    let bodies = order.bodies();
    let (slot, passes) = TurnSlot::new(alloc, order, threads)?;
    let jobs = jobs_of(alloc, &slot, passes)?;
    let done = run_all(rt, alloc, jobs, bodies, threads, gate)?;
    let pass = join_all(&slot, done)?;
    Ok(slot.close(pass))
}

// The log of an order book in which every body is committed.
fn whole_log(order: &Order<'_>) -> Result<Vec<Txn>, NoMemory>
    requires first { order.now.base.last ≡ 0 }
    requires run { IsStampOrderRun order.now.base (committed order.now.history) }
    requires committed { AreCommittedBelow (length order.now.base.bodies) order.now.history }
    requires ended { open_txns order.now.history ≡ [] }
    ensures { IfOk result
        (λ txns. SerialRun order.now.base.bodies order.now.base.start txns.items) }
{
    order.log()
}

// Runs bodies on threads, from no rows.
fn run_threads<R: Threads + Sync, G: Gate>(
    rt: &R,
    alloc: Global,
    bodies: &[Body],
    threads: u32,
    gate: &G,
) -> Result<Vec<Txn>, NoMemory>
    requires threads { (1 ≤ threads) × (threads ≤ max_threads) }
    requires few { length bodies.now ≤ max_transactions }
    ensures { IfOk result (λ txns. SerialRun bodies.now (empty {R = row_name_cmp}) txns.items) }
{
    let order = Order::new(alloc, bodies, Rows::new(alloc), 0)?;
    let mut order = run_shared(rt, alloc, order, threads, gate)?;
    order.know_size();
    finish(alloc, &mut order)?;
    whole_log(&order)
}

/// Runs the bodies of a script, each once, on so many threads that take turns on one order book,
/// from no rows. The transactions are a serial run in the order of their stamps. With one thread
/// this is `run_serial`.
///
/// Thread t of n runs the bodies t - 1, t - 1 + n and so on. A body is left if its transaction has
/// a conflict, or if a call finds the turn taken 1,001 times. What is left is run at the end, on
/// the caller's thread. The gate is passed before each call on the order book, with the number of
/// the thread, and one more than the number of its calls so far that had their turns.
pub fn run<R: Threads + Sync, G: Gate>(
    rt: &R,
    alloc: Global,
    script: &Script,
    threads: u32,
    gate: &G,
) -> Result<Vec<Txn>, NoMemory>
    requires threads { (1 ≤ threads) × (threads ≤ max_threads) }
    requires few { length script.now.bodies ≤ max_transactions }
    ensures serial { IfOk result
        (λ txns. SerialRun script.now.bodies (empty {R = row_name_cmp}) txns.items) }
    ensures one { threads ≡ 1 → IfOk result (λ txns. txns.items
        ≡ serial_txns script.now.bodies (empty {R = row_name_cmp})
        (range_with_len 0 (length script.now.bodies))) }
{
    if threads == 1 {
        return run_serial(alloc, script);
    }
    run_threads(rt, alloc, script.bodies(), threads, gate)
}
