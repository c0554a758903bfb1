//! The log of an order book, and what it says of its bodies.

ghost use Rattle.std.specs.Prelude.{◌≡◌, ◌<◌, ◌≤◌, ◌+◌, ◌^◌, ◌++◌, ◌∷◌, [], length, IfOk, OnOk};
ghost use Rattle.std.specs.Option.{option_copied};
ghost use Rattle.c5_rows.specs.declared.writes.Write.{Write};
ghost use Rattle.c5_definitions.specs.History.{last_stamp};
ghost use Rattle.c5_definitions.specs.OrderLog.{committed, committed_stamp, history_log};
ghost use Rattle.c5_order.specs.Answers.{IsLeastOpen};
ghost use Rattle.c5_order.specs.Book.{HoldsBook, IsClosedCount, committed_at, committed_by, logged};

use crate::book::{BodyState, Book, TxnState};
use crate::committing::copied;
use crate::ending::place_of;
use c5_definitions::{Entry, Event};
use c5_rows::{NoMemory, Txn};
use std::alloc::Global;

/// The stamp of the committed transaction of a body.
pub fn committed(book: &Book, script: u32) -> Option<u64>
    requires holds { HoldsBook book.now }
    requires known { script < length book.now.bodies.now }
    ensures { result ≡ committed_stamp script (committed book.now.history.items) }
{
    match book.states[script as usize] {
        BodyState::Committed(stamp) => Some(stamp),
        BodyState::Open(_) => None,
        BodyState::Free => None,
    }
}

/// The least stamp of the open transactions.
pub fn first_begun(book: &Book) -> Option<u64>
    requires { HoldsBook book.now }
    ensures { IsLeastOpen book.now.history.items result }
{
    let Some(stamp) = book.open_stamps.first() else {
        return None;
    };
    let least = *stamp;
    Some(least)
}

// Adds the transaction that an entry committed.
fn push_entry(
    alloc: Global,
    txns: &mut Vec<Txn>,
    entry: &Entry,
    script: u32,
) -> Result<(), NoMemory>
    ensures { OnOk result (txns.new.items
        ≡ txns.old.items ++ committed_by script entry.now entry.now.event) }
{
    match &entry.event {
        Event::Commit { writes } => {
            let writes = copied(alloc, writes)?;
            txns.push(Txn {
                script,
                stamp: entry.stamp,
                writes,
            })?;
            Ok(())
        }
        _ => Ok(()),
    }
}

// Adds the transaction whose commit is at this place of the history.
fn push_commit(
    alloc: Global,
    txns: &mut Vec<Txn>,
    history: &[Entry],
    place: usize,
    script: u32,
) -> Result<(), NoMemory>
    ensures { OnOk result (txns.new.items
        ≡ txns.old.items ++ committed_at history.now place script) }
{
    match history.get(place) {
        Some(entry) => push_entry(alloc, txns, entry, script),
        None => Ok(()),
    }
}

// The committed ones of these transactions.
fn logged(alloc: Global, history: &[Entry], begun: &[TxnState]) -> Result<Vec<Txn>, NoMemory>
    ensures { IfOk result (λ txns. txns.items ≡ logged history.now begun.now) }
{
    let mut txns = Vec::new(alloc);
    for txn in begun {
        if let Some(place) = txn.place {
            push_commit(alloc, &mut txns, history, place, txn.script)?;
        }
    }
    Ok(txns)
}

// How many transactions were begun before the least open one.
fn count_closed(book: &Book) -> usize
    requires { HoldsBook book.now }
    ensures closed { IsClosedCount book.now result }
    ensures bound { result ≤ length book.now.txns.items }
{
    match first_begun(book) {
        Some(stamp) => place_of(book, stamp),
        None => book.txns.len(),
    }
}

/// How many transactions were begun.
pub fn count_begun(book: &Book) -> usize
    requires { HoldsBook book.now }
    ensures last { last_stamp book.now.first book.now.history.items ≡ book.now.first + result }
    ensures small { result < 2 ^ 63 }
{
    book.txns.len()
}

/// The committed transactions below the least open stamp, by stamp.
pub fn log(book: &Book) -> Result<Vec<Txn>, NoMemory>
    requires { HoldsBook book.now }
    ensures { IfOk result (λ txns. txns.items ≡ history_log book.now.history.items) }
{
    logged(book.alloc, &book.history, &book.txns[..count_closed(book)])
}
