//! The end of a transaction, by a commit or without one.

ghost use Rattle.std.specs.Prelude.{◌≡◌, ◌<◌, ◌+◌, ◌-◌, ◌++◌, ◌∷◌, [], length, slice_index_or};
ghost use Rattle.c5_definitions.specs.declared.history.Event.TheVariants as events;
ghost use Rattle.c5_definitions.specs.History.{Begun};
ghost use Rattle.c5_definitions.specs.OrderLog.{IsOpen};
ghost use Rattle.c5_order.specs.Book.{HoldsBook, HoldsTxn, base_of};

use crate::book::{BodyState, Book, TxnState};
use c5_definitions::{Entry, Event};

/// Where an open transaction is among those that were begun.
pub fn place_of(book: &Book, stamp: u64) -> usize
    requires holds { HoldsBook book.now }
    requires is_open { (b : Begun) × IsOpen book.now.history.items b × (b.stamp ≡ stamp) }
    ensures place { result + 1 + book.now.first ≡ stamp }
    ensures bound { result < length book.now.txns.items }
{
    (stamp - book.first - 1) as usize
}

/// What is noted of an open transaction.
pub fn txn_of(book: &Book, stamp: u64) -> TxnState
    requires holds { HoldsBook book.now }
    requires is_open { (b : Begun) × IsOpen book.now.history.items b × (b.stamp ≡ stamp) }
    ensures txn { (b : Begun) → IsOpen book.now.history.items b → b.stamp ≡ stamp
        → HoldsTxn book.now.history.items b result }
    ensures script { result.script < length book.now.bodies.now }
{
    book.txns[place_of(book, stamp)]
}

/// Cancels an open transaction.
pub fn cancel(book: &mut Book, stamp: u64)
    requires holds { HoldsBook book.old }
    requires is_open { (b : Begun) × IsOpen book.old.history.items b × (b.stamp ≡ stamp) }
    ensures holds { HoldsBook book.new }
    ensures base { base_of book.new ≡ base_of book.old }
    ensures entry { (b : Begun) → IsOpen book.old.history.items b → b.stamp ≡ stamp
        → book.new.history.items ≡ book.old.history.items
        ++ record { caller = b.caller; stamp = stamp; event = events.Cancel } ∷ [] }
{
    let txn = txn_of(book, stamp);
    book.open_stamps.remove(&stamp);
    book.states[txn.script as usize] = BodyState::Free;
    book.history.push_reserved(Entry {
        caller: txn.caller,
        stamp,
        event: Event::Cancel,
    });
}
