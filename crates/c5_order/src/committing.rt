//! The commit of a transaction.

ghost use Rattle.std.specs.Prelude.{◌≡◌, ◌++◌, ◌∷◌, [], OnErr, OnOk, IfOk};
ghost use Rattle.c5_definitions.specs.declared.history.Event.TheVariants as events;
ghost use Rattle.c5_definitions.specs.History.{Begun};
ghost use Rattle.c5_definitions.specs.OrderLog.{IsOpen, IsOutcome, conflicts};
ghost use Rattle.c5_order.specs.declared.answers.Decision.TheVariants as decisions;
ghost use Rattle.c5_order.specs.Answers.{IsDecision, after_decision};
ghost use Rattle.c5_order.specs.Book.{HoldsBook, base_of};

use crate::answers::Decision;
use crate::book::{BodyState, Book, TxnState};
use crate::ending::{place_of, txn_of};
use crate::marks::{LaterReader, find_reader, install};
use c5_definitions::{Entry, Event};
use c5_rows::{NoMemory, Writes};
use std::alloc::Global;

/// The same writes, with memory of their own.
pub fn copied(alloc: Global, writes: &Writes) -> Result<Writes, NoMemory>
    ensures { IfOk result (λ copy. copy ≡ writes.now) }
{
    let list = writes.as_slice();
    let mut copy = Writes::with_capacity(alloc, list.len())?;
    for write in list {
        copy.set(write.name, write.change)?;
    }
    Ok(copy)
}

// Commits an open transaction of which no later stamp has read a row.
fn install_all(book: &mut Book, stamp: u64, writes: &Writes) -> Result<(), NoMemory>
    requires holds { HoldsBook book.old }
    requires outcome { (b : Begun) × IsOpen book.old.history.items b × (b.stamp ≡ stamp)
        × IsOutcome (base_of book.old) book.old.history.items b writes.now }
    requires free { conflicts book.old.history.items stamp writes.now ≡ [] }
    ensures holds { HoldsBook book.new }
    ensures base { base_of book.new ≡ base_of book.old }
    ensures entry { OnOk result
        ((b : Begun) → IsOpen book.old.history.items b → b.stamp ≡ stamp
        → book.new.history.items ≡ book.old.history.items
        ++ record { caller = b.caller; stamp = stamp; event = events.Commit writes.now } ∷ []) }
    ensures err { OnErr result (book.new.history.items ≡ book.old.history.items) }
{
    let copy = copied(book.alloc, writes)?;
    let txn = txn_of(book, stamp);
    let place = place_of(book, stamp);
    install(&mut book.versions, writes.as_slice(), stamp)?;
    // All memory is taken.
    book.txns[place] = TxnState {
        caller: txn.caller,
        script: txn.script,
        place: Some(book.history.len()),
    };
    book.open_stamps.remove(&stamp);
    book.states[txn.script as usize] = BodyState::Committed(stamp);
    book.history.push_reserved(Entry {
        caller: txn.caller,
        stamp,
        event: Event::Commit { writes: copy },
    });
    Ok(())
}

// A conflict with this reader.
fn conflict(later: LaterReader) -> Decision
    ensures { result ≡ decisions.Conflict later.row later.reader }
{
    Decision::Conflict {
        row: later.row,
        reader: later.reader,
    }
}

/// Commits an open transaction, unless a later stamp has read a row that it writes.
pub fn commit(book: &mut Book, stamp: u64, writes: &Writes) -> Result<Decision, NoMemory>
    requires holds { HoldsBook book.old }
    requires outcome { (b : Begun) × IsOpen book.old.history.items b × (b.stamp ≡ stamp)
        × IsOutcome (base_of book.old) book.old.history.items b writes.now }
    ensures holds { HoldsBook book.new }
    ensures base { base_of book.new ≡ base_of book.old }
    ensures decision { IfOk result (IsDecision book.old.history.items stamp writes.now) }
    ensures entry { IfOk result
        (λ decision. (b : Begun) → IsOpen book.old.history.items b → b.stamp ≡ stamp
        → book.new.history.items ≡ after_decision b writes.now decision book.old.history.items) }
    ensures err { OnErr result (book.new.history.items ≡ book.old.history.items) }
{
    match find_reader(&book.versions, writes.as_slice(), stamp) {
        Some(later) => Ok(conflict(later)),
        None => {
            install_all(book, stamp, writes)?;
            Ok(Decision::Committed)
        }
    }
}
