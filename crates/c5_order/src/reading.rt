//! The rows that a stamp sees.

ghost use Rattle.std.specs.Prelude.{◌≡◌, ◌++◌, ◌∷◌, ◌⊎◌, [], OnErr, OnOk, IfOk, slice_get};
ghost use Rattle.std.specs.Option.{option_copied};
ghost use Rattle.c5_definitions.specs.declared.history.Event.TheVariants as events;
ghost use Rattle.c5_definitions.specs.History.{Begun, begun, row_of_version, row_seen};
ghost use Rattle.c5_definitions.specs.OrderLog.{IsOpen};
ghost use Rattle.std.specs.List.{Contains};
ghost use Rattle.c5_order.specs.Book.{HoldsBook, base_of, left_at, row_after};

use crate::book::Book;
use crate::ending::txn_of;
use crate::marks::{VersionKey, find, mark};
use c5_definitions::{Entry, Event};
use c5_rows::{Change, NoMemory, Row, RowName};

// The row that a change leaves.
fn row_after<'a>(change: Option<&'a Change>) -> Option<&'a Row>
    ensures { option_copied result ≡ row_after (option_copied change.entry) }
{
    match change {
        Some(Change::Put(row)) => Some(row),
        Some(Change::Gone) | None => None,
    }
}

// What the commit at this place of the history left of a row.
fn left_at<'a>(history: &'a [Entry], place: usize, name: &RowName) -> Option<&'a Row>
    ensures { option_copied result ≡ left_at (slice_get history.now place) name.now }
{
    let Some(entry) = history.get(place) else {
        return None;
    };
    match &entry.event {
        Event::Commit { writes } => row_after(writes.find(name)),
        _ => None,
    }
}

/// The row of a version: that of the start, or what the commit of a stamp left.
pub fn row_of<'a>(book: &'a Book, name: &RowName, version: u64) -> Option<&'a Row>
    requires holds { HoldsBook book.now }
    requires version { (version ≡ 0)
        ⊎ ((b : Begun) × Contains (begun book.now.history.items) b × (b.stamp ≡ version)) }
    ensures { option_copied result
        ≡ row_of_version book.now.start book.now.history.items name.now version }
{
    if version == 0 {
        return book.start.get(name);
    }
    match book.txns[(version - book.first - 1) as usize].place {
        Some(place) => left_at(&book.history, place, name),
        None => None,
    }
}

/// The row that an open stamp sees. The read is marked and recorded.
pub fn read(book: &mut Book, stamp: u64, name: &RowName) -> Result<Option<Row>, NoMemory>
    requires holds { HoldsBook book.old }
    requires is_open { (b : Begun) × IsOpen book.old.history.items b × (b.stamp ≡ stamp) }
    ensures holds { HoldsBook book.new }
    ensures base { base_of book.new ≡ base_of book.old }
    ensures row { IfOk result (λ row. row
        ≡ row_seen book.old.start book.old.history.items name.now stamp) }
    ensures entry { OnOk result
        ((b : Begun) → IsOpen book.old.history.items b → b.stamp ≡ stamp
        → book.new.history.items ≡ book.old.history.items
        ++ record { caller = b.caller; stamp = stamp; event = events.Read name.now } ∷ []) }
    ensures err { OnErr result (book.new.history.items ≡ book.old.history.items) }
{
    let found = find(&book.versions, name, stamp);
    let row = row_of(book, name, found.wrote).copied();
    let txn = txn_of(book, stamp);
    let open = book.open_stamps.len();
    book.history.reserve(open + 1)?;
    let key = VersionKey {
        name: *name,
        wrote: found.wrote,
    };
    mark(&mut book.versions, key, stamp)?;
    book.history.push_reserved(Entry {
        caller: txn.caller,
        stamp,
        event: Event::Read { name: *name },
    });
    Ok(row)
}
