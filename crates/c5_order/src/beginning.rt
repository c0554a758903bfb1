//! The begin of a transaction.

ghost use Rattle.std.specs.Prelude.{◌≡◌, ◌<◌, ◌+◌, ◌^◌, ◌++◌, ◌∷◌, ◌⊎◌, [], length, Err, IfOk};
ghost use Rattle.std.specs.Prelude.{OnErr};
ghost use Rattle.c5_definitions.specs.declared.history.Event.TheVariants as events;
ghost use Rattle.c5_definitions.specs.History.{last_stamp};
ghost use Rattle.c5_order.specs.declared.answers.BeginFault.TheVariants as faults;
ghost use Rattle.c5_order.specs.declared.book.BodyState.TheVariants as states;
ghost use Rattle.c5_order.specs.Answers.{begin_answer};
ghost use Rattle.c5_order.specs.Book.{HoldsBook, HoldsState, base_of};

use crate::answers::BeginFault;
use crate::book::{BodyState, Book, TxnState};
use c5_definitions::{Entry, Event};
use c5_rows::NoMemory;

// Begins the next stamp. It takes the memory for the end of the transaction too.
fn start(book: &mut Book, caller: u64, script: u32) -> Result<u64, NoMemory>
    requires holds { HoldsBook book.old }
    requires known { script < length book.old.bodies.now }
    requires free { HoldsState book.old.history.items script states.Free }
    requires room { book.old.last + 1 < 2 ^ 64 }
    ensures holds { HoldsBook book.new }
    ensures base { base_of book.new ≡ base_of book.old }
    ensures stamp { IfOk result (λ stamp. stamp ≡ book.old.last + 1) }
    ensures entry { IfOk result
        (λ stamp. book.new.history.items ≡ book.old.history.items
        ++ record { caller = caller; stamp = stamp; event = events.Begin script } ∷ []) }
    ensures err { OnErr result (book.new.history.items ≡ book.old.history.items) }
{
    let stamp = book.last + 1;
    let open = book.open_stamps.len();
    book.history.reserve(open + 2)?;
    book.txns.reserve(1)?;
    book.open_stamps.insert(stamp)?;
    book.txns.push_reserved(TxnState {
        caller,
        script,
        place: None,
    });
    book.states[script as usize] = BodyState::Open(stamp);
    book.last = stamp;
    book.history.push_reserved(Entry {
        caller,
        stamp,
        event: Event::Begin { script },
    });
    Ok(stamp)
}

/// Begins a transaction of the body of this number.
pub fn begin(book: &mut Book, caller: u64, script: u32) -> Result<u64, BeginFault>
    requires holds { HoldsBook book.old }
    requires known { script < length book.old.bodies.now }
    ensures holds { HoldsBook book.new }
    ensures base { base_of book.new ≡ base_of book.old }
    ensures answer { (result ≡ begin_answer book.old.first book.old.history.items script)
        ⊎ (result ≡ Err faults.NoMemory) }
    ensures entry { IfOk result
        (λ stamp. book.new.history.items ≡ book.old.history.items
        ++ record { caller = caller; stamp = stamp; event = events.Begin script } ∷ []) }
    ensures err { OnErr result (book.new.history.items ≡ book.old.history.items) }
{
    match book.states[script as usize] {
        BodyState::Committed(stamp) => Err(BeginFault::Committed { stamp }),
        BodyState::Open(stamp) => Err(BeginFault::Began { stamp }),
        BodyState::Free => {
            if book.last == u64::MAX {
                return Err(BeginFault::Stamps { last: book.last });
            }
            Ok(start(book, caller, script)?)
        }
    }
}
