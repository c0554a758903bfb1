//! The order book.

ghost use Rattle.std.specs.Prelude.{◌≡◌, ◌<◌, ◌≤◌, ◌+◌, ◌^◌, ◌++◌, ◌∷◌, ◌⊎◌, [], length, Err};
ghost use Rattle.std.specs.Prelude.{replicate, IfOk, OnOk, OnErr};
ghost use Rattle.c5_definitions.specs.declared.history.Event.TheVariants as events;
ghost use Rattle.c5_definitions.specs.History.{Begun, last_stamp, row_seen};
ghost use Rattle.c5_definitions.specs.OrderLog.{IsOpen, IsOutcome, IsOrderHistory, committed};
ghost use Rattle.c5_definitions.specs.OrderLog.{committed_stamp, history_log};
ghost use Rattle.c5_order.specs.declared.answers.BeginFault.TheVariants as faults;
ghost use Rattle.c5_order.specs.declared.book.BodyState.TheVariants as bodies;
ghost use Rattle.c5_order.specs.Answers.{begin_answer, after_decision, IsDecision, IsLeastOpen};
ghost use Rattle.c5_order.specs.Book.{HoldsBook, base_of};
ghost use Rattle.c5_rows.specs.Sizes.{max_transactions};

use crate::answers::{BeginFault, Decision};
use crate::book::{BodyState, Book};
use crate::{beginning, committing, ending, logging, reading};
use c5_definitions::{Entry, OrderBase};
use c5_rows::{NoMemory, Row, RowName, Rows, Txn, Writes};
use c5_script::Body;
use std::alloc::Global;
use std::collections::{BTreeMap, BTreeSet, LinkedList};
use std::marker::Model;
use turn_slot::Kept;

/// What contracts see of an order book. No value of it is made.
pub struct OrderState {
    /// What it was made with.
    pub base: OrderBase,
    /// The calls that took effect, in order.
    pub history: LinkedList<Entry>,
}

/// Transactions that run at the same time, under multiversion timestamp ordering.
///
/// A transaction is known by its stamp. It sees the rows as the transactions with smaller stamps
/// left them, and what commits is a serial run in the order of the stamps.
#[derive(Drop)]
pub struct Order<'s> {
    // In a box of its own: a turn slot moves the order out and back at each turn.
    book: Box<Book<'s>>,
}

impl<'s> Model for Order<'s> {
    ghost use Rattle.c5_order.specs.declared.order.OrderState.{OrderState};
    ghost use Rattle.c5_order.specs.Book.{HoldsBook, base_of};
    ghost use Rattle.c5_rows.specs.Cells.{coded_cell};
    ghost use Rattle.c5_rows.specs.Order.{coded_row_name, row_name_cmp};
    ghost use Rattle.std.specs.Coded.{codes, coded_list};
    ghost use Rattle.std.specs.FinMap as map;

    ghost Value = { OrderState };

    ghost coded = { Prim.hlevel
        (codes, map.code {R = row_name_cmp} coded_row_name (coded_list coded_cell)) };

    ghost view = { λ o. record {
      base = base_of o.book.value;
      history = o.book.value.history.items;
    } };

    ghost invariant = { λ o. HoldsBook o.book.value };
}

// So many bodies of which no transaction is open or committed.
fn free_states(alloc: Global, count: usize) -> Result<Vec<BodyState>, NoMemory>
    ensures { IfOk result (λ states. states.items ≡ replicate count bodies.Free) }
{
    Ok(vec![in alloc; BodyState::Free; count]?)
}

// The parts of a book in which no transaction was begun.
fn empty_book<'s>(
    alloc: Global,
    bodies: &'s [Body],
    start: Rows,
    last: u64,
) -> Result<Book<'s>, NoMemory>
    requires { length bodies.now ≤ max_transactions }
    ensures holds { IfOk result HoldsBook }
    ensures base { IfOk result
        (λ book. base_of book ≡ record { bodies = bodies.now; start = start; last = last }) }
    ensures history { IfOk result (λ book. book.history.items ≡ []) }
{
    let states = free_states(alloc, bodies.len())?;
    Ok(Book {
        alloc,
        bodies,
        start,
        first: last,
        last,
        history: Vec::new(alloc),
        txns: Vec::new(alloc),
        open_stamps: BTreeSet::new(alloc),
        states,
        versions: BTreeMap::new(alloc),
    })
}

impl<'s> Order<'s> {
    /// A book of these bodies, over the rows at the start. The first stamp is the one after `last`.
    pub fn new(
        alloc: Global,
        bodies: &'s [Body],
        start: Rows,
        last: u64,
    ) -> Result<Order<'s>, NoMemory>
        requires { length bodies.now ≤ max_transactions }
        ensures { IfOk result (λ order. order
            ≡ record {
              base = record { bodies = bodies.now; start = start; last = last };
              history = [];
            }) }
    {
        let parts = empty_book(alloc, bodies, start, last)?;
        let Ok(book) = Box::new(alloc, parts) else {
            return Err(NoMemory);
        };
        Ok(Order { book })
    }

    /// The bodies that it was made with.
    pub fn bodies(&self) -> &'s [Body]
        ensures { result.now ≡ self.now.base.bodies }
    {
        self.book.bodies
    }

    /// The stamp that was begun last; with none, the one that the book was made with.
    pub fn last(&self) -> u64
        ensures { result ≡ last_stamp self.now.base.last self.now.history }
    {
        self.book.last
    }

    /// The least stamp that is open; `None` if none is.
    pub fn first_begun(&self) -> Option<u64>
        ensures { IsLeastOpen self.now.history result }
    {
        logging::first_begun(&self.book)
    }

    /// The stamp of the committed transaction of a body; `None` if the body isn't committed.
    pub fn committed(&self, script: u32) -> Option<u64>
        requires { script < length self.now.base.bodies }
        ensures { result ≡ committed_stamp script (committed self.now.history) }
    {
        logging::committed(&self.book, script)
    }

    /// The committed transactions below the least open stamp, in the order of their stamps.
    pub fn log(&self) -> Result<Vec<Txn>, NoMemory>
        ensures { IfOk result (λ txns. txns.items ≡ history_log self.now.history) }
    {
        logging::log(&self.book)
    }

    /// The history is one that timestamp ordering allows. `order_law` says what follows.
    pub fn know_history(&self)
        ensures { IsOrderHistory self.now.base self.now.history }
    {
        let _last = self.book.last;
    }

    /// There are at most 65,536 bodies. The entries of the history, and the stamps that were begun,
    /// are fewer than 2^63.
    pub fn know_size(&self)
        ensures bodies { length self.now.base.bodies ≤ max_transactions }
        ensures entries { length self.now.history < 2 ^ 63 }
        ensures stamps { last_stamp self.now.base.last self.now.history
            < self.now.base.last + 2 ^ 63 }
    {
        let _entries = self.book.history.len();
        let _begun = logging::count_begun(&self.book);
    }

    /// Begins a transaction of the body of this number, with the stamp after the last one.
    ///
    /// It is refused if the body is committed; else if a transaction of the body is open; else if
    /// there is no stamp after the last one. A refusal changes nothing.
    pub fn begin(&mut self, caller: u64, script: u32) -> Result<u64, BeginFault>
        requires { script < length self.old.base.bodies }
        ensures answer { (result ≡ begin_answer self.old.base.last self.old.history script)
            ⊎ (result ≡ Err faults.NoMemory) }
        ensures ok { IfOk result
            (λ stamp. self.new
            ≡ record self.old {
              history = self.old.history
                  ++ record { caller = caller; stamp = stamp; event = events.Begin script } ∷ [];
            }) }
        ensures err { OnErr result (self.new ≡ self.old) }
    {
        beginning::begin(&mut self.book, caller, script)
    }

    /// The row that an open stamp sees: that of the commit with the greatest stamp below it. The
    /// read is recorded. After `NoMemory` nothing has changed.
    pub fn read(&mut self, stamp: u64, name: &RowName) -> Result<Option<Row>, NoMemory>
        requires { (b : Begun) × IsOpen self.old.history b × (b.stamp ≡ stamp) }
        ensures row { IfOk result
            (λ row. row ≡ row_seen self.old.base.start self.old.history name.now stamp) }
        ensures ok { OnOk result
            ((b : Begun) → IsOpen self.old.history b → b.stamp ≡ stamp
            → self.new
            ≡ record self.old {
              history = self.old.history
                  ++ record { caller = b.caller; stamp = stamp; event = events.Read name.now } ∷ [];
            }) }
        ensures err { OnErr result (self.new ≡ self.old) }
    {
        reading::read(&mut self.book, stamp, name)
    }

    /// Commits an open stamp, unless a later stamp has read the version of a row of the writes that
    /// this stamp sees. The writes are those that its body gives on what it has read. After a
    /// conflict or `NoMemory` the transaction is still open, and nothing has changed.
    pub fn commit(&mut self, stamp: u64, writes: &Writes) -> Result<Decision, NoMemory>
        requires { (b : Begun) × IsOpen self.old.history b × (b.stamp ≡ stamp)
            × IsOutcome self.old.base self.old.history b writes.now }
        ensures decision { IfOk result (IsDecision self.old.history stamp writes.now) }
        ensures ok { IfOk result
            (λ decision. (b : Begun) → IsOpen self.old.history b → b.stamp ≡ stamp
            → self.new
            ≡ record self.old { history = after_decision b writes.now decision self.old.history }) }
        ensures err { OnErr result (self.new ≡ self.old) }
    {
        committing::commit(&mut self.book, stamp, writes)
    }

    /// Cancels an open stamp. Its reads still count. It takes no memory.
    pub fn cancel(&mut self, stamp: u64)
        requires { (b : Begun) × IsOpen self.old.history b × (b.stamp ≡ stamp) }
        ensures { (b : Begun) → IsOpen self.old.history b → b.stamp ≡ stamp
            → self.new
            ≡ record self.old {
              history = self.old.history
                  ++ record { caller = b.caller; stamp = stamp; event = events.Cancel } ∷ [];
            } }
    {
        ending::cancel(&mut self.book, stamp)
    }
}

impl Kept for Order<'_> {
    type Base = OrderBase;

    type Entry = Entry;

    ghost base = { λ order. order.base };

    ghost history = { λ order. order.history };

    ghost caller = { λ entry. entry.caller };

    fn entries(&self) -> u64 {
        self.book.history.len() as u64
    }
}
