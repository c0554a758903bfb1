//! What contracts see of a session, and why its calls fail.

use c5_definitions::{Entry, OrderBase};
use std::collections::LinkedList;

/// What distinguishes one slot from another. No value of it is made.
pub struct SlotId {
    pub words: u64,
    pub slots: u64,
    pub views_name: u64,
    pub atom: u64,
    pub block: u64,
    pub offset: u64,
    pub slot_names: LinkedList<u64>,
}

/// A transaction that a session has begun.
#[derive(Clone, Copy)]
pub struct Opened {
    pub stamp: u64,
    /// The number of its body.
    pub script: u32,
}

/// What contracts see of a session. No value of it is made.
pub struct SessionState {
    /// The slot that the session is of.
    pub slot: SlotId,
    /// How many passes the slot was made with.
    pub passes: u64,
    /// What the slot's order book was made with.
    pub base: OrderBase,
    /// The numbers of its pass, the caller's number first.
    pub numbers: LinkedList<u64>,
    /// The history that its pass has seen.
    pub seen: LinkedList<Entry>,
    /// The holder words that its exchanges found.
    pub looks: LinkedList<u64>,
    /// The transaction that it began last, unless that was committed or cancelled.
    pub begun: Option<Opened>,
}

/// What the reads of the one open transaction of an order book leave as it is. No value of it is
/// made.
pub struct HeldBase {
    /// The reference through which the book is reached.
    pub reference: u64,
    /// What the book was made with.
    pub base: OrderBase,
    pub stamp: u64,
    /// The begins of the open transactions.
    pub opens: LinkedList<Entry>,
    /// The stamp that was begun last.
    pub last: u64,
    /// How many entries the history had at first.
    pub before: u64,
    /// These entries.
    pub first: LinkedList<Entry>,
}

/// Why a call on a session did nothing.
#[derive(Clone, Copy, PartialEq, Eq)]
pub enum SessionFault {
    /// The pass of this number has the turn.
    Busy { holder: u64 },
    /// The body is committed, with this stamp.
    Committed { stamp: u64 },
    /// A transaction of the body is open, with this stamp.
    Began { stamp: u64 },
    /// There is no stamp after the last one.
    Stamps { last: u64 },
    /// Memory was refused.
    NoMemory,
}
