//! The history of an order book.

use crate::script::Statement;
use c5_rows::{RowName, Rows, Writes};
use std::collections::LinkedList;

/// What an order book was made with. No value of it is made.
pub struct OrderBase {
    /// The bodies that it may run, by their numbers from 0 on.
    pub bodies: LinkedList<LinkedList<Statement>>,
    /// The rows before the first transaction.
    pub start: Rows,
    /// The first stamp is the one after it.
    pub last: u64,
}

/// What a transaction did.
#[derive(Drop)]
pub enum Event {
    /// It began, to run the body of this number.
    Begin { script: u32 },
    /// It read a row.
    Read { name: RowName },
    /// It committed these writes.
    Commit { writes: Writes },
    /// It was cancelled.
    Cancel,
}

/// A call on an order book that took effect.
#[derive(Drop)]
pub struct Entry {
    /// The number of the caller that began the stamp.
    pub caller: u64,
    /// The stamp of the transaction.
    pub stamp: u64,
    /// What it did.
    pub event: Event,
}
