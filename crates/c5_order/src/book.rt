//! What an order book holds.

use crate::marks::VersionKey;
use c5_definitions::Entry;
use c5_rows::Rows;
use c5_script::Body;
use std::alloc::Global;
use std::collections::{BTreeMap, BTreeSet};

/// A transaction that was begun.
#[derive(Clone, Copy)]
pub struct TxnState {
    pub caller: u64,
    pub script: u32,
    /// Where its commit is in the history.
    pub place: Option<usize>,
}

/// What became of a body.
#[derive(Clone, Copy)]
pub enum BodyState {
    /// No transaction of it is open or committed.
    Free,
    /// The transaction with this stamp is open.
    Open(u64),
    /// The transaction with this stamp is committed.
    Committed(u64),
}

/// The parts of an order book.
#[derive(Drop)]
pub struct Book<'s> {
    pub alloc: Global,
    pub bodies: &'s [Body],
    pub start: Rows,
    /// The stamp before the first one.
    pub first: u64,
    pub last: u64,
    pub history: Vec<Entry>,
    /// By stamp, from the one after `first` on.
    pub txns: Vec<TxnState>,
    /// The stamps of the open transactions.
    pub open_stamps: BTreeSet<u64>,
    /// By the numbers of the bodies.
    pub states: Vec<BodyState>,
    /// The greatest reader of each version; 0 if none has read it. The start version of a row has
    /// an entry once it is read.
    pub versions: BTreeMap<VersionKey, u64>,
}
