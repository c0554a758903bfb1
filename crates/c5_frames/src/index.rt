//! Where the writes of a log lie, and what its commit marks say.

ghost use Rattle.std.specs.Prelude.{◌≡◌, ◌<◌, ◌≤◌, ◌+◌, ◌-◌, ◌^◌, ℕ, [], length, OnOk};
ghost use Rattle.std.specs.Prelude.{vec_capacity};

use crate::payload::Mark;
use c5_rows::NoMemory;
use std::alloc::Global;

/// A transaction of a log.
#[derive(Clone, Copy, Debug, PartialEq, Eq)]
pub struct TxnRef {
    /// The number of its body in the primary's script.
    pub script: u32,
    pub stamp: u64,
    /// The number, from 1, that its first write has or would have.
    pub first: u32,
    /// The number of its writes.
    pub count: u32,
}

/// Where the payload of a write lies.
#[derive(Clone, Copy)]
pub struct Place {
    pub at: u32,
    pub size: u32,
}

/// What has been found of the frames of a log.
#[derive(Drop)]
pub struct Index {
    /// The writes.
    pub places: Vec<Place>,
    /// The transactions.
    pub txns: Vec<TxnRef>,
    /// The number of writes before the last commit mark.
    pub closed: u32,
    /// The stamp of the last commit mark, or 0.
    pub stamp: u64,
}

ghost use Rattle.c5_frames.specs.Index.{found_in, with_payload_place, with_txn, HasRoom};

impl Index {
    /// Nothing has been found.
    pub fn new(alloc: Global) -> Self
        ensures { found_in result ≡ record { places = []; txns = []; closed = 0; stamp = 0 } }
    {
        Index {
            places: Vec::new(alloc),
            txns: Vec::new(alloc),
            closed: 0,
            stamp: 0,
        }
    }

    /// Takes the memory for what so many bytes can bring. A frame has more than 5 bytes.
    pub fn reserve(&mut self, bytes: usize) -> Result<(), NoMemory>
        ensures unchanged { found_in self.new ≡ found_in self.old }
        ensures room { OnOk result (HasRoom bytes self.new) }
    {
        let most = bytes / 5 + 1;
        self.places.reserve(most)?;
        self.txns.reserve(most)?;
        Ok(())
    }

    /// The number of writes since the last commit mark.
    pub fn open(&self) -> u32
        requires closed { self.now.closed ≤ length self.now.places.items }
        requires few { length self.now.places.items < 2 ^ 32 }
        ensures { result ≡ length self.now.places.items - self.now.closed }
    {
        self.places.len() as u32 - self.closed
    }

    /// Adds a write.
    pub fn add_place(&mut self, place: Place)
        requires { length self.old.places.items < vec_capacity self.old.places }
        ensures added { found_in self.new ≡ with_payload_place (found_in self.old) place }
        ensures room { (bytes : ℕ) → HasRoom (bytes + 5) self.old → HasRoom bytes self.new }
    {
        match self.places.push(place) {
            Ok(()) => {}
            Err(_) => unreachable!(),
        }
    }

    /// Makes a transaction of the writes since the last commit mark.
    pub fn add_txn(&mut self, mark: Mark)
        requires room { length self.old.txns.items < vec_capacity self.old.txns }
        requires closed { self.old.closed ≤ length self.old.places.items }
        requires few { length self.old.places.items + 1 < 2 ^ 32 }
        ensures added { found_in self.new ≡ with_txn (found_in self.old) mark.script mark.stamp }
        ensures room { (bytes : ℕ) → HasRoom (bytes + 5) self.old → HasRoom bytes self.new }
    {
        let txn = TxnRef {
            script: mark.script,
            stamp: mark.stamp,
            first: self.closed + 1,
            count: self.open(),
        };
        match self.txns.push(txn) {
            Ok(()) => {}
            Err(_) => unreachable!(),
        }
        self.closed = self.places.len() as u32;
        self.stamp = mark.stamp;
    }
}
