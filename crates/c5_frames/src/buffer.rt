//! A log as it lies in memory.

ghost use Rattle.std.specs.Prelude.{◌≡◌, ◌≤◌, ◌<◌, ◌+◌, ◌-◌, ℕ, Ok, Some, IfSome, length, take};
ghost use Rattle.std.specs.Prelude.{slice_get, option_map};
ghost use Rattle.c5_rows.specs.Sizes.{max_log_bytes};
ghost use Rattle.c5_definitions.specs.Items.{LogParts, log_of};
ghost use Rattle.c5_definitions.specs.Lawful.{Spells};
ghost use Rattle.c5_frames.specs.Index.{writes_of, txn_ref_of};
ghost use Rattle.c5_frames.specs.Holding.{txns_in, HoldsLog};

use crate::frames::payload_in;
use crate::index::{Index, TxnRef};
use crate::refs::{WriteRef, write_ref};
use c5_rows::Schema;
use std::marker::Model;

/// A whole log: its bytes, and where its writes lie in them.
#[derive(Drop)]
pub struct LogBuffer {
    bytes: Vec<u8>,
    schema: Schema,
    index: Index,
}

impl Model for LogBuffer {
    ghost use Rattle.c5_frames.specs.Log.{Log};

    ghost Value = { Log };

    ghost use Rattle.c5_frames.specs.Buffer.{log_in, IsBuffer};

    ghost view = { log_in };

    ghost invariant = { IsBuffer };
}

// What is read of bytes is what they spell.
pub(crate) fn spells(bytes: &[u8])
    ensures { (log : LogParts) → log_of bytes.now ≡ Ok log → Spells bytes.now log.tables log.txns }
{}

/// The log of these bytes, tables and frames.
pub(crate) fn make_buffer(bytes: Vec<u8>, schema: Schema, index: Index) -> LogBuffer
    requires { HoldsLog bytes.items schema index }
    ensures { result ≡ record { bytes = bytes.items; tables = schema; txns = txns_in bytes.items } }
{
    LogBuffer {
        bytes,
        schema,
        index,
    }
}

impl LogBuffer {
    /// The tables.
    pub fn schema(&self) -> &Schema
        ensures { result.now ≡ self.now.tables }
    {
        &self.schema
    }

    /// The bytes. They spell the tables and the transactions.
    pub fn bytes(&self) -> &[u8]
        ensures value { result.now ≡ self.now.bytes }
        ensures spelled { Spells self.now.bytes self.now.tables self.now.txns }
    {
        spells(&self.bytes);
        &self.bytes
    }

    /// The number of transactions.
    pub fn transactions(&self) -> u32
        ensures { result ≡ length self.now.txns }
    {
        self.index.txns.len() as u32
    }

    /// The number of writes.
    pub fn writes(&self) -> u32
        ensures value { result ≡ length (writes_of self.now.txns) }
        ensures few { length (writes_of self.now.txns) ≤ max_log_bytes }
    {
        self.index.places.len() as u32
    }

    /// The transaction of this number, which counts from 0.
    pub fn txn(&self, p: u32) -> TxnRef
        requires { p < length self.now.txns }
        ensures entry { Some result
            ≡ option_map (txn_ref_of (length (writes_of (take p self.now.txns)) + 1))
            (slice_get self.now.txns p) }
        ensures some { 1 ≤ result.first }
        // Its writes are the ones from its first number on.
        ensures within { result.first + result.count ≤ length (writes_of self.now.txns) + 1 }
        ensures writes { IfSome (slice_get self.now.txns p)
            (λ txn. (i : ℕ) → i < result.count
            → slice_get (writes_of self.now.txns) (result.first + i - 1) ≡ slice_get txn.writes i) }
    {
        self.index.txns[p as usize]
    }

    /// The write of this number, which counts from 1.
    pub fn write(&self, w: u32) -> WriteRef<'_>
        requires some { 1 ≤ w }
        requires within { w ≤ length (writes_of self.now.txns) }
        ensures { slice_get (writes_of self.now.txns) (w - 1) ≡ Some result }
    {
        let place = self.index.places[w as usize - 1];
        write_ref(self.schema.tables(), payload_in(&self.bytes, &place))
    }
}
