//! The decoder of a log that comes in pieces.

ghost use Rattle.std.specs.Prelude.{◌≡◌, ◌≤◌, ◌+◌, ◌-◌, ◌++◌, List, [], None, Ok, Err, IfOk, IfErr};
ghost use Rattle.std.specs.Prelude.{OnOk, OnErr, length};
ghost use Rattle.c5_rows.specs.Sizes.{max_log_bytes};
ghost use Rattle.c5_rows.specs.declared.tables.TableDef.{TableDef};
ghost use Rattle.c5_rows.specs.declared.writes.Txn.{Txn};
ghost use Rattle.c5_definitions.specs.Items.{after_bytes, at_start};
ghost use Rattle.c5_definitions.specs.Lawful.{Spells};
ghost use Rattle.c5_frames.specs.Feeding.{Feeds, FinishesLog};
ghost use Rattle.c5_frames.specs.Index.{HasRoom};
ghost use Rattle.c5_frames.specs.DecoderStates.{Decodes, IsReady, decoded_state};

use crate::buffer::{LogBuffer, make_buffer, spells};
use crate::decoder_state::DecoderState;
use crate::index::Index;
use crate::stage::{Stage, begin_of_item, is_end};
use crate::steps::take_items;
use c5_definitions::{LogFault, LogKind};
use c5_rows::NoMemory;
use std::alloc::Global;
use std::marker::Model;
use thiserror::Error;

/// Why a piece of a log was not taken, or why the bytes aren't those of a log.
#[derive(Debug, Drop, Error)]
pub enum FeedFault {
    /// The bytes that were taken have a fault.
    #[error("the log is faulty")]
    Log(LogFault),
    /// Memory was refused.
    #[error("out of memory")]
    NoMemory,
}

// Takes the memory for a piece, and copies it.
fn take_piece(
    bytes: &mut Vec<u8>,
    progress: &mut DecoderState,
    piece: &[u8],
) -> Result<(), NoMemory>
    requires within { progress.old.at ≤ length bytes.old.items }
    requires small { length bytes.old.items + length piece.now ≤ max_log_bytes }
    ensures state { decoded_state progress.new ≡ decoded_state progress.old }
    ensures ok { OnOk result (bytes.new.items ≡ bytes.old.items ++ piece.now) }
    ensures room { OnOk result
        (HasRoom (length bytes.new.items - progress.new.at) progress.new.index) }
    ensures err { OnErr result (bytes.new.items ≡ bytes.old.items) }
{
    let untaken = bytes.len() + piece.len() - progress.at as usize;
    progress.index.reserve(untaken)?;
    bytes.extend_from_slice(piece)?;
    Ok(())
}

// Takes a piece when no fault has been found.
fn feed_whole(
    bytes: &mut Vec<u8>,
    progress: &mut DecoderState,
    fault: &mut Option<LogFault>,
    piece: &[u8],
) -> Result<(), FeedFault>
    requires decodes { Decodes bytes.old.items progress.old None }
    requires none { fault.old ≡ None }
    requires small { length bytes.old.items + length piece.now ≤ max_log_bytes }
    ensures feeds { Feeds bytes.old.items piece.now bytes.new.items result }
    ensures decodes { Decodes bytes.new.items progress.new fault.new }
{
    match take_piece(bytes, progress, piece) {
        Ok(()) => {}
        Err(_) => return Err(FeedFault::NoMemory),
    }
    match take_items(bytes, progress) {
        Ok(()) => Ok(()),
        Err(found) => {
            *fault = Some(found);
            Err(FeedFault::Log(found))
        }
    }
}

// Takes a piece after a fault.
fn feed_faulty(bytes: &mut Vec<u8>, found: LogFault, piece: &[u8]) -> Result<(), FeedFault>
    requires fault { after_bytes at_start bytes.old.items ≡ Err found }
    ensures feeds { Feeds bytes.old.items piece.now bytes.new.items result }
    ensures fault { after_bytes at_start bytes.new.items ≡ Err found }
{
    match bytes.extend_from_slice(piece) {
        Ok(()) => Err(FeedFault::Log(found)),
        Err(_) => Err(FeedFault::NoMemory),
    }
}

fn feed_piece(
    bytes: &mut Vec<u8>,
    progress: &mut DecoderState,
    fault: &mut Option<LogFault>,
    piece: &[u8],
) -> Result<(), FeedFault>
    requires decodes { Decodes bytes.old.items progress.old fault.old }
    requires small { length bytes.old.items + length piece.now ≤ max_log_bytes }
    ensures feeds { Feeds bytes.old.items piece.now bytes.new.items result }
    ensures decodes { Decodes bytes.new.items progress.new fault.new }
{
    match *fault {
        Some(found) => feed_faulty(bytes, found, piece),
        None => feed_whole(bytes, progress, fault, piece),
    }
}

// Nothing has been read.
fn first_state(alloc: Global) -> DecoderState
    ensures decodes { Decodes [] result None }
    ensures at { result.at ≡ 0 }
{
    DecoderState {
        schema: None,
        stage: Stage::Magic,
        at: 0,
        index: Index::new(alloc),
    }
}

// Takes the memory for what the bytes can bring.
fn first_state_for(alloc: Global, bytes: &[u8]) -> Result<DecoderState, NoMemory>
    requires { length bytes.now ≤ max_log_bytes }
    ensures { IfOk result (IsReady bytes.now) }
{
    let mut progress = first_state(alloc);
    progress.index.reserve(bytes.len())?;
    Ok(progress)
}

// Takes the items that are complete, and returns the fault that ends them.
fn fault_in(bytes: &[u8], progress: &mut DecoderState) -> Option<LogFault>
    requires { IsReady bytes.now progress.old }
    ensures { Decodes bytes.now progress.new result }
{
    match take_items(bytes, progress) {
        Ok(()) => None,
        Err(found) => Some(found),
    }
}

fn finish_log(bytes: Vec<u8>, progress: DecoderState) -> Result<LogBuffer, LogFault>
    requires { Decodes bytes.items progress None }
    ensures read { FinishesLog bytes.items result }
    ensures spelled { IfOk result (λ log. Spells bytes.items log.tables log.txns) }
{
    let DecoderState {
        schema,
        stage,
        at,
        index,
    } = progress;
    if !is_end(&stage) {
        return Err(LogFault {
            offset: begin_of_item(&stage, at),
            kind: LogKind::Cut,
        });
    }
    spells(&bytes);
    match schema {
        Some(schema) => Ok(make_buffer(bytes, schema, index)),
        None => unreachable!(),
    }
}

/// Decodes a log that comes in pieces. To contracts it is the bytes that were taken.
#[derive(Drop)]
pub struct Decoder {
    bytes: Vec<u8>,
    progress: DecoderState,
    // The fault of the bytes.
    fault: Option<LogFault>,
}

impl Model for Decoder {
    ghost use Rattle.std.specs.Prelude.{ℕ, List};

    ghost Value = { List ℕ };

    ghost use Rattle.c5_frames.specs.Decoding.{bytes_of, IsDecoder};

    ghost view = { bytes_of };

    ghost invariant = { IsDecoder };
}

impl Decoder {
    /// No bytes have been taken.
    pub fn new(alloc: Global) -> Self
        ensures { result ≡ [] }
    {
        Decoder {
            bytes: Vec::new(alloc),
            progress: first_state(alloc),
            fault: None,
        }
    }

    /// A decoder that has taken these bytes as one piece, without a copy. `finish` reports their
    /// fault.
    pub fn of_bytes(alloc: Global, bytes: Vec<u8>) -> Result<Self, NoMemory>
        requires { length bytes.items ≤ max_log_bytes }
        ensures { IfOk result (λ decoder. decoder ≡ bytes.items) }
    {
        let mut progress = first_state_for(alloc, &bytes)?;
        let fault = fault_in(&bytes, &mut progress);
        Ok(Decoder {
            bytes,
            progress,
            fault,
        })
    }

    /// The number of bytes that were taken.
    pub fn fed(&self) -> u32
        ensures { result ≡ length self.now }
    {
        self.bytes.len() as u32
    }

    /// Takes the next piece. `NoMemory` changes nothing; `Log` is the fault of all bytes that were
    /// taken, with this piece.
    pub fn feed(&mut self, piece: &[u8]) -> Result<(), FeedFault>
        requires { length self.old + length piece.now ≤ max_log_bytes }
        ensures { Feeds self.old piece.now self.new result }
    {
        feed_piece(&mut self.bytes, &mut self.progress, &mut self.fault, piece)
    }

    /// The log of all bytes that were taken, or their fault.
    pub fn finish(self) -> Result<LogBuffer, LogFault>
        ensures read { FinishesLog self result }
        ensures spelled { IfOk result (λ log. Spells self log.tables log.txns) }
        // Bytes with a fault don't spell a log.
        ensures refused { IfErr result
            (λ fault. (tables : List TableDef) (txns : List Txn) → Spells self tables txns → ⊥) }
    {
        let Decoder {
            bytes,
            progress,
            fault,
        } = self;
        match fault {
            Some(fault) => Err(fault),
            None => finish_log(bytes, progress),
        }
    }
}
