//! A log that is read from a source.

ghost use Rattle.std.specs.Prelude.{◌≡◌, ◌≤◌, ◌<◌, ◌+◌, ◌-◌, ◌++◌, [], length, take, true, false};
ghost use Rattle.std.specs.Prelude.{Ok, IfOk, IfErr, OnOk, OnErr};
ghost use Rattle.std.specs.Io.KnownBytes.{Consumes, IsAtEnd, Keeps};
ghost use Rattle.c5_rows.specs.Sizes.{max_log_bytes};
ghost use Rattle.c5_rows.specs.Counts.{HasCause};
ghost use Rattle.c5_definitions.specs.Lawful.{Spells};
ghost use Rattle.c5_driver.specs.Feeding.{FeedsSource};
ghost use Rattle.c5_driver.specs.Inputs.{ReadsInput, Refuses, none_refused};
ghost use Rattle.c5_definitions.specs.Items.{log_of};
ghost use Rattle.c5_driver.specs.Meanings.{IsFaultOf};
ghost use Rattle.c5_driver.specs.Uses.{source_use};

use crate::refusal::Refusal;
use c5_frames::{Decoder, FeedFault, LogBuffer};
use c5_io::{Failed, Source};
use std::alloc::Global;

// How many bytes a read asks for: they stay in a processor's cache until they are decoded.
const PIECE: usize = 128 * 1024;

// One read of at most `room` bytes.
fn read_piece<S: Source>(source: &mut S, piece: &mut [u8], room: usize) -> Result<usize, Failed>
    requires room { 1 ≤ room }
    requires piece { 1 ≤ length piece.old }
    ensures fits { IfOk result (λ n. n ≤ length piece.new) }
    ensures within { IfOk result (λ n. n ≤ room) }
    ensures ok { IfOk result
        (λ n. Consumes (S.left source.old) (S.left source.new) (take n piece.new)) }
    ensures end { IfOk result (λ n. n ≡ 0 → IsAtEnd (S.left source.new)) }
    ensures err { OnErr result (Keeps (S.left source.old) (S.left source.new)) }
    ensures cause { HasCause (S.faults source.old) (S.faults source.new) result }
{
    let size = piece.len().min(room);
    source.read(&mut piece[..size])
}

// Feeds the bytes. A fault of the log is reported after the whole input has been read.
fn feed(decoder: &mut Decoder, piece: &[u8]) -> Result<(), Refusal>
    requires { length decoder.old + length piece.now ≤ max_log_bytes }
    ensures ok { OnOk result (decoder.new ≡ decoder.old ++ piece.now) }
    ensures err { IfErr result (λ refusal. refusal ≡ Refusal.NoMemory) }
    ensures kept { OnErr result (decoder.new ≡ decoder.old) }
{
    match decoder.feed(piece) {
        Ok(()) | Err(FeedFault::Log(_)) => Ok(()),
        Err(FeedFault::NoMemory) => Err(Refusal::NoMemory),
    }
}

// Feeds what one read gives, and returns whether the source has ended.
fn feed_next<S: Source>(
    source: &mut S,
    decoder: &mut Decoder,
    piece: &mut [u8],
    limit: usize,
) -> Result<bool, Refusal>
    requires most { limit ≤ max_log_bytes }
    requires within { length decoder.old ≤ limit }
    requires piece { 1 ≤ length piece.old }
    ensures within { length decoder.new ≤ limit }
    ensures taken { OnOk result
        (FeedsSource (source_use S.left S.faults source.old source.new) decoder.old decoder.new) }
    ensures end { IfOk result (λ ended. ended ≡ true → IsAtEnd (S.left source.new)) }
    ensures more { IfOk result (λ ended. ended ≡ false → length decoder.old < length decoder.new) }
    ensures refused { IfErr result (λ refusal. Refuses (limit - length decoder.old) none_refused
        (source_use S.left S.faults source.old source.new) refusal) }
{
    let room = limit - decoder.fed() as usize;
    let count = match read_piece(source, piece, room + 1) {
        Ok(count) => count,
        Err(Failed) => return Err(Refusal::ReadFault),
    };
    if count > room {
        return Err(Refusal::TooLong);
    }
    feed(decoder, &piece[..count])?;
    Ok(count == 0)
}

// Feeds all that the source has left.
fn feed_all<S: Source>(
    source: &mut S,
    decoder: &mut Decoder,
    piece: &mut [u8],
    limit: usize,
) -> Result<(), Refusal>
    requires most { limit ≤ max_log_bytes }
    requires empty { decoder.old ≡ [] }
    requires piece { 1 ≤ length piece.old }
    ensures { ReadsInput limit none_refused (λ input _. decoder.new ≡ input)
        (source_use S.left S.faults source.old source.new) result }
{
    'pieces: loop {
        match feed_next(source, decoder, piece, limit) {
            Ok(true) => return Ok(()),
            Ok(false) => {}
            Err(refusal) => return Err(refusal),
        }
    }
}

/// A decoder that has taken all that the source had left, up to `limit` bytes.
pub fn decoder_of_source<S: Source>(
    alloc: Global,
    source: &mut S,
    limit: usize,
) -> Result<Decoder, Refusal>
    requires { limit ≤ max_log_bytes }
    ensures { ReadsInput limit none_refused (λ input decoder. decoder ≡ input)
        (source_use S.left S.faults source.old source.new) result }
{
    let mut piece = match vec![in alloc; 0; PIECE] {
        Ok(piece) => piece,
        Err(_) => return Err(Refusal::NoMemory),
    };
    let mut decoder = Decoder::new(alloc);
    feed_all(source, &mut decoder, piece.as_mut_slice(), limit)?;
    Ok(decoder)
}

/// A decoder that has taken these bytes, without a copy.
pub fn decoder_of(alloc: Global, bytes: Vec<u8>) -> Result<Decoder, Refusal>
    requires { length bytes.items ≤ max_log_bytes }
    ensures ok { IfOk result (λ decoder. decoder ≡ bytes.items) }
    ensures err { IfErr result (λ refusal. refusal ≡ Refusal.NoMemory) }
{
    match Decoder::of_bytes(alloc, bytes) {
        Ok(decoder) => Ok(decoder),
        Err(_) => Err(Refusal::NoMemory),
    }
}

/// The log that the decoder has taken, or its first fault.
pub fn log_in(decoder: Decoder) -> Result<LogBuffer, Refusal>
    ensures read { IfOk result (λ log.
        log_of decoder ≡ Ok (record { tables = log.tables; txns = log.txns })) }
    ensures spelled { IfOk result (λ log. Spells decoder log.tables log.txns) }
    ensures refused { IfErr result (λ refusal. IsFaultOf decoder refusal) }
{
    match decoder.finish() {
        Ok(log) => Ok(log),
        Err(fault) => Err(Refusal::BadLog(fault)),
    }
}
