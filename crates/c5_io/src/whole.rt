ghost use Rattle.std.specs.Prelude.{◌≡◌, ◌+◌, ◌-◌, ◌^◌, ◌<◌, ◌≤◌, false, List, ℕ, length, take};
ghost use Rattle.std.specs.Prelude.{drop, vec_len, IfOk, IfSome, OnOk, OnErr, IsErrOf, []};
ghost use Rattle.std.specs.Io.KnownBytes.{Appends, Consumes, IsAtEnd, Keeps};
ghost use Rattle.c5_rows.specs.Counts.{HasCause};
ghost use Rattle.c5_io.specs.Whole.{Loses, LosesAtMost, AppendsPart, HasReadCause};

use crate::{Failed, InFault, Sink, Source};
use std::alloc::{AllocError, Global};

// The room that each read is offered: large, so that an input of many megabytes takes few calls,
// and small enough to stay in a processor's cache between the zeros and the bytes.
const CHUNK: usize = 128 * 1024;

/// Reads to the end of the source. It takes at most `limit + 1` bytes, and reports `TooLong` as
/// soon as it has taken that many; `Failed` and `NoMemory` come before that.
pub fn read_all<S: Source>(alloc: Global, source: &mut S, limit: usize) -> Result<Vec<u8>, InFault>
    requires { limit < usize.MAX }

    // Ok: all that was left, and the end was met.
    ensures whole { IfOk result (λ bytes. IfSome (S.left source.old) (λ left. bytes.items ≡ left)) }
    ensures taken { IfOk result
        (λ bytes. Consumes (S.left source.old) (S.left source.new) bytes.items) }
    ensures end { OnOk result (IsAtEnd (S.left source.new)) }
    ensures within { IfOk result (λ bytes. length bytes.items ≤ limit) }

    // Otherwise the bytes that were taken are lost.
    ensures too_long { IsErrOf result InFault.TooLong
        → IfSome (S.left source.old) (λ left. limit < length left) }
    ensures one_more { IsErrOf result InFault.TooLong
        → Loses (S.left source.old) (S.left source.new) (limit + 1) }
    ensures failed { IsErrOf result InFault.Failed
        → LosesAtMost (S.left source.old) (S.left source.new) limit }
    ensures no_memory { IsErrOf result InFault.NoMemory
        → LosesAtMost (S.left source.old) (S.left source.new) limit }

    ensures cause { HasReadCause (S.faults source.old) (S.faults source.new) result }
{
    let mut bytes = Vec::new(alloc);
    let mut filled = 0;
    while filled <= limit {
        make_room(&mut bytes, filled, limit)?;
        let count = read_tail(source, bytes.as_mut_slice(), filled)?;
        if count == 0 {
            bytes.truncate(filled);
            return Ok(bytes);
        }
        filled += count;
    }
    Err(InFault::TooLong)
}

// Makes `bytes` longer than `filled`, by zeros, and never longer than `limit + 1`. What an earlier
// read left unfilled stays as it is.
fn make_room(bytes: &mut Vec<u8>, filled: usize, limit: usize) -> Result<(), AllocError>
    requires filled { filled ≤ vec_len bytes.old }
    requires within { filled ≤ limit }
    requires limit { limit < usize.MAX }
    requires len { vec_len bytes.old ≤ limit + 1 }
    ensures prefix { take filled bytes.new.items ≡ take filled bytes.old.items }
    ensures room { OnOk result (filled < vec_len bytes.new) }
    ensures len { vec_len bytes.new ≤ limit + 1 }
{
    let end = filled + CHUNK.min(limit - filled + 1);
    if bytes.len() < end {
        bytes.resize(end, 0)?;
    }
    Ok(())
}

// One read into `bytes` after its first `at`.
fn read_tail<S: Source>(source: &mut S, bytes: &mut [u8], at: usize) -> Result<usize, Failed>
    requires { at < length bytes.old }
    ensures prefix { take at bytes.new ≡ take at bytes.old }
    ensures fits { IfOk result (λ n. at + n ≤ length bytes.new) }
    ensures ok { IfOk result
        (λ n. Consumes (S.left source.old) (S.left source.new) (take n (drop at bytes.new))) }
    ensures end { IfOk result (λ n. n ≡ 0 → IsAtEnd (S.left source.new)) }
    ensures err { OnErr result (Keeps (S.left source.old) (S.left source.new)) }
    ensures cause { HasCause (S.faults source.old) (S.faults source.new) result }
{
    source.read(&mut bytes[at..])
}

/// Writes all the bytes, in as many calls as the sink needs, and doesn't flush. Of no bytes it
/// makes no call.
#[tactic(auto, using(crate::proofs::Filling::appends_more))]
pub fn write_all<K: Sink>(sink: &mut K, bytes: &[u8]) -> Result<(), Failed>
    ensures ok { OnOk result (Appends (K.held sink.old) (K.held sink.new) bytes.now) }
    ensures err { OnErr result (AppendsPart (K.held sink.old) (K.held sink.new) bytes.now) }
    ensures cause { HasCause (K.faults sink.old) (K.faults sink.new) result }
    ensures flushed { 0 < length bytes.now → K.flushed sink.new ≡ false }
    ensures untouched { bytes.now ≡ [] → sink.new ≡ sink.old }
{
    let mut at = 0;
    while at < bytes.len() {
        at += sink.write(&bytes[at..])?;
    }
    Ok(())
}
