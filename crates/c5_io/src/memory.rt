ghost use Rattle.std.specs.Prelude.{[], ◌≡◌, ◌+◌, ◌≤◌, ◌<◌, ◌↔◌, min, length, take, drop, ◌++◌};
ghost use Rattle.std.specs.Prelude.{Contains, Some, IfOk, IsOk, IsErr, OnOk, OnErr, is_ok, false};
ghost use Rattle.std.specs.Prelude.{Ok};
ghost use Rattle.std.specs.Io.{ReadsAtMost, WritesAtMost};
ghost use Rattle.std.specs.Io.KnownBytes.{ReadConsumes, WriteAppends, Keeps};
ghost use Rattle.c5_rows.specs.Counts.{HasCause};
ghost use Rattle.c5_io.specs.Memory.{SourceState, ReadFails, read_count, after_read};
ghost use Rattle.c5_io.specs.Memory.{after_failed_read, FailsByNumber, WriteFails, bytes_taken};
ghost use Rattle.c5_io.specs.Memory.{after_taken, after_flush, after_failed_call};

use crate::{Failed, Sink, Source};
use c5_rows::NoMemory;
use std::alloc::Global;
use std::marker::Model;

/// A source of bytes in memory. The calls of given numbers fail.
#[derive(Drop)]
pub struct MemorySource {
    bytes: Vec<u8>,
    at: usize,
    step: usize,
    fails: Vec<u64>,
    calls: u64,
    faults: u64,
}

impl Model for MemorySource {
    ghost use Rattle.std.specs.Prelude.{◌≤◌, length, drop};
    ghost use Rattle.c5_io.specs.Memory.{SourceState};

    ghost Value = { SourceState };

    ghost view = { λ s. record {
      left = drop s.at s.bytes.items;
      step = s.step;
      fails = s.fails.items;
      calls = s.calls;
      faults = s.faults;
    } };

    ghost invariant = { λ s. (s.at ≤ length s.bytes.items) × (1 ≤ s.step) };
}

impl MemorySource {
    /// A call gives at most `step` bytes. Calls are numbered from 1, those in `fails` fail, and no
    /// others. From call `u64::MAX` on each has that number.
    pub fn new(bytes: Vec<u8>, step: usize, fails: Vec<u64>) -> Self
        requires { 1 ≤ step }
        ensures { result
            ≡ record {
              left = bytes.items;
              step = step;
              fails = fails.items;
              calls = 0;
              faults = 0;
            } }
    {
        MemorySource {
            bytes,
            at: 0,
            step,
            fails,
            calls: 0,
            faults: 0,
        }
    }
}

impl Source for MemorySource {
    ghost left = { λ s. Some s.left };

    ghost faults = { λ s. s.faults };

    fn read(&mut self, into: &mut [u8]) -> Result<usize, Failed>
        ensures bound { ReadsAtMost result into.new }
        ensures bytes { ReadConsumes (Some self.old.left) (Some self.new.left) result into.new }
        ensures cause { HasCause self.old.faults self.new.faults result }

        // The same, exactly.
        ensures fails { IsErr result ↔ ReadFails self.old }
        ensures count { IfOk result (λ n. n ≡ read_count self.old (length into.old)) }
        ensures copied { IfOk result (λ n. into.new ≡ take n self.old.left ++ drop n into.old) }
        ensures ok { IfOk result (λ n. self.new ≡ after_read self.old n) }
        ensures err { OnErr result (self.new ≡ after_failed_read self.old) }
    {
        self.calls = self.calls.saturating_add(1);
        if self.fails.contains(&self.calls) {
            self.faults = self.faults.saturating_add(1);
            return Err(Failed);
        }
        let count = copy_prefix(&self.bytes[self.at..], into, self.step);
        self.at += count;
        Ok(count)
    }
}

/// A source of bytes in memory that never fails.
#[derive(Drop)]
pub struct PlainSource {
    bytes: Vec<u8>,
    at: usize,
}

impl Model for PlainSource {
    ghost use Rattle.std.specs.Prelude.{ℕ, List, ◌≤◌, length, drop};

    ghost Value = { List ℕ };

    ghost view = { λ s. drop s.at s.bytes.items };

    ghost invariant = { λ s. s.at ≤ length s.bytes.items };
}

impl PlainSource {
    /// A call gives as many bytes as the buffer takes.
    pub fn new(bytes: Vec<u8>) -> Self
        ensures { result ≡ bytes.items }
    {
        PlainSource { bytes, at: 0 }
    }
}

impl Source for PlainSource {
    ghost left = { λ s. Some s };

    ghost faults = { λ _. 0 };

    fn read(&mut self, into: &mut [u8]) -> Result<usize, Failed>
        ensures bound { ReadsAtMost result into.new }
        ensures bytes { ReadConsumes (Some self.old) (Some self.new) result into.new }
        ensures cause { HasCause 0 0 result }

        // The same, exactly.
        ensures count { result ≡ Ok (min (length self.old) (length into.old)) }
        ensures copied { IfOk result (λ n. into.new ≡ take n self.old ++ drop n into.old) }
        ensures rest { IfOk result (λ n. self.new ≡ drop n self.old) }
    {
        let count = copy_prefix(&self.bytes[self.at..], into, usize::MAX);
        self.at += count;
        Ok(count)
    }
}

// Copies as many bytes as both have, at most `most`, and says how many.
fn copy_prefix(from: &[u8], into: &mut [u8], most: usize) -> usize
    requires { 1 ≤ most }
    ensures count { result ≡ min (min most (length from.now)) (length into.old) }
    ensures copied { into.new ≡ take result from.now ++ drop result into.old }
    ensures given { from.now ≡ take result into.new ++ drop result from.now }
    ensures end { result ≡ 0 → 0 < length into.new → from.now ≡ [] }
{
    let count = most.min(from.len()).min(into.len());
    into[..count].copy_from_slice(&from[..count]);
    count
}

/// A sink in memory. The calls of given numbers fail, and so does a write when it is full.
#[derive(Drop)]
pub struct MemorySink {
    bytes: Vec<u8>,
    room: usize,
    step: usize,
    fails: Vec<u64>,
    calls: u64,
    faults: u64,
    flushed: bool,
}

impl Model for MemorySink {
    ghost use Rattle.std.specs.Prelude.{◌≤◌, length, vec_len, vec_capacity};
    ghost use Rattle.c5_io.specs.Memory.{SinkState};

    ghost Value = { SinkState };

    ghost view = { λ s. record {
      held = s.bytes.items;
      room = s.room;
      step = s.step;
      fails = s.fails.items;
      calls = s.calls;
      faults = s.faults;
      flushed = s.flushed;
    } };

    ghost invariant = { λ s. (length s.bytes.items ≤ s.room) × (s.room ≤ vec_capacity s.bytes)
        × (1 ≤ s.step) };
}

impl MemorySink {
    /// Takes memory for `room` bytes at once, and none later. A write takes at most `step` bytes.
    /// Writes and flushes are numbered together from 1, and those in `fails` fail. So does a write
    /// of a piece that isn't empty when no room is left, and no other call. From call `u64::MAX`
    /// on each has that number.
    pub fn new(alloc: Global, room: usize, step: usize, fails: Vec<u64>) -> Result<Self, NoMemory>
        requires { 1 ≤ step }
        ensures ok { IfOk result (λ sink. sink ≡ record {
          held = [];
          room = room;
          step = step;
          fails = fails.items;
          calls = 0;
          faults = 0;
          flushed = false;
        }) }
        ensures no_room { room ≡ 0 → IsOk result }
    {
        Ok(MemorySink {
            bytes: Vec::with_capacity(alloc, room)?,
            room,
            step,
            fails,
            calls: 0,
            faults: 0,
            flushed: false,
        })
    }

    /// The bytes that it took so far.
    pub fn held(&self) -> &[u8]
        ensures { result.now ≡ self.now.held }
    {
        &self.bytes
    }
}

impl Sink for MemorySink {
    ghost held = { λ s. Some s.held };

    ghost faults = { λ s. s.faults };

    ghost flushed = { λ s. s.flushed };

    fn write(&mut self, piece: &[u8]) -> Result<usize, Failed>
        ensures bound { WritesAtMost result piece.now }
        ensures some { 0 < length piece.now → IfOk result (λ n. 0 < n) }
        ensures bytes { WriteAppends (Some self.old.held) (Some self.new.held) result piece.now }
        ensures flushed { self.new.flushed ≡ false }
        ensures cause { HasCause self.old.faults self.new.faults result }

        // The same, exactly.
        ensures fails { IsErr result ↔ WriteFails self.old piece.now }
        ensures count { IfOk result (λ n. n ≡ bytes_taken self.old (length piece.now)) }
        ensures ok { IfOk result (λ n. self.new ≡ after_taken self.old (take n piece.now)) }
        ensures err { OnErr result (self.new ≡ after_failed_call self.old) }
    {
        self.calls = self.calls.saturating_add(1);
        self.flushed = false;
        let room = self.room - self.bytes.len();
        if self.fails.contains(&self.calls) || (!piece.is_empty() && room == 0) {
            self.faults = self.faults.saturating_add(1);
            return Err(Failed);
        }
        let count = self.step.min(room).min(piece.len());
        self.bytes.extend_from_slice(&piece[..count]).unwrap();
        Ok(count)
    }

    fn flush(&mut self) -> Result<(), Failed>
        ensures bytes { Keeps (Some self.old.held) (Some self.new.held) }
        ensures flushed { self.new.flushed ≡ is_ok result }
        ensures cause { HasCause self.old.faults self.new.faults result }

        // The same, exactly.
        ensures fails { IsErr result ↔ FailsByNumber self.old }
        ensures ok { OnOk result (self.new ≡ after_flush self.old) }
        ensures err { OnErr result (self.new ≡ after_failed_call self.old) }
    {
        self.calls = self.calls.saturating_add(1);
        self.flushed = !self.fails.contains(&self.calls);
        if self.flushed {
            return Ok(());
        }
        self.faults = self.faults.saturating_add(1);
        Err(Failed)
    }
}
