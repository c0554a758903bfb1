//! A new board.

ghost use Rattle.std.specs.Prelude.{◌≡◌, ◌≤◌, IfOk};
ghost use Rattle.c5_board.specs.First.{first_pass, first_words};

use crate::board::Board;
use crate::pass::BoardPass;
use crate::rule::Opening;
use atomic_table::Table;
use c5_plan::Plan;
use c5_rows::NoMemory;
use std::alloc::Global;
use std::snapshot::Snapshot;

impl<'p> Board<'p> {
    /// A board of a log for this many workers, and a pass with all roles. Nothing is scheduled or
    /// installed.
    pub fn new(
        alloc: Global,
        plan: &'p Plan<'p>,
        workers: u32,
    ) -> Result<(Board<'p>, BoardPass), NoMemory>
        requires { (1 ≤ workers) × (workers ≤ max_workers) }
        ensures log { IfOk result (λ made. made.0.log ≡ plan.now) }
        ensures workers { IfOk result (λ made. made.0.workers ≡ workers) }
        ensures pass { IfOk result (λ made. made.1 ≡ first_pass made.0) }
    {
        let log = plan.log();
        let writes = log.writes();
        let buckets = bucket_count(writes);
        let words = first_words(alloc, writes, workers, buckets)?;
        let opening = Opening {
            log: Snapshot::of(log),
            workers,
        };
        let Ok((table, seat)) = Table::of_words(alloc, words.as_slice(), &opening) else {
            return Err(NoMemory);
        };
        let board = Board {
            table,
            plan,
            workers,
            writes,
            buckets,
        };
        Ok((board, BoardPass { place: 0, seat }))
    }
}

ghost use Rattle.c5_definitions.specs.RowIndex.{bucket_count};

// The least power of two that is at least 2 and at least twice the writes.
fn bucket_count(writes: u32) -> u32
    requires { writes ≤ max_writes }
    ensures { result ≡ bucket_count writes }
{
    let mut buckets = 2;
    while buckets < 2 * writes {
        buckets *= 2;
    }
    buckets
}

// The words of a new board: each worker's first number as its progress, and 0 for all others.
fn first_words(alloc: Global, writes: u32, workers: u32, buckets: u32) -> Result<Vec<u64>, NoMemory>
    requires writes { writes ≤ max_writes }
    requires workers { workers ≤ max_workers }
    requires buckets { buckets ≤ max_buckets }
    ensures { IfOk result (λ words. words.items ≡ first_words writes workers buckets) }
{
    let writes = writes as usize;
    let buckets = buckets as usize;
    let mut words = Vec::with_capacity(alloc, 2 * writes + workers as usize + 2 + buckets)?;
    extend_zeros(&mut words, writes + writes)?;
    extend_numbers(&mut words, workers)?;
    extend_zeros(&mut words, 2 + buckets)?;
    Ok(words)
}

ghost use Rattle.std.specs.Prelude.{◌+◌, ◌^◌, ◌<◌, ◌++◌, length, replicate, OnOk};
ghost use Rattle.c5_rows.specs.Numbers.{numbers_from};
ghost use Rattle.c5_rows.specs.Sizes.{max_workers, max_writes, max_buckets};

// Adds so many zeros at the end.
fn extend_zeros(words: &mut Vec<u64>, count: usize) -> Result<(), NoMemory>
    requires { length words.old.items + count < 2 ^ 32 }
    ensures items { OnOk result (words.new.items ≡ words.old.items ++ replicate count 0) }
    ensures len { OnOk result (length words.new.items ≡ length words.old.items + count) }
{
    let len = words.len();
    words.resize(len + count, 0)?;
    Ok(())
}

// Adds the numbers from 1 to `count` at the end.
fn extend_numbers(words: &mut Vec<u64>, count: u32) -> Result<(), NoMemory>
    requires { count ≤ max_workers }
    ensures items { OnOk result (words.new.items ≡ words.old.items ++ numbers_from 1 count) }
    ensures len { OnOk result (length words.new.items ≡ length words.old.items + count) }
{
    for i in 1..count + 1 {
        words.push(i as u64)?;
    }
    Ok(())
}
