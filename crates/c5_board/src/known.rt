//! What a pass knows.

use c5_frames::LogBuffer;
use std::collections::LinkedList;

/// What is recorded of a write.
#[derive(Clone, Copy)]
pub struct Record {
    /// The number of its row: that of the row's first write.
    pub row: u32,
    /// Its predecessor: the greatest smaller number on the row, or 0 if there is none.
    pub predecessor: u32,
}

/// A step that found a word: its kind, its argument and what it found. Only contracts speak of it;
/// no value of it is made.
pub enum Look {
    /// A load of the head of a row.
    LoadHead { row: u32, found: u32 },
    /// The exchange of the head of w's row.
    ExchangeHead { w: u32, found: u32 },
    /// A load of the progress of worker i.
    LoadProgress { i: u32, found: u64 },
    /// A load of the visible place.
    LoadVisible { found: u32 },
    /// A load of the record of w.
    LoadRecord { w: u32, found: Record },
    /// A load of the scheduled word.
    LoadScheduled { found: u32 },
    /// A load of bucket j.
    LoadBucket { j: u32, found: u32 },
}

/// What a pass knows. Only contracts speak of it; no value of it is made.
pub struct Known {
    /// The log of the board.
    pub log: LogBuffer,
    /// The number of workers of the board.
    pub workers: u32,
    /// The workers whose roles it holds.
    pub roles: LinkedList<u32>,
    /// The numbers of these workers that are installed.
    pub installed: LinkedList<u32>,
    /// Whether it holds the snapshot role.
    pub snapshot: bool,
    /// Whether it holds the scheduler role.
    pub scheduler: bool,
    /// With the scheduler role: the numbers up to it have their records.
    pub written: u32,
    /// With the scheduler role: the last first write that is in the index, or 0.
    pub indexed: u32,
    /// For each worker a number that its progress has reached.
    pub floors: LinkedList<u64>,
    /// A place that the visible place has reached.
    pub place: u32,
    /// A number that the scheduled word has reached.
    pub scheduled: u32,
    /// Its steps that found a word, in order.
    pub looks: LinkedList<Look>,
}
