//! Where each word of a board is.

ghost use Rattle.std.specs.Prelude.{◌+◌, ◌≡◌, ◌≤◌, ◌<◌, ◌^◌};
ghost use Rattle.c5_board.specs.declared.known.Record.{Record};
ghost use Rattle.c5_definitions.specs.RowIndex.{bucket_count};
ghost use Rattle.c5_board.specs.Words.{record_word, progress_word, scheduled_word, visible_word};
ghost use Rattle.c5_board.specs.Words.{bucket_word, packed};
ghost use Rattle.c5_board.specs.Boards.{write_count};
ghost use Rattle.c5_board.specs.Boards.{IsWorker};
ghost use Rattle.c5_rows.specs.Sizes.{max_writes, max_workers};

use crate::board::Board;
use crate::known::Record;

// A predecessor has 20 bits of a record's word: a write's number is at most 262,144.
const PREDECESSORS: u64 = 1_048_576;

impl Board<'_> {
    pub(crate) fn record_word(&self, w: u32) -> usize
        requires { (1 ≤ w) × (w ≤ write_count self.now) }
        ensures { result ≡ record_word self.now.log w }
    {
        self.writes as usize + (w as usize - 1)
    }

    pub(crate) fn progress_word(&self, i: u32) -> usize
        requires { IsWorker self.now.workers i }
        ensures { result ≡ progress_word self.now.log i }
    {
        let writes = self.writes as usize;
        writes + writes + (i as usize - 1)
    }

    pub(crate) fn scheduled_word(&self) -> usize
        ensures value { result ≡ scheduled_word self.now.log self.now.workers }
        ensures few { result ≤ max_writes + max_writes + max_workers }
    {
        let writes = self.writes as usize;
        writes + writes + self.workers as usize
    }

    pub(crate) fn visible_word(&self) -> usize
        ensures { result ≡ visible_word self.now.log self.now.workers }
    {
        self.scheduled_word() + 1
    }

    pub(crate) fn bucket_word(&self, j: u32) -> usize
        requires { j < bucket_count (write_count self.now) }
        ensures { result ≡ bucket_word self.now.log self.now.workers j }
    {
        self.scheduled_word() + 2 + j as usize
    }
}

impl Record {
    // As one number: the predecessor, the row above it, and one more, so that it isn't 0.
    pub(crate) fn packed(self) -> u64
        requires { (self.row ≤ max_writes) × (self.predecessor ≤ max_writes) }
        ensures { result ≡ packed self }
    {
        self.row as u64 * PREDECESSORS + self.predecessor as u64 + 1
    }

    // The record that a word holds.
    pub(crate) fn unpacked(word: u64) -> Record
        requires { (1 ≤ word) × (word ≤ 2 ^ 40) }
        ensures { (link : Record) → word ≡ packed link → link.predecessor ≤ max_writes
            → result ≡ link }
    {
        Record {
            row: ((word - 1) / PREDECESSORS) as u32,
            predecessor: ((word - 1) % PREDECESSORS) as u32,
        }
    }
}
