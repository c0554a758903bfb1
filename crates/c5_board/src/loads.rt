//! Loads: each finds one word, which is added to the pass's looks.

ghost use Rattle.std.specs.Prelude.{◌≡◌, ◌≢◌, ◌≤◌, ◌<◌, ◌++◌, [], ◌∷◌, true, max, length};
ghost use Rattle.c5_definitions.specs.WriteNumbers.{IsFirstWrite, end_of};
ghost use Rattle.c5_definitions.specs.RowIndex.{bucket_count, first_in_bucket};
ghost use Rattle.c5_board.specs.Sets.{with_number};
ghost use Rattle.c5_rows.specs.Numbers.{is_among};
ghost use Rattle.c5_board.specs.Boards.{names, write_count, record_of, IsWorker};
ghost use Rattle.c5_board.specs.Passes.{IsHeadOf, CoversRow, floor_of, bucket_up_to};

use crate::board::Board;
use crate::known::{Look, Record};
use crate::pass::BoardPass;
use crate::rule::{
    LoadsBucket, LoadsHead, LoadsProgress, LoadsRecord, LoadsScheduled, LoadsVisible,
};

impl Board<'_> {
    /// The scheduled word: the numbers up to it have their records, and their rows are in the
    /// index.
    pub fn load_scheduled(&self, pass: &mut BoardPass) -> u32
        requires { pass.old.board ≡ self.now }
        ensures pass { pass.new ≡ record pass.old {
          scheduled = result;
          looks = pass.old.looks ++ Look.LoadScheduled result ∷ [];
        } }
        ensures least { pass.old.scheduled ≤ result }
        ensures most { result ≤ write_count self.now }
        ensures own { pass.old.scheduler ≡ true → result ≡ pass.old.scheduled }
    {
        self.table
            .shared
            .load::<LoadsScheduled>(&mut pass.seat, self.scheduled_word()) as u32
    }

    /// The record of write w, which is scheduled.
    pub fn load_record(&self, pass: &mut BoardPass, w: u32) -> Record
        requires pass { pass.old.board ≡ self.now }
        requires write { (1 ≤ w) × (w ≤ pass.old.scheduled) }
        ensures record { result ≡ record_of (names self.now) w }
        ensures pass { pass.new
            ≡ record pass.old { looks = pass.old.looks ++ Look.LoadRecord w result ∷ [] } }
    {
        let word = self
            .table
            .shared
            .load::<LoadsRecord>(&mut pass.seat, self.record_word(w));
        Record::unpacked(word)
    }

    /// The word of bucket j: 0, or the first write whose slot it is. It is that write if that is
    /// scheduled.
    pub fn load_bucket(&self, pass: &mut BoardPass, j: u32) -> u32
        requires pass { pass.old.board ≡ self.now }
        requires bucket { j < bucket_count (write_count self.now) }
        ensures first { result ≢ 0 → result ≡ first_in_bucket (names self.now) j }
        ensures scheduled { first_in_bucket (names self.now) j ≤ pass.old.scheduled
            → result ≡ first_in_bucket (names self.now) j }
        ensures own { pass.old.scheduler ≡ true
            → result ≡ bucket_up_to (names self.now) pass.old.indexed j }
        ensures pass { pass.new
            ≡ record pass.old { looks = pass.old.looks ++ Look.LoadBucket j result ∷ [] } }
    {
        self.table
            .shared
            .load::<LoadsBucket>(&mut pass.seat, self.bucket_word(j)) as u32
    }

    /// The head of a row: 0, or the greatest number of the row that is installed. `row` is the
    /// row's number.
    pub fn load_head(&self, pass: &mut BoardPass, row: u32) -> u32
        requires pass { pass.old.board ≡ self.now }
        requires row { IsFirstWrite (names self.now) row }
        ensures head { IsHeadOf (names self.now) row result }
        ensures covers { CoversRow pass.old row result }
        ensures pass { pass.new ≡ record pass.old {
          scheduled = max pass.old.scheduled result;
          looks = pass.old.looks ++ Look.LoadHead row result ∷ [];
        } }
    {
        self.table
            .shared
            .load::<LoadsHead>(&mut pass.seat, row as usize - 1) as u32
    }

    /// The progress of worker i: each number below it that the worker owns is installed.
    pub fn load_progress(&self, pass: &mut BoardPass, i: u32) -> u64
        requires pass { pass.old.board ≡ self.now }
        requires worker { IsWorker self.now.workers i }
        ensures pass { pass.new ≡ record pass.old {
          floors = with_number pass.old.floors i result;
          looks = pass.old.looks ++ Look.LoadProgress i result ∷ [];
        } }
        ensures floor { floor_of pass.new i ≡ result }
        ensures least { floor_of pass.old i ≤ result }
        ensures positive { 1 ≤ result }
        ensures own { is_among i pass.old.roles ≡ true → result ≡ floor_of pass.old i }
        ensures above { pass.old.snapshot ≡ true
            → end_of self.now.log.txns pass.old.place < result }
    {
        self.table
            .shared
            .load::<LoadsProgress>(&mut pass.seat, self.progress_word(i))
    }

    /// The visible place: the writes of that many transactions are installed.
    pub fn load_visible(&self, pass: &mut BoardPass) -> u32
        requires { pass.old.board ≡ self.now }
        ensures pass { pass.new ≡ record pass.old {
          place = result;
          scheduled = max pass.old.scheduled (end_of self.now.log.txns result);
          looks = pass.old.looks ++ Look.LoadVisible result ∷ [];
        } }
        ensures least { pass.old.place ≤ result }
        ensures most { result ≤ length self.now.log.txns }
        ensures own { pass.old.snapshot ≡ true → result ≡ pass.old.place }
    {
        let place = self
            .table
            .shared
            .load::<LoadsVisible>(&mut pass.seat, self.visible_word()) as u32;
        pass.place = place;
        place
    }
}
