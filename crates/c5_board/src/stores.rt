//! Stores, and the exchange of a head.

ghost use Rattle.std.specs.Prelude.{◌≡◌, ◌≤◌, ◌<◌, ◌+◌, ◌++◌, ℕ, [], ◌∷◌, true, false, max, length};
ghost use Rattle.std.specs.Prelude.{Ok, Err, OnOk, IfErr, MatchResult};
ghost use Rattle.c5_definitions.specs.WriteNumbers.{row_of, predecessor_of, end_of, IsFirstWrite};
ghost use Rattle.c5_definitions.specs.RowIndex.{IsSlot};
ghost use Rattle.c5_board.specs.Sets.{with_number};
ghost use Rattle.c5_rows.specs.Numbers.{is_among};
ghost use Rattle.c5_board.specs.Boards.{names, write_count, record_of, IsWorker};
ghost use Rattle.c5_board.specs.Passes.{IsHeadOf, CoversRow, IsOutstanding, floor_of, owner_in};

use crate::board::Board;
use crate::known::{Look, Record};
use crate::pass::BoardPass;
use crate::rule::{
    ExchangesHead, StoresBucket, StoresProgress, StoresRecord, StoresScheduled, StoresVisible,
};

impl Board<'_> {
    /// Puts the first write w, the next to be scheduled, into the index. `j` is its slot.
    pub fn store_bucket(&self, pass: &mut BoardPass, j: u32, w: u32)
        requires pass { pass.old.board ≡ self.now }
        requires role { pass.old.scheduler ≡ true }
        requires ready { pass.old.written ≡ pass.old.scheduled }
        requires next { w ≡ pass.old.scheduled + 1 }
        requires first { IsFirstWrite (names self.now) w }
        requires above { pass.old.indexed < w }
        requires slot { IsSlot (names self.now) w j }
        ensures { pass.new ≡ record pass.old { indexed = w } }
    {
        self.table
            .shared
            .store::<StoresBucket>(&mut pass.seat, self.bucket_word(j), w as u64);
    }

    /// Stores the record of w, the next write to be scheduled.
    pub fn store_record(&self, pass: &mut BoardPass, w: u32, link: Record)
        requires pass { pass.old.board ≡ self.now }
        requires role { pass.old.scheduler ≡ true }
        requires ready { pass.old.written ≡ pass.old.scheduled }
        requires next { w ≡ pass.old.scheduled + 1 }
        requires within { w ≤ write_count self.now }
        requires link { link ≡ record_of (names self.now) w }
        ensures { pass.new ≡ record pass.old { written = w } }
    {
        self.table
            .shared
            .store::<StoresRecord>(&mut pass.seat, self.record_word(w), link.packed());
    }

    /// Schedules w, which has its record, and whose row is in the index if w is its first write.
    pub fn store_scheduled(&self, pass: &mut BoardPass, w: u32)
        requires pass { pass.old.board ≡ self.now }
        requires role { pass.old.scheduler ≡ true }
        requires written { w ≡ pass.old.written }
        requires next { w ≡ pass.old.scheduled + 1 }
        requires indexed { IsFirstWrite (names self.now) w → pass.old.indexed ≡ w }
        ensures { pass.new ≡ record pass.old { scheduled = w } }
    {
        self.table
            .shared
            .store::<StoresScheduled>(&mut pass.seat, self.scheduled_word(), w as u64);
    }

    /// Tries to install w: one exchange of the head of w's row from w's predecessor to w. `link` is
    /// w's record.
    /// `Err` is the head found, which is below the predecessor; then nothing is installed.
    pub fn exchange_head(&self, pass: &mut BoardPass, w: u32, link: Record) -> Result<(), u32>
        requires pass { pass.old.board ≡ self.now }
        requires role { is_among (owner_in pass.old w) pass.old.roles ≡ true }
        requires write { (1 ≤ w) × (w ≤ pass.old.scheduled) }
        requires not_installed { is_among w pass.old.installed ≡ false }
        requires link { link ≡ record_of (names self.now) w }
        ensures ok { OnOk result (pass.new ≡ record pass.old {
          installed = w ∷ pass.old.installed;
          looks = pass.old.looks ++ Look.ExchangeHead w link.predecessor ∷ [];
        }) }
        ensures err { IfErr result (λ seen. pass.new
            ≡ record pass.old { looks = pass.old.looks ++ Look.ExchangeHead w seen ∷ [] }) }
        ensures seen { IfErr result (λ seen. IsHeadOf (names self.now) link.row seen
            × (seen < link.predecessor)) }
        ensures covers { MatchResult result (λ done. CoversRow pass.old link.row link.predecessor)
            (λ seen. CoversRow pass.old link.row seen) }
    {
        let found = self.table.shared.compare_exchange::<ExchangesHead>(
            &mut pass.seat,
            link.row as usize - 1,
            link.predecessor as u64,
            w as u64,
        );
        if found == link.predecessor as u64 {
            Ok(())
        } else {
            Err(found as u32)
        }
    }

    /// Stores the progress of worker i: x is the least of its numbers that isn't installed.
    pub fn store_progress(&self, pass: &mut BoardPass, i: u32, x: u64)
        requires pass { pass.old.board ≡ self.now }
        requires role { is_among i pass.old.roles ≡ true }
        requires least { IsOutstanding pass.old i x }
        ensures pass { pass.new ≡ record pass.old { floors = with_number pass.old.floors i x } }
        ensures floor { floor_of pass.new i ≡ x }
    {
        self.table
            .shared
            .store::<StoresProgress>(&mut pass.seat, self.progress_word(i), x);
    }

    /// Makes p the visible place. Each worker's progress is above the writes of the first p
    /// transactions.
    pub fn store_visible(&self, pass: &mut BoardPass, p: u32)
        requires pass { pass.old.board ≡ self.now }
        requires role { pass.old.snapshot ≡ true }
        requires place { p ≤ length self.now.log.txns }
        requires installed { (i : ℕ) → IsWorker self.now.workers i
            → end_of self.now.log.txns p < floor_of pass.old i }
        requires least { pass.old.place ≤ p }
        ensures { pass.new ≡ record pass.old {
          place = p;
          scheduled = max pass.old.scheduled (end_of self.now.log.txns p);
        } }
    {
        self.table
            .shared
            .store::<StoresVisible>(&mut pass.seat, self.visible_word(), p as u64);
        pass.place = p;
    }
}
