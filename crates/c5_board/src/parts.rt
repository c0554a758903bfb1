//! Passes are split and joined.

ghost use Rattle.std.specs.Prelude.{◌≡◌, true};
ghost use Rattle.c5_rows.specs.Numbers.{is_among};
ghost use Rattle.c5_board.specs.Parts.{worker_part, without_worker, snapshot_part};
ghost use Rattle.c5_board.specs.Parts.{without_snapshot, scheduler_part, without_scheduler};
ghost use Rattle.c5_board.specs.Parts.{reader_part, joined};

use crate::board::Board;
use crate::pass::BoardPass;
use crate::rule::{Cuts, Picks, Unites};
use std::marker::Brand;

impl Board<'_> {
    /// Takes the role of worker i out of a pass, with its installed numbers. The second part has
    /// them.
    pub fn split_worker(&self, pass: BoardPass, i: u32) -> (BoardPass, BoardPass)
        requires pass { pass.board ≡ self.now }
        requires role { is_among i pass.roles ≡ true }
        ensures rest { result.0 ≡ without_worker pass i }
        ensures part { result.1 ≡ worker_part pass i }
    {
        self.cut::<Brand>(pass, i, false, false)
    }

    /// Takes the snapshot role out of a pass. The second part has it.
    pub fn split_snapshot(&self, pass: BoardPass) -> (BoardPass, BoardPass)
        requires pass { pass.board ≡ self.now }
        requires role { pass.snapshot ≡ true }
        ensures rest { result.0 ≡ without_snapshot pass }
        ensures part { result.1 ≡ snapshot_part pass }
    {
        self.cut::<Brand>(pass, 0, true, false)
    }

    /// Takes the scheduler role out of a pass. The second part has it.
    pub fn split_scheduler(&self, pass: BoardPass) -> (BoardPass, BoardPass)
        requires pass { pass.board ≡ self.now }
        requires role { pass.scheduler ≡ true }
        ensures rest { result.0 ≡ without_scheduler pass }
        ensures part { result.1 ≡ scheduler_part pass }
    {
        self.cut::<Brand>(pass, 0, false, true)
    }

    /// A second pass, without a role.
    pub fn split_reader(&self, pass: BoardPass) -> (BoardPass, BoardPass)
        requires pass { pass.board ≡ self.now }
        ensures rest { result.0 ≡ pass }
        ensures part { result.1 ≡ reader_part pass }
    {
        self.cut::<Brand>(pass, 0, false, false)
    }

    /// One pass with the roles of both, which knows what both know.
    pub fn join(&self, a: BoardPass, b: BoardPass) -> BoardPass
        requires a { a.board ≡ self.now }
        requires b { b.board ≡ self.now }
        ensures { result ≡ joined a b }
    {
        self.unite::<Brand>(a, b)
    }
}

ghost use Rattle.std.specs.Prelude.{◌≤◌, ◌≢◌};
ghost use Rattle.c5_board.specs.Boards.{IsWorker};
ghost use Rattle.c5_board.specs.Cuts.{Holds, rest_of, part_of};
ghost use Rattle.c5_board.specs.Views.{spent_view};

impl Board<'_> {
    // Takes the role of a worker, unless it is 0, the snapshot role and the scheduler role, as the
    // flags say.
    fn cut<J: Picks>(
        &self,
        pass: BoardPass,
        worker: u32,
        snapshot: bool,
        scheduler: bool,
    ) -> (BoardPass, BoardPass)
        requires pass { pass.board ≡ self.now }
        requires taken { J.taken ≡ record {
          worker = worker;
          snapshot = snapshot;
          scheduler = scheduler;
        } }
        requires holds { Holds pass (record {
          worker = worker;
          snapshot = snapshot;
          scheduler = scheduler;
        }) }
        ensures rest { result.0 ≡ rest_of (record {
          worker = worker;
          snapshot = snapshot;
          scheduler = scheduler;
        }) pass }
        ensures part { result.1 ≡ part_of (record {
          worker = worker;
          snapshot = snapshot;
          scheduler = scheduler;
        }) pass }
    {
        let BoardPass { place, mut seat } = pass;
        let part = self.table.shared.split_seat::<Cuts<J>>(&mut seat);
        (BoardPass { place, seat }, BoardPass { place, seat: part })
    }

    fn unite<J: Picks>(&self, a: BoardPass, b: BoardPass) -> BoardPass
        requires a { a.board ≡ self.now }
        requires b { b.board ≡ self.now }
        requires spent { J.spent ≡ spent_view self.now.log self.now.workers }
        ensures { result ≡ joined a b }
    {
        let BoardPass { place, mut seat } = a;
        let BoardPass {
            place: other_place,
            seat: other,
        } = b;
        self.table.shared.join_seat::<Unites<J>>(&mut seat, other);
        BoardPass {
            place: place.max(other_place),
            seat,
        }
    }
}
