//! Rows at a place.

ghost use Rattle.std.specs.Prelude.{◌≡◌, ◌≤◌, length};
ghost use Rattle.c5_definitions.specs.WriteNumbers.{IsFirstWrite, last_on_row, end_of};
ghost use Rattle.c5_frames.specs.Index.{writes_of};
ghost use Rattle.c5_board.specs.Boards.{names};
ghost use Rattle.c5_board.specs.Passes.{end_in};
ghost use Rattle.c5_chains.specs.Chains.{at_number, FollowsRow};

use crate::at::At;
use c5_board::{Board, BoardPass};
use c5_definitions::number_law;
use c5_frames::LogBuffer;

// The greatest number of the row up to `end`, or 0: from the row's head, by one record for each
// number above it.
fn last_up_to(board: &Board<'_>, pass: &mut BoardPass, row: u32, end: u32) -> u32
    requires pass { pass.old.board ≡ board.now }
    requires row { IsFirstWrite (names pass.old.board) row }
    requires end { end ≤ end_in pass.old pass.old.place }
    ensures last { result ≡ last_on_row (names pass.old.board) row end }
    ensures looks { FollowsRow pass.old pass.new row end }
{
    number_law();
    let mut w = board.load_head(pass, row);
    while w > end {
        w = board.load_record(pass, w).predecessor;
    }
    w
}

// What a write makes of its row; `Before` if there is none.
fn at_write<'p>(log: &'p LogBuffer, w: u32) -> At<'p>
    requires { w ≤ length (writes_of log.now.txns) }
    ensures { result ≡ at_number (writes_of log.now.txns) w }
{
    if w == 0 {
        return At::Before;
    }
    match log.write(w).row() {
        Some(row) => At::Put(row),
        None => At::Gone,
    }
}

/// What the row is after the first `place` transactions. `row` is the row's number.
pub fn value_at<'p>(board: &Board<'p>, pass: &mut BoardPass, row: u32, place: u32) -> At<'p>
    requires pass { pass.old.board ≡ board.now }
    requires row { IsFirstWrite (names board.now) row }
    requires place { place ≤ pass.old.place }
    ensures value { result ≡ at_number (writes_of board.now.log.txns)
        (last_on_row (names board.now) row (end_of board.now.log.txns place)) }
    ensures looks { FollowsRow pass.old pass.new row (end_of board.now.log.txns place) }
{
    number_law();
    let _place = pass.place();
    let plan = board.plan();
    let w = last_up_to(board, pass, row, plan.end(place));
    at_write(plan.log(), w)
}
