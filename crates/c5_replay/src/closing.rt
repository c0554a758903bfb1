//! The rounds after the words of a schedule.

ghost use Rattle.std.specs.Prelude.{◌≡◌, length, true};
ghost use Rattle.c5_rows.specs.Numbers.{numbers_from};
ghost use Rattle.c5_board.specs.Boards.{names, write_count};
ghost use Rattle.c5_definitions.specs.Turns.{after_closing, after_round, after_worker_turns};
ghost use Rattle.c5_definitions.specs.Turns.{is_all_done};
ghost use Rattle.c5_replay.specs.TurnStates.{FitsTurns, machine_of};

use crate::shared::Shared;
use crate::turning::{Turning, take_visible_turn, take_worker_turn};
use c5_definitions::number_law;

// Each worker takes a turn, in order.
fn take_all_worker_turns(shared: &Shared<'_>, turning: &mut Turning)
    requires fits { FitsTurns shared.now.board.now shared.now.start.now shared.now.reads.now
        turning.old }
    ensures fits { FitsTurns shared.now.board.now shared.now.start.now shared.now.reads.now
        turning.new }
    ensures machine { machine_of turning.new
        ≡ after_worker_turns (names shared.now.board.now) (machine_of turning.old)
        (numbers_from 1 shared.now.board.now.workers) }
{
    for before in 0..shared.board.workers() {
        take_worker_turn(shared, turning, before + 1);
    }
}

// Each worker takes a turn, and then the visible place advances. Returns whether each write is
// installed.
fn take_round(shared: &Shared<'_>, turning: &mut Turning) -> bool
    requires fits { FitsTurns shared.now.board.now shared.now.start.now shared.now.reads.now
        turning.old }
    ensures fits { FitsTurns shared.now.board.now shared.now.start.now shared.now.reads.now
        turning.new }
    ensures machine { machine_of turning.new
        ≡ after_round shared.now.board.now.log.txns (machine_of turning.old) }
    ensures all { result ≡ is_all_done (write_count shared.now.board.now)
        turning.new.pass.installed }
    ensures last { result ≡ true
        → turning.new.pass.place ≡ length shared.now.board.now.log.txns }
{
    take_all_worker_turns(shared, turning);
    take_visible_turn(shared, turning)
}

/// Takes rounds until each write is installed, at least one. One round more than there are writes
/// is enough.
pub fn close(shared: &Shared<'_>, turning: &mut Turning)
    requires fits { FitsTurns shared.now.board.now shared.now.start.now shared.now.reads.now
        turning.old }
    ensures fits { FitsTurns shared.now.board.now shared.now.start.now shared.now.reads.now
        turning.new }
    ensures machine { machine_of turning.new
        ≡ after_closing shared.now.board.now.log.txns (machine_of turning.old) }
    ensures all { is_all_done (write_count shared.now.board.now) turning.new.pass.installed
        ≡ true }
    ensures last { turning.new.pass.place ≡ length shared.now.board.now.log.txns }
{
    number_law();
    let _workers = shared.board.workers();
    let _place = turning.pass.place();
    for _before in 0..shared.board.writes() + 1 {
        if take_round(shared, turning) {
            return;
        }
    }
}
