//! A worker's part.

ghost use Rattle.std.specs.Prelude.{◌≡◌, ◌∷◌, []};
ghost use Rattle.c5_workers.specs.Work.{FitsWorker};
ghost use Rattle.c5_replay.specs.Parts.{IsPassWith};

use crate::shared::MAX_STALLED;
use c5_board::{Board, BoardPass};
use c5_io::{Gate, Role};
use c5_workers::{WorkTurn, Worker};
use std::thread;

// Whether a turn installed a write.
fn has_installed(turn: WorkTurn) -> bool {
    match turn {
        WorkTurn::Did { installed, .. } => installed > 0,
        _ => false,
    }
}

/// Takes turns of worker i until each write that it owns is installed, or until 1,000 turns in a
/// row have installed nothing. Passes the gate before each turn. After a turn that installed
/// nothing it gives its processor away.
pub fn work<G: Gate>(board: &Board<'_>, gate: &G, i: u32, pass: &mut BoardPass, worker: &mut Worker)
    requires pass { IsPassWith board.now (i ∷ []) pass.old }
    requires fits { FitsWorker worker.old pass.old }
    ensures pass { IsPassWith board.now (i ∷ []) pass.new }
    ensures fits { FitsWorker worker.new pass.new }
{
    let mut stalled = 0;
    for turn in 1..u64::MAX {
        gate.pass(Role::Worker(i), turn);
        let did = worker.turn(board, pass);
        if did == WorkTurn::Done {
            return;
        }
        if has_installed(did) {
            stalled = 0;
            continue;
        }
        stalled += 1;
        if stalled == MAX_STALLED {
            return;
        }
        thread::yield_now();
    }
}
