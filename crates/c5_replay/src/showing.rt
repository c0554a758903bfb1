//! The snapshotter's part.

ghost use Rattle.std.specs.Prelude.{◌≡◌, true};
ghost use Rattle.c5_replay.specs.Parts.{IsPassWith};

use crate::shared::MAX_STALLED;
use c5_board::{Board, BoardPass};
use c5_io::{Gate, Role};
use c5_snapshot::advance;
use std::thread;

/// Advances the visible place until it is the last one, or until 1,000 turns in a row haven't
/// advanced it. Passes the gate before each turn. After a turn that hasn't advanced it the part
/// gives its processor away.
pub fn show<G: Gate>(board: &Board<'_>, gate: &G, pass: &mut BoardPass)
    requires pass { pass.old.board ≡ board.now }
    requires role { pass.old.snapshot ≡ true }
    ensures pass { IsPassWith board.now pass.old.roles pass.new }
    ensures role { pass.new.snapshot ≡ true }
{
    let total = board.plan().log().transactions();
    let mut place = pass.place();
    let mut stalled = 0;
    for turn in 1..u64::MAX {
        gate.pass(Role::Snapshot, turn);
        let found = advance(board, pass).place;
        if found == total {
            return;
        }
        if found > place {
            place = found;
            stalled = 0;
            continue;
        }
        stalled += 1;
        if stalled == MAX_STALLED {
            return;
        }
        thread::yield_now();
    }
}
