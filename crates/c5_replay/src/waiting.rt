//! A session waits for a later place.

ghost use Rattle.std.specs.Prelude.{◌≡◌};
ghost use Rattle.c5_replay.specs.Answered.{OnlyReads};

use crate::shared::MAX_STALLED;
use c5_board::{Board, BoardPass};
use c5_reads::ReadSession;
use std::thread;

/// Loads the visible place until it is above this one or the last of all, at most 1,000 times.
/// Between two loads it gives its processor away.
pub fn wait_for_place(
    board: &Board<'_>,
    session: &mut ReadSession<'_>,
    pass: &mut BoardPass,
    last: u32,
)
    requires pass { pass.old.board ≡ board.now }
    ensures session { session.new ≡ session.old }
    ensures pass { OnlyReads pass.old pass.new }
{
    let total = board.plan().log().transactions();
    for _ in 0..MAX_STALLED {
        let place = session.begin(board, pass).place;
        if place > last || place == total {
            return;
        }
        thread::yield_now();
    }
}
