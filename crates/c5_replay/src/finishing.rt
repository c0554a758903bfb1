//! What is left of a log is installed and made visible.

ghost use Rattle.std.specs.Prelude.{◌≡◌, ◌≤◌, length};
ghost use Rattle.c5_board.specs.Boards.{write_count};
ghost use Rattle.c5_replay.specs.Joins.{AreAllJoined, HasFinished};

use crate::shared::Shared;
use c5_board::BoardPass;
use c5_definitions::number_law;
use c5_rows::Replies;
use c5_snapshot::advance;
use c5_workers::{Worker, finish};

/// Installs the writes that are left, and makes the last place visible.
pub fn finish_all(
    shared: &Shared<'_>,
    pass: &mut BoardPass,
    workers: &mut [Worker],
    replies: &Replies,
)
    requires joined { AreAllJoined shared.now.board.now shared.now.start.now shared.now.reads.now
        pass.old workers.old replies.now }
    ensures finished { HasFinished shared.now.board.now shared.now.reads.now replies.now pass.new }
{
    number_law();
    let _place = pass.place();
    let _workers = shared.board.workers();
    finish(shared.board, pass, workers);
    advance(shared.board, pass);
}
