//! The parts of a replay.

use c5_board::BoardPass;
use c5_rows::Reply;
use c5_workers::{Scheduler, Worker};

/// A part of a replay: a role, its pass, and what it keeps.
#[derive(Drop)]
pub enum Part {
    Scheduler {
        pass: BoardPass,
        scheduler: Scheduler,
    },
    Worker {
        i: u32,
        pass: BoardPass,
        worker: Worker,
    },
    Snapshot {
        pass: BoardPass,
    },
    /// A session with its replies so far.
    Session {
        session: u32,
        pass: BoardPass,
        replies: Vec<Reply>,
    },
}
