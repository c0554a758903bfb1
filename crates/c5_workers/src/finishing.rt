//! What is left of a log is installed by one pass.

ghost use Rattle.std.specs.Prelude.{◌≡◌, ℕ, true};
ghost use Rattle.c5_rows.specs.Numbers.{is_among};
ghost use Rattle.c5_board.specs.Boards.{write_count, IsWorker};
ghost use Rattle.c5_workers.specs.Finishing.{AreWorkersOf, Finishes, HasInstalled, HasStored};
ghost use Rattle.c5_workers.specs.Finishing.{AreAllInstalled};

use crate::worker::Worker;
use c5_board::{Board, BoardPass};
use c5_definitions::number_law;

// Installs each write that isn't installed, ascending.
fn install_left(board: &Board<'_>, pass: &mut BoardPass, workers: &mut [Worker])
    requires pass { pass.old.board ≡ board.now }
    requires scheduled { pass.old.scheduled ≡ write_count board.now }
    requires workers { AreWorkersOf pass.old workers.old }
    ensures workers { AreWorkersOf pass.new workers.new }
    ensures pass { HasInstalled pass.old pass.new (write_count board.now) }
{
    number_law();
    let count = board.workers();
    for before in 0..board.writes() {
        let owner = (before % count) as usize;
        workers[owner].install(board, pass, before + 1);
    }
}

// Stores the progress of each worker.
fn store_all(board: &Board<'_>, pass: &mut BoardPass, workers: &[Worker])
    requires pass { pass.old.board ≡ board.now }
    requires workers { AreWorkersOf pass.old workers.now }
    requires all { AreAllInstalled pass.old }
    ensures workers { AreWorkersOf pass.new workers.now }
    ensures pass { HasStored pass.old pass.new board.now.workers }
{
    number_law();
    for worker in workers {
        let _place = pass.place();
        worker.store_least(board, pass);
    }
}

/// Installs what is left of a log that is wholly scheduled, each write after those below it, and
/// then stores the progress of each worker. The pass has all worker roles. Takes linear time.
pub fn finish(board: &Board<'_>, pass: &mut BoardPass, workers: &mut [Worker])
    requires pass { pass.old.board ≡ board.now }
    requires roles { (i : ℕ) → IsWorker board.now.workers i → is_among i pass.old.roles ≡ true }
    requires scheduled { pass.old.scheduled ≡ write_count board.now }
    requires workers { AreWorkersOf pass.old workers.old }
    ensures workers { AreWorkersOf pass.new workers.new }
    ensures pass { Finishes pass.old pass.new }
{
    install_left(board, pass, workers);
    store_all(board, pass, workers);
}
