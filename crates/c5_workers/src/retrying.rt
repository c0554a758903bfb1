//! The writes that a worker has put off are tried again.

ghost use Rattle.std.specs.Prelude.{◌≡◌, ◌≤◌, length, take};
ghost use Rattle.c5_workers.specs.Tries.{FitsList, Retries};

use c5_board::{Board, BoardPass};
use c5_chains::{Install, try_install};

/// Tries each number of the list once, in order. Those that are put off again are moved to its
/// beginning, and how many there are is returned.
pub fn retry(board: &Board<'_>, pass: &mut BoardPass, list: &mut [u32], i: u32, next: u32) -> usize
    requires pass { pass.old.board ≡ board.now }
    requires fits { FitsList i next list.old pass.old }
    ensures few { result ≤ length list.old }
    ensures fits { FitsList i next (take result list.new) pass.new }
    ensures retries { Retries pass.old pass.new list.old (take result list.new) }
{
    let mut kept = 0;
    for place in 0..list.len() {
        let w = list[place];
        match try_install(board, pass, w) {
            Install::Installed => {}
            Install::PutOff { .. } => {
                list[kept] = w;
                kept += 1;
            }
        }
    }
    kept
}
