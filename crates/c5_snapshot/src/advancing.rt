//! The snapshot's turn.

ghost use Rattle.std.specs.Prelude.{◌≡◌, ◌≤◌, min, true};
ghost use Rattle.c5_definitions.specs.WriteNumbers.{place_below};
ghost use Rattle.c5_snapshot.specs.Advances.{LoadsEachProgress, IsLeastOf, advanced};
ghost use Rattle.c5_board.specs.Passes.{IsSound};
ghost use Rattle.c5_snapshot.specs.Loading.{HasLoaded};

use crate::found::Advance;
use c5_board::{Board, BoardPass};
use c5_definitions::number_law;

fn lesser(a: u64, b: u64) -> u64
    ensures { result ≡ min a b }
{
    a.min(b)
}

// The least progress that one load for each worker finds.
fn load_least(board: &Board<'_>, pass: &mut BoardPass) -> u64
    requires pass { pass.old.board ≡ board.now }
    requires role { pass.old.snapshot ≡ true }
    ensures sound { IsSound pass.old }
    ensures loaded { HasLoaded pass.old pass.new board.now.workers result }
{
    let _place = pass.place();
    let workers = board.workers();
    let mut least = board.load_progress(pass, 1);
    for before in 1..workers {
        least = lesser(least, board.load_progress(pass, before + 1));
    }
    least
}

/// Loads the progress of each worker once, from worker 1 on, and makes the greatest place whose
/// writes are all below the least of them visible. The visible place never falls.
pub fn advance(board: &Board<'_>, pass: &mut BoardPass) -> Advance
    requires pass { pass.old.board ≡ board.now }
    requires role { pass.old.snapshot ≡ true }
    ensures pass { pass.new ≡ advanced pass.old pass.new.floors result.place }
    ensures loads { LoadsEachProgress pass.old pass.new }
    ensures least { IsLeastOf result.least pass.new.floors }
    ensures place { result.place ≡ place_below board.now.log.txns result.least }
    ensures not_below { pass.old.place ≤ result.place }
{
    number_law();
    let _workers = board.workers();
    let least = load_least(board, pass);
    let place = board.plan().place_below(least);
    board.store_visible(pass, place);
    Advance { place, least }
}
