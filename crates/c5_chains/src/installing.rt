//! A write is tried.

ghost use Rattle.std.specs.Prelude.{◌≡◌, ◌≤◌, true, false};
ghost use Rattle.c5_rows.specs.Numbers.{is_among};
ghost use Rattle.c5_board.specs.Boards.{names};
ghost use Rattle.c5_board.specs.Passes.{owner_in};
ghost use Rattle.c5_chains.specs.Tries.{after_try, IsCaused, head_found};

use crate::install::Install;
use c5_board::{Board, BoardPass};
use c5_definitions::number_law;

/// Tries to install write w: loads its record, and then exchanges the head of its row, from its
/// predecessor to w. It is put off if and only if its predecessor isn't the head, so not if the
/// pass knows that the predecessor is installed. A pass with all worker roles knows it if and only
/// if it is.
pub fn try_install(board: &Board<'_>, pass: &mut BoardPass, w: u32) -> Install
    requires pass { pass.old.board ≡ board.now }
    requires role { is_among (owner_in pass.old w) pass.old.roles ≡ true }
    requires write { (1 ≤ w) × (w ≤ pass.old.scheduled) }
    requires not_installed { is_among w pass.old.installed ≡ false }
    ensures pass { pass.new ≡ after_try pass.old w (head_found (names board.now) w result) }
    ensures cause { IsCaused pass.old w result }
{
    number_law();
    let _place = pass.place();
    let link = board.load_record(pass, w);
    match board.exchange_head(pass, w, link) {
        Ok(()) => Install::Installed,
        Err(seen) => Install::PutOff { seen },
    }
}
