//! Rows by their names.

ghost use Rattle.std.specs.Prelude.{◌≡◌};
ghost use Rattle.c5_chains.specs.Finds.{IsFound};
ghost use Rattle.c5_chains.specs.Paths.{FollowsPath};

use crate::following::follow_path;
use crate::path_end::PathEnd;
use c5_board::{Board, BoardPass};
use c5_rows::RowName;

/// The number of the row of this name. `None` only if no write of the row is scheduled, as far as
/// the pass knows. The buckets of the name's path are loaded in order, until one is empty or holds
/// the row.
pub fn find(board: &Board<'_>, pass: &mut BoardPass, name: &RowName) -> Option<u32>
    requires { pass.old.board ≡ board.now }
    ensures found { IsFound pass.old name.now result }
    ensures looks { FollowsPath pass.old pass.new name.now result }
{
    match follow_path(board, pass, name) {
        PathEnd::Row(row) => Some(row),
        PathEnd::Free(_) => None,
    }
}
