//! The path of a name is followed.

ghost use Rattle.std.specs.Prelude.{◌≡◌, ◌≤◌, ◌<◌, ◌↔◌, Some, length, IsTrue};
ghost use Rattle.c5_definitions.specs.WriteNumbers.{names_in, name_at};
ghost use Rattle.c5_definitions.specs.RowIndex.{next_bucket};
ghost use Rattle.c5_frames.specs.Index.{writes_of};
ghost use Rattle.c5_chains.specs.Finds.{row_at_end, EndsAt};
ghost use Rattle.c5_chains.specs.Paths.{FollowsPath};

use crate::path_end::PathEnd;
use c5_board::{Board, BoardPass};
use c5_definitions::{index_law, number_law};
use c5_frames::LogBuffer;
use c5_rows::RowName;

// Whether write w has this name.
fn has_name(log: &LogBuffer, w: u32, name: &RowName) -> bool
    requires { (1 ≤ w) × (w ≤ length (writes_of log.now.txns)) }
    ensures { IsTrue result ↔ (name_at (names_in log.now.txns) w ≡ Some name.now) }
{
    let write = log.write(w);
    write.table() == name.table && write.key() == name.key.bytes()
}

// The bucket after this one on every path.
#[tactic(auto, unfolding(c5_definitions::specs::RowIndex::next_bucket))]
fn next(bucket: u32, buckets: u32) -> u32
    requires { bucket < buckets }
    ensures { result ≡ next_bucket buckets bucket }
{
    if bucket + 1 == buckets { 0 } else { bucket + 1 }
}

/// Follows the path of a name to its end: its buckets are loaded in order, until one is empty or
/// holds the row of the name.
pub fn follow_path(board: &Board<'_>, pass: &mut BoardPass, name: &RowName) -> PathEnd
    requires { pass.old.board ≡ board.now }
    ensures end { EndsAt pass.old name.now result }
    ensures looks { FollowsPath pass.old pass.new name.now (row_at_end result) }
{
    number_law();
    index_law();
    let _place = pass.place();
    let log = board.plan().log();
    let buckets = board.buckets();
    let mut bucket = board.start(name);
    for _ in 0..buckets {
        let w = board.load_bucket(pass, bucket);
        if w == 0 {
            return PathEnd::Free(bucket);
        }
        if has_name(log, w, name) {
            return PathEnd::Row(w);
        }
        bucket = next(bucket, buckets);
    }
    unreachable!()
}
