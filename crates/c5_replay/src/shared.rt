//! What the parts of a replay share.

use c5_board::Board;
use c5_rows::Rows;
use c5_script::ReadBlock;

/// Turns or loads in a row that may bring nothing: after so many a part stops waiting for others.
pub const MAX_STALLED: u32 = 1_000;

/// What the parts of a replay share: the board, the rows at the start, and the read blocks of all
/// sessions.
#[derive(Clone, Copy)]
pub struct Shared<'a> {
    pub board: &'a Board<'a>,
    pub start: &'a Rows,
    pub reads: &'a [ReadBlock],
}
