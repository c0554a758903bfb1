//! The open block of a script that is read in part.

use crate::blocks::ReadBlock;
use crate::bodies::Body;

/// The open block.
#[derive(Drop)]
pub(crate) enum OpenBlock {
    /// None is open.
    Outside,
    /// A transaction.
    Txn(Body),
    /// A read block of this session, without lines.
    Opened(u32),
    /// A read block with lines.
    Read(ReadBlock),
}
