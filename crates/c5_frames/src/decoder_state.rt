//! How far a log has been read.

use crate::index::Index;
use crate::stage::Stage;
use c5_rows::Schema;

/// How far a log has been read, by whole items.
#[derive(Drop)]
pub struct DecoderState {
    /// The tables that have come.
    pub schema: Option<Schema>,
    /// The item that comes next.
    pub stage: Stage,
    /// Where its bytes begin.
    pub at: u32,
    /// What has been found of the frames.
    pub index: Index,
}
