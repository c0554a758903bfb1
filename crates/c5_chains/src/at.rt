//! What a row is at a place.

use c5_frames::RowRef;

/// What a row is at a place.
#[derive(Drop)]
pub enum At<'p> {
    /// This row, which a write of the log put.
    Put(RowRef<'p>),
    /// Absent, by a write of the log.
    Gone,
    /// What it was before the log: no write of it is up to the place.
    Before,
}
