//! What a turn of the snapshot finds.

/// What a turn of the snapshot finds.
#[derive(Clone, Copy)]
pub struct Advance {
    /// The visible place: the greatest place whose writes are all below `least`.
    pub place: u32,
    /// The least progress of all workers.
    pub least: u64,
}
