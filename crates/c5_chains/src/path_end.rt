//! Where the path of a name ends.

/// Where the path of a name ends.
#[derive(Clone, Copy)]
pub enum PathEnd {
    /// At the row of the name, which has this number.
    Row(u32),
    /// At this bucket, which was empty.
    Free(u32),
}
