//! What a session reads.

/// The rows after so many transactions: a place that was visible when the session began to read.
#[derive(Clone, Copy)]
pub struct View {
    /// The number of transactions.
    pub place: u32,
}
