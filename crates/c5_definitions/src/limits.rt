//! What a script may have too many of.

/// The first limit that a script exceeds.
#[derive(Clone, Copy, Debug, PartialEq, Eq)]
pub enum Excess {
    /// More than 65,536 transactions.
    Transactions,
    /// More than 262,144 statements that write.
    Writes,
    /// More than 65,536 different rows that they write.
    Rows,
}
