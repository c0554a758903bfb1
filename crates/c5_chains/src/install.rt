//! What became of a write that was tried.

/// What became of a write that was tried.
#[derive(Clone, Copy)]
pub enum Install {
    /// The head of its row was its predecessor, and is now the write.
    Installed,
    /// The head was `seen`, which is below its predecessor: that isn't installed yet.
    PutOff { seen: u32 },
}
