//! What a turn of a worker comes to.

/// What a turn of a worker did.
#[derive(Clone, Copy, PartialEq, Eq)]
pub enum WorkTurn {
    /// It tried writes: this many are installed now, and `put_off` is 1 if a new one was put off,
    /// else 0.
    Did { installed: u32, put_off: u32 },
    /// It had no write to try: its next one isn't among the first `scheduled`, which are scheduled.
    NotYet { scheduled: u32 },
    /// Nothing, as each write that it owns is installed.
    Done,
}
