//! What turns of the scheduler come to.

/// What a turn of the scheduler did.
#[derive(Clone, Copy, PartialEq, Eq)]
pub enum ScheduleTurn {
    /// Write `w` is scheduled.
    Did { w: u32 },
    /// Nothing is scheduled: the next write is the first of one row too many.
    Rows,
    /// Nothing is scheduled: each write of the log is already.
    Done,
}

/// How scheduling a whole log ends.
#[derive(Clone, Copy)]
pub enum ScheduleEnd {
    /// Each write of the log is scheduled.
    Done,
    /// The log writes too many rows.
    Rows,
}
