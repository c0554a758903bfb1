//! The numbers that a run is given.

/// The number of `--count` if it isn't given: enough transactions for a try.
pub const DEFAULT_COUNT: u32 = 1_000;

/// The numbers that a run is given by its options. A command ignores those that it doesn't use.
#[derive(Clone, Copy)]
pub struct Options {
    /// Threads, from 1 to `MAX_THREADS`; 1 if not given.
    pub threads: u32,
    /// Workers of the replay, from 1 to `MAX_WORKERS`; 1 if not given.
    pub workers: u32,
    /// Transactions of a generated script, from 1 to `MAX_TRANSACTIONS`; `DEFAULT_COUNT` if not
    /// given.
    pub count: u32,
}
