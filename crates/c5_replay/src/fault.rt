//! Why a log is not replayed.

ghost use Rattle.std.specs.Prelude.{◌≡◌};
ghost use Rattle.c5_replay.specs.declared.fault.ReplayFault.TheVariants as faults;

use c5_rows::NoMemory;
use std::alloc::{AllocError, AllocFailed};

/// Why a log is not replayed.
#[derive(Clone, Copy)]
pub enum ReplayFault {
    /// The log writes more than 65,536 rows.
    Rows,
    /// Out of memory.
    NoMemory,
}

impl From<NoMemory> for ReplayFault {
    ghost from_gives = { λ _ e. e ≡ faults.NoMemory };

    fn from(_error: NoMemory) -> Self {
        ReplayFault::NoMemory
    }
}
