ghost use Rattle.std.specs.Prelude.{◌≡◌};
ghost use Rattle.c5_io.specs.declared.errors.InFault.TheVariants.{Failed, NoMemory};

use std::alloc::AllocError;

/// A call of a source or a sink has failed. Its count of faults has risen.
#[derive(Clone, Copy, Debug, PartialEq, Eq)]
pub struct Failed;

/// Why a whole input was not read.
#[derive(Clone, Copy, Debug)]
pub enum InFault {
    /// A read failed.
    Failed,
    /// There are more bytes than the limit.
    TooLong,
    /// Memory was refused.
    NoMemory,
}

impl From<Failed> for InFault {
    ghost from_gives = { λ _ e. e ≡ Failed };

    fn from(_: Failed) -> Self {
        InFault::Failed
    }
}

impl From<AllocError> for InFault {
    ghost from_gives = { λ _ e. e ≡ NoMemory };

    fn from(_: AllocError) -> Self {
        InFault::NoMemory
    }
}
