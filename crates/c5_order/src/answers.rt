//! What the calls of an order book answer.

use c5_rows::{NoMemory, RowName};

/// Why no transaction was begun.
#[derive(Clone, Copy, Debug, PartialEq, Eq)]
pub enum BeginFault {
    /// The body is committed, with this stamp.
    Committed { stamp: u64 },
    /// A transaction of the body is open, with this stamp.
    Began { stamp: u64 },
    /// There is no stamp after the last one.
    Stamps { last: u64 },
    /// Memory was refused.
    NoMemory,
}

impl From<NoMemory> for BeginFault {
    ghost use Rattle.std.specs.Prelude.{◌≡◌};
    ghost use Rattle.c5_order.specs.declared.answers.BeginFault.TheVariants as faults;

    ghost from_gives = { λ _ e. e ≡ faults.NoMemory };

    fn from(_: NoMemory) -> Self {
        BeginFault::NoMemory
    }
}

/// What a commit came to.
#[derive(Clone, Copy)]
pub enum Decision {
    /// The transaction is committed.
    Committed,
    /// A later stamp has read a row that the transaction would write.
    Conflict {
        /// The least such row.
        row: RowName,
        /// The greatest such stamp.
        reader: u64,
    },
}
