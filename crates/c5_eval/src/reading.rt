//! Where rows come from.

ghost use Rattle.std.specs.Prelude.{◌≡◌, ℕ, List, Option, [], ◌∷◌, ◌++◌, IfOk, OnErr};
ghost use Rattle.c5_rows.specs.declared.cells.Cell.{Cell};
ghost use Rattle.c5_rows.specs.declared.writes.RowName.{RowName};
ghost use Rattle.c5_rows.specs.Counts.{HasCause};

use c5_rows::{NoMemory, Row, RowName};

/// A reader of rows.
pub trait ReadRows {
    /// Why a row is refused.
    type Fault;
    /// What the reader reads from.
    type Base;

    // No call changes it.
    ghost base: { Self → Self.Base };

    // The names that were asked for, each with its answer, in order.
    ghost asked: { Self → List (RowName × Option (List Cell)) };

    // How often a row was refused. The count never falls, and saturates at `u64::MAX`.
    ghost refusals: { Self → ℕ };

    /// The row of this name, or `None` if there is none.
    fn row(&mut self, name: &RowName) -> Result<Option<Row>, Self::Fault>
        ensures base { base self.new ≡ base self.old }
        ensures answered { IfOk result
            (λ row. asked self.new ≡ asked self.old ++ (name.now, row) ∷ []) }
        ensures refused { OnErr result (asked self.new ≡ asked self.old) }
        ensures cause { HasCause (refusals self.old) (refusals self.new) result };
}

/// Why a body was not evaluated, or a read block not answered.
#[derive(Drop)]
pub enum EvalFault<F> {
    /// The reader refused a row.
    Read(F),
    /// Out of memory.
    NoMemory,
}

impl<F> From<NoMemory> for EvalFault<F> {
    ghost use Rattle.std.specs.Prelude.{◌≡◌};
    ghost use Rattle.c5_eval.specs.declared.reading.EvalFault.TheVariants as faults;

    ghost from_gives = { λ _ e. e ≡ faults.NoMemory };

    fn from(_: NoMemory) -> Self {
        EvalFault::NoMemory
    }
}
