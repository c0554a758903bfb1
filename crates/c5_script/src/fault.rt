//! Why a line was not taken.

ghost use Rattle.std.specs.Prelude.{◌≡◌};
ghost use Rattle.c5_script.specs.declared.fault.LineError.TheVariants.{Fault, NoMemory};

use c5_definitions::ScriptKind;
use c5_rows::NoMemory;

/// Why a line was not taken.
#[derive(Clone, Copy, PartialEq, Eq)]
pub(crate) enum LineError {
    /// The kind of the first test that the line fails.
    Fault(ScriptKind),
    /// Memory was refused.
    NoMemory,
}

impl From<ScriptKind> for LineError {
    ghost from_gives = { λ kind e. e ≡ Fault kind };

    fn from(kind: ScriptKind) -> Self {
        LineError::Fault(kind)
    }
}

impl From<NoMemory> for LineError {
    ghost from_gives = { λ _ e. e ≡ NoMemory };

    fn from(_error: NoMemory) -> Self {
        LineError::NoMemory
    }
}
