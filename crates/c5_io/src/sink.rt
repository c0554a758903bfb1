ghost use Rattle.std.specs.Prelude.{◌≡◌, ◌<◌, List, ℕ, Option, Bool, false, is_ok, length, IfOk};
ghost use Rattle.std.specs.Io.{WritesAtMost};
ghost use Rattle.std.specs.Io.KnownBytes.{Keeps, WriteAppends};
ghost use Rattle.c5_rows.specs.Counts.{HasCause};

use crate::Failed;

/// Where bytes go to.
pub trait Sink {
    /// The bytes that were taken so far, if they are known.
    ghost held: { Self → Option (List ℕ) };

    /// How often a call has failed. The count never falls, and stops at `u64::MAX`.
    ghost faults: { Self → ℕ };

    /// The last call was a flush, and was Ok.
    ghost flushed: { Self → Bool };

    /// Takes bytes from the beginning of the piece, and says how many.
    fn write(&mut self, piece: &[u8]) -> Result<usize, Failed>
        ensures bound { WritesAtMost result piece.now }
        ensures some { 0 < length piece.now → IfOk result (λ n. 0 < n) }
        ensures bytes { WriteAppends (held self.old) (held self.new) result piece.now }
        ensures flushed { flushed self.new ≡ false }
        ensures cause { HasCause (faults self.old) (faults self.new) result };

    /// Passes on what was taken.
    fn flush(&mut self) -> Result<(), Failed>
        ensures bytes { Keeps (held self.old) (held self.new) }
        ensures flushed { flushed self.new ≡ is_ok result }
        ensures cause { HasCause (faults self.old) (faults self.new) result };
}
