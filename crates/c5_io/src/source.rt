ghost use Rattle.std.specs.Prelude.{List, ℕ, Option};
ghost use Rattle.std.specs.Io.{ReadsAtMost};
ghost use Rattle.std.specs.Io.KnownBytes.{ReadConsumes};
ghost use Rattle.c5_rows.specs.Counts.{HasCause};

use crate::Failed;

/// Where bytes come from.
pub trait Source {
    /// The bytes still to come, if they are known.
    ghost left: { Self → Option (List ℕ) };

    /// How often a call has failed. The count never falls, and stops at `u64::MAX`.
    ghost faults: { Self → ℕ };

    /// Reads into the beginning of the buffer, and says how many bytes it wrote there. For a buffer
    /// that isn't empty, 0 is the end.
    fn read(&mut self, into: &mut [u8]) -> Result<usize, Failed>
        ensures bound { ReadsAtMost result into.new }

        // Ok: these bytes were the next ones, and 0 comes only if none is left. Failed: none is
        // taken.
        ensures bytes { ReadConsumes (left self.old) (left self.new) result into.new }
        ensures cause { HasCause (faults self.old) (faults self.new) result };
}
