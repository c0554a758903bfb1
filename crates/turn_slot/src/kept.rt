//! What a value is to a slot.

ghost use Rattle.std.specs.Prelude.{◌≡◌, ℕ, List, length};
ghost use Rattle.turn_slot.specs.Entries.{count_of};

/// A value with a base and a history. No call on a slot changes the base, and the history only
/// grows.
pub trait Kept {
    /// What the value was made with.
    type Base;
    /// An entry of the history.
    type Entry;

    ghost base: { Self → Self.Base };

    ghost history: { Self → List Self.Entry };

    // The number of the caller that an entry is of.
    ghost caller: { Self.Entry → ℕ };

    /// The length of the history, or `u64::MAX` if it is longer.
    fn entries(&self) -> u64
        ensures { result ≡ count_of (length (history self.now)) };
}
