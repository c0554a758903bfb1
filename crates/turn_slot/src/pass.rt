//! Passes and turns.

ghost use Rattle.turn_slot.specs.Views.{IsIdle, IsOut};

use crate::kept::Kept;
use crate::known::Known;
use atomic_table::Seat;

/// A right to try for the turn. Beside its number it has no bytes.
#[derive(Drop)]
pub struct Pass<V: Kept> {
    pub(crate) number: u64,
    pub(crate) seat: Seat<Option<V>, Known<V::Base, V::Entry>>,
    ghost idle: { IsIdle number seat.me },
}

/// The turn, while the value is out of its slot.
#[derive(Drop)]
pub struct Turn<V: Kept> {
    pub(crate) number: u64,
    pub(crate) seat: Seat<Option<V>, Known<V::Base, V::Entry>>,
    ghost out: { IsOut number seat.me },
}

/// What a try gives.
#[derive(Drop)]
pub enum Take<V: Kept> {
    /// The value, with the turn.
    Took { value: V, turn: Turn<V> },
    /// The pass of the number `holder` has the turn.
    Busy { holder: u64, pass: Pass<V> },
}
