//! The slot.

ghost use Rattle.std.specs.Prelude.{◌≡◌};

use crate::kept::Kept;
use crate::known::Known;
use crate::rule::{Opening, TurnRule};
use atomic_table::Table;
use std::alloc::Global;

/// A value that one pass at a time holds.
#[derive(Drop)]
pub struct TurnSlot<V: Kept> {
    pub(crate) table: Table<Option<V>, Known<V::Base, V::Entry>, Opening<V>, TurnRule, Global>,
    ghost sized: { (table.shared.table_id.words ≡ 2) × (table.shared.table_id.slots ≡ 1) },
}
