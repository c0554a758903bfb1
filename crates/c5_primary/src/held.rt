//! The reads of the one open transaction of an order book.

ghost use Rattle.std.specs.Prelude.{◌≡◌, ◌≤◌, ◌∷◌, [], length};
ghost use Rattle.c5_primary.specs.OpenStamps.{open_stamps};

use crate::state::HeldBase;
use c5_eval::ReadRows;
use c5_order::Order;
use c5_rows::{NoMemory, Row, RowName};

/// Reads for the one open transaction of an order book.
#[derive(Drop)]
pub struct HeldRows<'o, 's> {
    pub order: &'o mut Order<'s>,
    pub stamp: u64,
    /// How many entries the history had at first.
    pub before: u64,
    pub refusals: u64,
    pub ghost only: { open_stamps order.now.history ≡ stamp ∷ [] },
    pub ghost longer: { before ≤ length order.now.history },
}

impl ReadRows for HeldRows<'_, '_> {
    ghost use Rattle.c5_definitions.specs.History.{answered};
    ghost use Rattle.c5_primary.specs.Finishing.{held_base};

    type Fault = NoMemory;

    type Base = HeldBase;

    ghost base = { λ r. held_base r.order.ghost_name r.order.now r.stamp r.before };

    ghost asked = { λ r. answered r.order.now.base.start r.order.now.history r.stamp };

    ghost refusals = { λ r. r.refusals };

    fn row(&mut self, name: &RowName) -> Result<Option<Row>, NoMemory> {
        match self.order.read(self.stamp, name) {
            Ok(row) => Ok(row),
            Err(NoMemory) => {
                self.refusals = self.refusals.saturating_add(1);
                Err(NoMemory)
            }
        }
    }
}
