//! A new slot, and its passes.

ghost use Rattle.std.specs.Prelude.{◌≡◌, ◌≤◌, [], ◌∷◌, IfOk, map, All, vec_capacity};
ghost use Rattle.c5_rows.specs.Numbers.{numbers_from};
ghost use Rattle.turn_slot.specs.Views.{first_view};
ghost use Rattle.turn_slot.specs.Passes.{passes as passes_of, slot_base, origin_of, numbers, IsNew};
ghost use Rattle.c5_rows.specs.Sizes.{max_passes};

use crate::kept::Kept;
use crate::known::Known;
use crate::pass::Pass;
use crate::rule::{Opening, Singles};
use crate::slot::TurnSlot;
use atomic_table::{Seat, Table};
use c5_rows::NoMemory;
use std::alloc::Global;
use std::snapshot::Snapshot;

impl<V: Kept> TurnSlot<V> {
    /// A slot with the value in it, and its passes, with the numbers from 1 on.
    pub fn new(
        alloc: Global,
        value: V,
        passes: u32,
    ) -> Result<(TurnSlot<V>, Vec<Pass<V>>), NoMemory>
    where
        V: Drop,
        requires passes { (1 ≤ passes) × (passes ≤ max_passes) }
        requires empty { V.history value ≡ [] }
        ensures slot { IfOk result
            (λ r. (passes_of r.0 ≡ passes) × (slot_base V.base r.0 ≡ V.base value)) }
        ensures new { IfOk result (λ r. All (IsNew r.0) r.1.items) }
        ensures numbers { IfOk result
            (λ r. map numbers r.1.items ≡ map (λ n. n ∷ []) (numbers_from 1 passes)) }
    {
        let count = u64::from(passes);
        let mut list = Vec::with_capacity(alloc, passes as usize)?;
        let opening = Opening {
            value: Snapshot::of(&value),
            passes: count,
        };
        let mut slots = Vec::with_capacity(alloc, 1)?;
        slots.push_reserved(Some(value));
        let Ok((table, seat)) = Table::new(alloc, &[0, 0], slots, &opening) else {
            return Err(NoMemory);
        };
        let slot = TurnSlot { table };
        slot.deal(seat, count, &mut list);
        Ok((slot, list))
    }

    // Gives each number a pass of its own.
    fn deal(
        &self,
        mut seat: Seat<Option<V>, Known<V::Base, V::Entry>>,
        count: u64,
        list: &mut Vec<Pass<V>>,
    )
        requires seat { (seat.table_id ≡ self.now.table.shared.table_id)
            × (seat.me ≡ (first_view (origin_of V.base self.now), [])) }
        requires count { (count ≡ passes_of self.now) × (1 ≤ count) }
        requires room { (list.old.items ≡ []) × (count ≤ vec_capacity list.old) }
        ensures new { All (IsNew self.now) list.new.items }
        ensures numbers { map numbers list.new.items ≡ map (λ n. n ∷ []) (numbers_from 1 count) }
    {
        for number in 1..count {
            let single = self.table.shared.split_seat::<Singles>(&mut seat);
            list.push_reserved(Pass {
                number,
                seat: single,
            });
        }
        list.push_reserved(Pass {
            number: count,
            seat,
        });
    }
}
