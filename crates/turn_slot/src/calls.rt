//! The calls on a slot.

ghost use Rattle.std.specs.Prelude.{◌≡◌, ◌≢◌, List, [], ◌∷◌, ◌++◌, true, false};
ghost use mathlib.Core.List.{IsPrefix};
ghost use Rattle.turn_slot.specs.Entries.{longer, entries_of, IsPassNumber, AreOf};
ghost use Rattle.c5_rows.specs.Numbers.{is_among};
ghost use Rattle.turn_slot.specs.Views.{pass_number};
ghost use Rattle.turn_slot.specs.Passes.{passes, slot_base, numbers, seen, looks, own};
ghost use Rattle.turn_slot.specs.Passes.{turn_numbers};
ghost use Rattle.turn_slot.specs.Passes.{turn_seen, turn_looks, IsPassOf, IsTurnOf, HasAll, IfTook};
ghost use Rattle.turn_slot.specs.Passes.{IfBusy, IsTook};

use crate::kept::Kept;
use crate::pass::{Pass, Take, Turn};
use crate::rule::{COUNT, Ends, Gives, HOLDER, Settles, Takes, Tries, Unites};
use crate::slot::TurnSlot;

impl<V: Kept> Pass<V> {
    /// The pass's number, which is the first that it unites.
    pub fn number(&self) -> u64
        ensures first { result ≡ pass_number (numbers self.now) }
        ensures among { is_among result (numbers self.now) ≡ true }
    {
        self.number
    }
}

impl<V: Kept> TurnSlot<V> {
    /// Tries for the turn. One exchange decides: it finds 0, or the number of the pass that has the
    /// turn.
    pub fn try_take(&self, pass: Pass<V>) -> Take<V>
        requires { IsPassOf self.now pass }
        ensures turn { IfTook result
            (λ x t. IsTurnOf self.now t × (turn_numbers t ≡ numbers pass)) }
        ensures took { IfTook result (λ x t. turn_looks t ≡ looks pass ++ 0 ∷ []) }
        ensures base { IfTook result (λ x t. V.base x ≡ slot_base V.base self.now) }
        ensures history { IfTook result (λ x t. turn_seen t ≡ V.history x) }
        ensures seen { IfTook result (λ x t. IsPrefix (seen pass) (V.history x)) }
        ensures own { IfTook result
            (λ x t. entries_of V.caller (numbers pass) (V.history x) ≡ own pass) }
        ensures pass { IfBusy result
            (λ n p. IsPassOf self.now p × (numbers p ≡ numbers pass) × (seen p ≡ seen pass)) }
        ensures found { IfBusy result (λ n p. (looks p ≡ looks pass ++ n ∷ []) × (n ≢ 0)) }
        ensures holder { IfBusy result
            (λ n p. IsPassNumber (passes self.now) n × (is_among n (numbers pass) ≡ false)) }
        ensures never_busy { HasAll self.now pass → IsTook result }
    {
        let Pass { number, mut seat } = pass;
        let shared = &self.table.shared;
        let holder = shared.compare_exchange::<Tries>(&mut seat, HOLDER, 0, number);
        if holder != 0 {
            return Take::Busy {
                holder,
                pass: Pass { number, seat },
            };
        }
        // With this load the slot is the pass's own, so that its value can be taken out.
        shared.load::<Takes>(&mut seat, COUNT);
        let Some(value) = shared.exchange(&mut seat, 0, None) else {
            unreachable!()
        };
        Take::Took {
            value,
            turn: Turn { number, seat },
        }
    }

    /// Gives the value back, and ends the turn.
    pub fn give(&self, turn: Turn<V>, value: V) -> Pass<V>
        requires turn { IsTurnOf self.now turn }
        requires base { V.base value ≡ slot_base V.base self.now }
        requires history { (more : List V.Entry) × (V.history value ≡ turn_seen turn ++ more)
            × AreOf V.caller (turn_numbers turn) more }
        ensures pass { IsPassOf self.now result }
        ensures numbers { numbers result ≡ turn_numbers turn }
        ensures seen { seen result ≡ V.history value }
        ensures looks { looks result ≡ turn_looks turn }
    {
        let Turn { number, mut seat } = turn;
        let shared = &self.table.shared;
        let entries = value.entries();
        let hole = shared.exchange(&mut seat, 0, Some(value));
        let None = hole else { unreachable!() };
        shared.store::<Gives>(&mut seat, COUNT, entries);
        shared.store::<Ends>(&mut seat, HOLDER, 0);
        Pass { number, seat }
    }

    /// Makes two passes one. It has the number of the first. The own entries of both are in the
    /// history that it has seen.
    pub fn join(&self, a: Pass<V>, b: Pass<V>) -> Pass<V>
        requires a { IsPassOf self.now a }
        requires b { IsPassOf self.now b }
        ensures pass { IsPassOf self.now result }
        ensures numbers { numbers result ≡ numbers a ++ numbers b }
        ensures seen { seen result ≡ longer (seen a) (seen b) }
        ensures own_a { entries_of V.caller (numbers a) (seen result) ≡ own a }
        ensures own_b { entries_of V.caller (numbers b) (seen result) ≡ own b }
        ensures looks { looks result ≡ looks a }
    {
        let Pass { number, mut seat } = a;
        let Pass {
            number: _,
            seat: other,
        } = b;
        let shared = &self.table.shared;
        shared.join_seat::<Unites>(&mut seat, other);
        shared.load::<Settles>(&mut seat, COUNT);
        Pass { number, seat }
    }

    /// Ends the slot, and hands out its value.
    pub fn close(self, pass: Pass<V>) -> V
        requires pass { IsPassOf self pass }
        requires all { HasAll self pass }
        ensures base { V.base result ≡ slot_base V.base self }
        ensures seen { IsPrefix (seen pass) (V.history result) }
        ensures own { V.history result ≡ own pass }
    {
        let TurnSlot { table } = self;
        let Pass { number: _, seat } = pass;
        let mut closed = table.close_with(seat);
        let value = closed.take(0);
        closed.free();
        let Some(value) = value else { unreachable!() };
        value
    }
}
