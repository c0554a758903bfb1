//! The rule of the slot, and what each step on it shows. Word 0 is the holder word: 0, or the
//! number of the pass that has the turn. Word 1 is the count word: the length of the history.

use crate::kept::Kept;
use crate::known::Known;
use atomic_table::{Join, Play, Split, TableRule};
use std::snapshot::Snapshot;

pub const HOLDER: usize = 0;

pub const COUNT: usize = 1;

/// What a slot is given when it is made.
#[derive(Drop)]
pub struct Opening<V> {
    pub value: Snapshot<V>,
    pub passes: u64,
}

pub struct TurnRule;

impl<V: Kept> TableRule<Option<V>, Known<V::Base, V::Entry>, Opening<V>> for TurnRule {
    ghost use Rattle.turn_slot.specs.Views.{IsSlotKept, first_view};

    ghost holds = { λ key. IsSlotKept V.base V.history V.caller
        (record { base = V.base key.value.value; passes = key.passes }) };

    ghost first = { λ key. first_view
        (record { base = V.base key.value.value; passes = key.passes }) };
}

/// The exchange of the holder word.
pub struct Tries;

impl<V: Kept> Play<Option<V>, Known<V::Base, V::Entry>> for Tries {
    ghost use Rattle.turn_slot.specs.Views.{tried};

    ghost then = { tried };
}

/// The load of the count word, at which the slot leaves its place.
pub struct Takes;

impl<V: Kept> Play<Option<V>, Known<V::Base, V::Entry>> for Takes {
    ghost use Rattle.turn_slot.specs.Views.{took};

    ghost then = { took V.base V.history V.caller };
}

/// The store of the count word, at which the slot is in its place again.
pub struct Gives;

impl<V: Kept> Play<Option<V>, Known<V::Base, V::Entry>> for Gives {
    ghost use Rattle.turn_slot.specs.Views.{gave};

    ghost then = { gave V.history };
}

/// The store of 0 to the holder word.
pub struct Ends;

impl<V: Kept> Play<Option<V>, Known<V::Base, V::Entry>> for Ends {
    ghost use Rattle.turn_slot.specs.Views.{ended};

    ghost then = { ended };
}

/// A load of the count word, which says that a joined pass has seen the own entries of its parts.
pub struct Settles;

impl<V: Kept> Play<Option<V>, Known<V::Base, V::Entry>> for Settles {
    ghost use Rattle.turn_slot.specs.Views.{settled};

    ghost then = { settled V.caller };
}

/// The first number goes to a pass of its own.
pub struct Singles;

impl<B, E> Split<Known<B, E>> for Singles {
    ghost use Rattle.turn_slot.specs.Views.{others_view, single_view};

    ghost left = { others_view };

    ghost right = { single_view };
}

/// Two passes become one.
pub struct Unites;

impl<B, E> Join<Known<B, E>> for Unites {
    ghost use Rattle.turn_slot.specs.Views.{joined_view, spent_view};

    ghost both = { joined_view };

    ghost spent = { spent_view };
}
