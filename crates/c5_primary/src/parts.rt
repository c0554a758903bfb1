//! What a session holds.

use crate::state::Opened;
use c5_order::Order;
use turn_slot::{Pass, TurnSlot};

/// The parts of a session.
#[derive(Drop)]
pub struct Parts<'a, 's> {
    pub slot: &'a TurnSlot<Order<'s>>,
    /// It is out only while a call is at work.
    pub pass: Option<Pass<Order<'s>>>,
    pub begun: Option<Opened>,
}
