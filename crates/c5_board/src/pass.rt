//! Passes.

use crate::known::Known;
use atomic_table::Seat;
use std::marker::Model;

/// A right to step on a board. It holds roles, and knows what its own steps have found. Beside its
/// place it has no bytes.
#[derive(Drop)]
pub struct BoardPass {
    pub(crate) place: u32,
    pub(crate) seat: Seat<(), Known>,
}

impl Model for BoardPass {
    ghost use Rattle.c5_board.specs.Boards.{Pass};

    ghost Value = { Pass };

    ghost use Rattle.c5_board.specs.HeldPass.{shown_pass, IsPass};

    ghost view = { shown_pass };

    ghost invariant = { IsPass };
}
