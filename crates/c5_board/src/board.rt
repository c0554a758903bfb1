//! The board.

use crate::known::Known;
use crate::rule::{BoardRule, Opening};
use atomic_table::Table;
use c5_plan::Plan;
use std::alloc::Global;
use std::marker::Model;

/// The words that the scheduler, the workers, the snapshot and the readers of a log share.
#[derive(Drop)]
pub struct Board<'p> {
    pub(crate) table: Table<(), Known, Opening, BoardRule, Global>,
    pub(crate) plan: &'p Plan<'p>,
    pub(crate) workers: u32,
    pub(crate) writes: u32,
    pub(crate) buckets: u32,
}

impl<'p> Model for Board<'p> {
    ghost use Rattle.c5_board.specs.Boards.{Board};

    ghost Value = { Board };

    ghost use Rattle.c5_board.specs.Held.{board_of, IsBoard};

    ghost view = { board_of };

    ghost invariant = { IsBoard };
}
