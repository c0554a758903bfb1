//! The rule of the board, and what each kind of step on it reports.

use crate::known::Known;
use atomic_table::{Join, Play, Split, TableRule};
use c5_frames::LogBuffer;
use std::marker::{Brand, PhantomData};
use std::snapshot::Snapshot;

/// What a board is made of: its log, and its number of workers.
#[derive(Drop)]
pub struct Opening {
    pub log: Snapshot<LogBuffer>,
    pub workers: u32,
}

pub struct BoardRule;

impl TableRule<(), Known, Opening> for BoardRule {
    ghost use Rattle.c5_board.specs.Rule.{IsKept};
    ghost use Rattle.c5_board.specs.Views.{first_view};

    ghost holds = { λ key. IsKept key.log.value key.workers };

    ghost first = { λ key. first_view key.log.value key.workers };
}

/// The choices of a call that splits or joins: the roles that the second part of a split takes, and
/// the view that is left in the place of a joined pass.
pub trait Picks {
    ghost use Rattle.c5_board.specs.Views.{Taken};
    ghost use Rattle.c5_board.specs.declared.known.Known.{Known};

    ghost taken: { Taken };

    ghost spent: { Known };
}

impl Picks for Brand {
    ghost use Rattle.std.specs.Prelude.{[], false};
    ghost use Rattle.c5_board.specs.Views.{spent_view};

    ghost taken = { record { worker = 0; snapshot = false; scheduler = false } };

    ghost spent = { spent_view (record { bytes = []; tables = []; txns = [] }) 0 };
}

/// A split.
pub struct Cuts<J: Picks> {
    of: PhantomData<J>,
}

impl<J: Picks> Split<Known> for Cuts<J> {
    ghost use Rattle.c5_board.specs.Views.{rest_view, part_view};

    ghost left = { rest_view J.taken };

    ghost right = { part_view J.taken };
}

/// A join.
pub struct Unites<J: Picks> {
    of: PhantomData<J>,
}

impl<J: Picks> Join<Known> for Unites<J> {
    ghost use Rattle.c5_board.specs.Views.{joined_view};

    ghost both = { joined_view };

    ghost spent = { J.spent };
}

/// A load of a head.
pub struct LoadsHead;

impl Play<(), Known> for LoadsHead {
    ghost use Rattle.c5_board.specs.StepFacts.{loads_head};

    ghost then = { loads_head };
}

/// The exchange of a head.
pub struct ExchangesHead;

impl Play<(), Known> for ExchangesHead {
    ghost use Rattle.c5_board.specs.StepFacts.{exchanges_head};

    ghost then = { exchanges_head };
}

/// A store of a worker's progress.
pub struct StoresProgress;

impl Play<(), Known> for StoresProgress {
    ghost use Rattle.c5_board.specs.StepFacts.{stores_progress};

    ghost then = { stores_progress };
}

/// A load of a worker's progress.
pub struct LoadsProgress;

impl Play<(), Known> for LoadsProgress {
    ghost use Rattle.c5_board.specs.StepFacts.{loads_progress};

    ghost then = { loads_progress };
}

/// A store of the visible place.
pub struct StoresVisible;

impl Play<(), Known> for StoresVisible {
    ghost use Rattle.c5_board.specs.StepFacts.{stores_visible};

    ghost then = { stores_visible };
}

/// A load of the visible place.
pub struct LoadsVisible;

impl Play<(), Known> for LoadsVisible {
    ghost use Rattle.c5_board.specs.StepFacts.{loads_visible};

    ghost then = { loads_visible };
}

/// A store of a record.
pub struct StoresRecord;

impl Play<(), Known> for StoresRecord {
    ghost use Rattle.c5_board.specs.StepFacts.{stores_record};

    ghost then = { stores_record };
}

/// A load of a record.
pub struct LoadsRecord;

impl Play<(), Known> for LoadsRecord {
    ghost use Rattle.c5_board.specs.StepFacts.{loads_record};

    ghost then = { loads_record };
}

/// A store of the scheduled word.
pub struct StoresScheduled;

impl Play<(), Known> for StoresScheduled {
    ghost use Rattle.c5_board.specs.StepFacts.{stores_scheduled};

    ghost then = { stores_scheduled };
}

/// A load of the scheduled word.
pub struct LoadsScheduled;

impl Play<(), Known> for LoadsScheduled {
    ghost use Rattle.c5_board.specs.StepFacts.{loads_scheduled};

    ghost then = { loads_scheduled };
}

/// A store of a bucket.
pub struct StoresBucket;

impl Play<(), Known> for StoresBucket {
    ghost use Rattle.c5_board.specs.StepFacts.{stores_bucket};

    ghost then = { stores_bucket };
}

/// A load of a bucket.
pub struct LoadsBucket;

impl Play<(), Known> for LoadsBucket {
    ghost use Rattle.c5_board.specs.StepFacts.{loads_bucket};

    ghost then = { loads_bucket };
}
