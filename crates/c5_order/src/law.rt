//! The laws of histories that timestamp ordering allows.

ghost use Rattle.std.specs.Prelude.{◌≡◌, List};
ghost use Rattle.c5_definitions.specs.declared.history.Entry.{Entry};
ghost use Rattle.c5_definitions.specs.declared.history.OrderBase.{OrderBase};
ghost use Rattle.c5_definitions.specs.OrderLog.{IsOrderHistory, IsStampOrderRun, committed};
ghost use Rattle.c5_order.specs.Transactions.{BeginsUnread, ReadAdds, OthersKeep, EndsOne};
ghost use Rattle.c5_order.specs.Transactions.{LastIsFree, CommitCounts, CommitsStay};

use c5_eval::evaluation_law;

/// The committed transactions of a history, in the order of their stamps, are a run of their bodies
/// one after the other from the rows at the start, and none of the bodies comes twice.
pub fn order_law()
    ensures { (base : OrderBase) (history : List Entry) → IsOrderHistory base history
        → IsStampOrderRun base (committed history) }
{
    evaluation_law();
}

/// What more entries leave of the transactions of a history that timestamp ordering allows.
///
/// - A transaction that begins is open and has read nothing; a read adds its answer.
/// - Entries of other callers leave a transaction open, and its answers as they were.
/// - A commit or a cancel ends its own transaction alone.
/// - The greatest stamp has no conflict.
/// - A body whose transaction commits is committed, and stays so.
pub fn transaction_law()
    ensures begins { BeginsUnread }
    ensures reads { ReadAdds }
    ensures others { OthersKeep }
    ensures ends { EndsOne }
    ensures last { LastIsFree }
    ensures commit { CommitCounts }
    ensures stay { CommitsStay }
{}
