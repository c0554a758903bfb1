//! Schedules worked by hand.

ghost use Rattle.c5_definitions.specs.WorkedTurns.{AreScheduled};

/// The places and the counts of seven schedules are those that were worked by hand.
pub fn worked_turns()
    ensures { AreScheduled }
{}
