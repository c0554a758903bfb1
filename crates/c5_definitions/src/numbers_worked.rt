//! Numbers of writes, and slots of rows, worked by hand.

ghost use Rattle.c5_definitions.specs.WorkedNumbers.{AreNumbered, AreIndexed};

/// Rows, predecessors, ends, places and owners of two logs are those that were worked by hand.
pub fn worked_numbers()
    ensures { AreNumbered }
{}

/// The slots of rows that collide are those that were worked by hand.
pub fn worked_index()
    ensures { AreIndexed }
{}
