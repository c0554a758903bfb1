//! The law of all serial runs.

ghost use Rattle.std.specs.FinMap.{empty};
ghost use Rattle.std.specs.Prelude.{List};
ghost use Rattle.c5_rows.specs.declared.tables.TableDef.{TableDef};
ghost use Rattle.c5_definitions.specs.FitsState.{StateFits};
ghost use Rattle.c5_primary.specs.Serial.{EveryRunIsWithin};

/// Every serial run of a script within its limits is a lawful log. It has one transaction for each
/// body, at most as many writes and rows as the script's statements count, and at most 81,068,462
/// bytes. The run may begin with any rows that fit the script's tables; no rows do.
pub fn serial_run_law()
    ensures runs { EveryRunIsWithin }
    ensures no_rows { (tables : List TableDef) → StateFits tables empty }
{}
