//! The law of logs: a list of bytes has no fault if and only if it is a log, and it is the log of
//! one list of tables and transactions.

ghost use Rattle.c5_frames.specs.Laws.{FaultlessAreLogs, LogsAreRead, LogsAreUnique};
ghost use Rattle.c5_frames.specs.Laws.{LogsAreNoPrefixes, FaultsStay, FaultsAreFinal};
ghost use Rattle.c5_frames.specs.Laws.{PrefixesAreCut, NothingFollowsLogs, FaultsAreWithin};

/// Bytes have no fault if and only if they spell some tables and transactions. Those are then what
/// is read of the bytes, and no others have that spelling. No log is a proper prefix of another. A
/// fault that is found before the input ends stays, whatever bytes follow. A proper prefix of a log
/// is cut, at the first item that isn't whole in it; bytes after a log are the fault `After`, at
/// the log's length. The offset of a fault is at most the number of bytes.
pub fn one_log()
    ensures no_fault { FaultlessAreLogs }
    ensures read { LogsAreRead }
    ensures one { LogsAreUnique }
    ensures no_prefix { LogsAreNoPrefixes }
    ensures stays { FaultsStay }
    ensures for_good { FaultsAreFinal }
    ensures cut { PrefixesAreCut }
    ensures after { NothingFollowsLogs }
    ensures within { FaultsAreWithin }
{}
