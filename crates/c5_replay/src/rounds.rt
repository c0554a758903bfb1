//! A law of the closing rounds of a schedule.

ghost use Rattle.c5_replay.specs.TurnReplays.{RoundsSuffice};

/// After any words of a schedule, one closing round more than the log has writes is enough to
/// install each write.
pub fn rounds_law()
    ensures { RoundsSuffice }
{}
