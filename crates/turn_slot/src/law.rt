//! The law of the slot.

ghost use Rattle.turn_slot.specs.declared.known.Origin.{Origin};
ghost use Rattle.turn_slot.specs.Law.{TurnLaw};

use crate::kept::Kept;

/// What holds in every state that the rule allows. The log is the history of the value when it was
/// last in the slot.
///
/// - The count word is the length of the log, or `u64::MAX` if that is longer.
/// - If the holder word is 0, the value is in the slot, with the log for its history.
/// - If it is n, exactly one pass has the turn, and its number is n. The value is in the slot,
///   but while it is out with the turn.
/// - Each number from 1 on is united by exactly one pass.
/// - What a pass has seen is a prefix of the log, and the log's entries of its numbers are those
///   that it has seen.
/// - The holder words that its tries found are numbers of passes, or 0.
pub fn turn_law<V: Kept>()
    ensures { (origin : Origin V.Base) → TurnLaw V.base V.history V.caller origin }
{}
