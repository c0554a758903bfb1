//! The law of the board.

ghost use Rattle.c5_board.specs.Law.{BoardLaw};

/// What is true in every state that the rule allows, so between any two steps of any threads. The
/// installed numbers are those of all passes together.
///
/// - All passes are of one log and of one number of workers.
/// - Each role is held by exactly one pass. A pass's installed numbers are writes that its roles
///   own. It lists each once, and no other pass lists it.
/// - The head of a row is 0 or a number of the row, and the row's installed numbers are those up to
///   it.
/// - A worker's progress is a number that it owns, and each number below it that it owns is
///   installed.
/// - No pass is ahead of the words. The visible place's end is below every progress.
/// - What a pass has found is 0 or installed, or a record or a slot of the log.
/// - Records and buckets are those of the log, as far as they are stored. No installed number is
///   above the scheduled word.
/// - So every write up to the end of the visible place is installed, once, by the pass that holds
///   the role of its owner.
pub fn board_law()
    ensures { BoardLaw }
{}
