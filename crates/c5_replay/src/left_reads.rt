//! The reads that are left after a schedule.

ghost use Rattle.std.specs.Prelude.{◌≡◌, ◌≤◌, ◌++◌, ◌-◌, IfOk, OnOk, true};
ghost use Rattle.c5_rows.specs.Sizes.{max_sessions};
ghost use Rattle.c5_definitions.specs.Turns.{with_left_taken};
ghost use Rattle.c5_reads.specs.Looks.{OnlyLooks};
ghost use Rattle.c5_replay.specs.Answered.{places_of};
ghost use Rattle.c5_replay.specs.Joins.{HaveReplied};
ghost use Rattle.c5_replay.specs.TurnStates.{AreSessions, HasTaken, left_places, taken_by};

use crate::joining::append;
use crate::session_turns::{SessionTurns, take_left};
use crate::shared::Shared;
use c5_board::BoardPass;
use c5_rows::{NoMemory, Replies};
use std::alloc::Global;

// Takes the reads of the next session that are left, and adds its replies.
fn add_left(
    alloc: Global,
    shared: &Shared<'_>,
    pass: &mut BoardPass,
    replies: &mut Replies,
    mut session: SessionTurns,
) -> Result<(), NoMemory>
    requires pass { pass.old.board ≡ shared.now.board.now }
    requires role { pass.old.snapshot ≡ true }
    requires some { 1 ≤ session.session }
    requires taken { HasTaken pass.old shared.now.start.now shared.now.reads.now session }
    requires replied { HaveReplied pass.old shared.now.start.now shared.now.reads.now
        (session.session - 1) replies.old }
    ensures replied { OnOk result (HaveReplied pass.new shared.now.start.now
        shared.now.reads.now session.session replies.new) }
    ensures places { OnOk result (places_of replies.new ≡ places_of replies.old
        ++ with_left_taken shared.now.reads.now pass.old.place session.session
        (taken_by session)) }
    ensures pass { OnOk result (OnlyLooks pass.old pass.new) }
{
    take_left(alloc, shared, pass, &mut session)?;
    append(replies, session.replies)?;
    Ok(())
}

/// Takes the reads of all sessions that are left at the visible place. The replies are by ascending
/// session.
pub fn take_all_left(
    alloc: Global,
    shared: &Shared<'_>,
    pass: &mut BoardPass,
    sessions: Vec<SessionTurns>,
) -> Result<Replies, NoMemory>
    requires pass { pass.old.board ≡ shared.now.board.now }
    requires role { pass.old.snapshot ≡ true }
    requires sessions { AreSessions pass.old shared.now.start.now shared.now.reads.now 0
        sessions.items }
    ensures replied { IfOk result (HaveReplied pass.new shared.now.start.now
        shared.now.reads.now max_sessions) }
    ensures places { IfOk result (λ replies. places_of replies
        ≡ left_places shared.now.reads.now pass.old.place 1 sessions.items) }
    ensures pass { OnOk result (OnlyLooks pass.old pass.new) }
{
    let mut replies = Replies::new(alloc);
    for session in sessions {
        add_left(alloc, shared, pass, &mut replies, session)?;
    }
    Ok(replies)
}
