//! The sessions of a replay by a schedule.

ghost use Rattle.std.specs.Prelude.{◌≡◌, ◌<◌, IfOk, IfSome, OnOk, length, nat_lt, true};
ghost use Rattle.c5_reads.specs.Looks.{OnlyLooks};
ghost use Rattle.c5_definitions.specs.Replies.{reads_of_session};
ghost use Rattle.c5_definitions.specs.Turns.{with_left_taken, with_one_taken};
ghost use Rattle.c5_replay.specs.Answered.{HasAnswered, places_of};
ghost use Rattle.c5_replay.specs.TurnStates.{HasTaken, IsNextBlock, taken_by};

use crate::answering::answer_next;
use crate::shared::Shared;
use c5_board::BoardPass;
use c5_reads::ReadSession;
use c5_rows::{NoMemory, Reply};
use c5_script::ReadBlock;
use std::alloc::Global;

/// A session of a schedule.
#[derive(Drop)]
pub struct SessionTurns {
    /// Its number.
    pub session: u32,
    /// How many of all blocks it has looked at, from the first one on: those of its own among them
    /// are answered.
    pub looked: usize,
    /// Its replies so far.
    pub replies: Vec<Reply>,
}

// The place of the session's first block from a place on.
fn next_block(reads: &[ReadBlock], session: u32, from: usize) -> Option<usize>
    ensures next { IsNextBlock reads.now session from result }
    ensures within { IfSome result (λ at. at < length reads.now) }
{
    for at in from..reads.len() {
        if reads[at].session() == session {
            return Some(at);
        }
    }
    None
}

/// Takes the session's next read at the visible place, if one is left. Returns whether one was.
pub fn take_next(
    alloc: Global,
    shared: &Shared<'_>,
    pass: &mut BoardPass,
    session: &mut SessionTurns,
) -> Result<bool, NoMemory>
    requires pass { pass.old.board ≡ shared.now.board.now }
    requires role { pass.old.snapshot ≡ true }
    requires taken { HasTaken pass.old shared.now.start.now shared.now.reads.now session.old }
    ensures session { session.new.session ≡ session.old.session }
    ensures taken { OnOk result
        (HasTaken pass.new shared.now.start.now shared.now.reads.now session.new) }
    ensures left { IfOk result (λ took. took ≡ nat_lt (length (taken_by session.old))
        (length (reads_of_session shared.now.reads.now session.old.session))) }
    ensures places { OnOk result (taken_by session.new
        ≡ with_one_taken (length (reads_of_session shared.now.reads.now session.old.session))
        pass.old.place (taken_by session.old)) }
    ensures pass { OnOk result (OnlyLooks pass.old pass.new) }
{
    let Some(at) = next_block(shared.reads, session.session, session.looked) else {
        return Ok(false);
    };
    let mut reading = ReadSession::new(session.session, shared.start);
    answer_next(
        alloc,
        shared.board,
        &mut reading,
        pass,
        &mut session.replies,
        &shared.reads[at],
    )?;
    session.looked = at + 1;
    Ok(true)
}

/// Takes the reads of the session that are left at the visible place.
pub fn take_left(
    alloc: Global,
    shared: &Shared<'_>,
    pass: &mut BoardPass,
    session: &mut SessionTurns,
) -> Result<(), NoMemory>
    requires pass { pass.old.board ≡ shared.now.board.now }
    requires role { pass.old.snapshot ≡ true }
    requires taken { HasTaken pass.old shared.now.start.now shared.now.reads.now session.old }
    ensures session { session.new.session ≡ session.old.session }
    ensures answered { OnOk result (HasAnswered pass.new shared.now.start.now
        (reads_of_session shared.now.reads.now session.old.session) session.new.replies.items) }
    ensures places { OnOk result (taken_by session.new ≡ with_left_taken shared.now.reads.now
        pass.old.place session.old.session (taken_by session.old)) }
    ensures pass { OnOk result (OnlyLooks pass.old pass.new) }
{
    loop {
        let took = take_next(alloc, shared, pass, session)?;
        if !took {
            return Ok(());
        }
    }
}
