//! A session's part.

ghost use Rattle.std.specs.Prelude.{◌≡◌, ◌++◌, ◌∷◌, [], List, IfOk, OnOk, true};
ghost use Rattle.c5_definitions.specs.Replies.{reads_of_session};
ghost use Rattle.c5_definitions.specs.ScriptParts.{ReadParts};
ghost use Rattle.c5_reads.specs.Looks.{OnlyLooks};
ghost use Rattle.c5_replay.specs.Answered.{HasAnswered, OnlyReads, places_of};
ghost use Rattle.c5_replay.specs.Parts.{IsPassWith};

use crate::shared::Shared;
use crate::waiting::wait_for_place;
use c5_board::{Board, BoardPass};
use c5_io::{Gate, Role};
use c5_reads::ReadSession;
use c5_rows::{NoMemory, Reply};
use c5_script::ReadBlock;
use std::alloc::Global;

/// Answers the next read of a session. A pass with the snapshot role is read at its own place.
pub fn answer_next(
    alloc: Global,
    board: &Board<'_>,
    session: &mut ReadSession<'_>,
    pass: &mut BoardPass,
    replies: &mut Vec<Reply>,
    read: &ReadBlock,
) -> Result<(), NoMemory>
    requires pass { pass.old.board ≡ board.now }
    requires session { read.now.session ≡ session.old.session }
    ensures session { session.new ≡ session.old }
    ensures pass { OnOk result (IsPassWith board.now pass.old.roles pass.new) }
    ensures answered { OnOk result ((done : List ReadParts)
        → HasAnswered pass.old session.old.start done replies.old.items
        → HasAnswered pass.new session.old.start (done ++ read.now ∷ []) replies.new.items) }
    ensures own { OnOk result (pass.old.snapshot ≡ true → OnlyLooks pass.old pass.new
        × (places_of replies.new.items ≡ places_of replies.old.items ++ pass.old.place ∷ [])) }
{
    let view = session.begin(board, pass);
    let reply = session.answer(alloc, board, pass, &view, read)?;
    replies.push(reply)?;
    Ok(())
}

// Waits for a place above that of the last reply, if there is one.
fn wait_after(
    board: &Board<'_>,
    session: &mut ReadSession<'_>,
    pass: &mut BoardPass,
    replies: &[Reply],
)
    requires pass { pass.old.board ≡ board.now }
    ensures session { session.new ≡ session.old }
    ensures pass { OnlyReads pass.old pass.new }
{
    match replies.last() {
        Some(reply) => wait_for_place(board, session, pass, reply.place),
        None => {}
    }
}

/// Answers the reads of a session, in order. Passes the gate before each of them, and waits for a
/// later place between two.
pub fn answer_all<G: Gate>(
    alloc: Global,
    shared: &Shared<'_>,
    gate: &G,
    number: u32,
    pass: &mut BoardPass,
) -> Result<Vec<Reply>, NoMemory>
    requires pass { IsPassWith shared.now.board.now [] pass.old }
    ensures pass { OnOk result (IsPassWith shared.now.board.now [] pass.new) }
    ensures answered { IfOk result (λ replies. HasAnswered pass.new shared.now.start.now
        (reads_of_session shared.now.reads.now number) replies.items) }
{
    let mut session = ReadSession::new(number, shared.start);
    let mut replies = Vec::new(alloc);
    for read in shared.reads {
        if read.session() != number {
            continue;
        }
        wait_after(shared.board, &mut session, pass, &replies);
        gate.pass(Role::Session(number), replies.len() as u64 + 1);
        answer_next(alloc, shared.board, &mut session, pass, &mut replies, read)?;
    }
    Ok(replies)
}
