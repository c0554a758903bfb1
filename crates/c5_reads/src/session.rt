//! Read sessions.

use c5_rows::Rows;
use std::marker::Model;

/// A reader's session: its number, and the rows before the log.
#[derive(Drop)]
pub struct ReadSession<'s> {
    session: u32,
    start: &'s Rows,
}

impl<'s> Model for ReadSession<'s> {
    ghost use Rattle.std.specs.Prelude.{List};
    ghost use Rattle.std.specs.FinMap as map;
    ghost use Rattle.std.specs.Coded.{codes, coded_list};
    ghost use Rattle.c5_rows.specs.Cells.{coded_cell};
    ghost use Rattle.c5_rows.specs.Order.{row_name_cmp, coded_row_name};
    ghost use Rattle.c5_reads.specs.Sessions.{SessionParts};

    ghost Value = { SessionParts };

    ghost coded = { Prim.hlevel (
      codes,
      map.code {R = row_name_cmp} coded_row_name
          (coded_list coded_cell),
    ) };

    ghost view = { λ s. record { session = s.session; start = s.start.now } };
}

ghost use Rattle.std.specs.Prelude.{◌≡◌, ◌≤◌, IfOk, OnOk, length, true};
ghost use Rattle.c5_definitions.specs.Replies.{reply_at};
ghost use Rattle.c5_reads.specs.Sessions.{began};
ghost use Rattle.c5_reads.specs.Looks.{OnlyLooks, LooksForRead};

use crate::answering::{ReadOrigin, answer_at};
use crate::view::View;
use c5_board::{Board, BoardPass};
use c5_rows::{NoMemory, Reply};
use c5_script::ReadBlock;
use std::alloc::Global;

impl<'s> ReadSession<'s> {
    /// The session of this number over a log that begins with these rows.
    pub fn new(session: u32, start: &'s Rows) -> ReadSession<'s>
        ensures { result ≡ record { session = session; start = start.now } }
    {
        ReadSession { session, start }
    }

    /// Begins to read: loads the visible place, which is at least the one that the pass knew, and
    /// that one if the pass has the snapshot role. All answers at this view are of the rows after
    /// that many transactions, however far the log is installed meanwhile.
    pub fn begin(&mut self, board: &Board<'_>, pass: &mut BoardPass) -> View
        requires pass { pass.old.board ≡ board.now }
        ensures session { self.new ≡ self.old }
        ensures pass { pass.new ≡ began pass.old result.place }
        ensures not_below { pass.old.place ≤ result.place }
        ensures within { result.place ≤ length board.now.log.txns }
        ensures own { pass.old.snapshot ≡ true → result.place ≡ pass.old.place }
    {
        View {
            place: board.load_visible(pass),
        }
    }

    /// The reply to a read block of this session, by the rows at the view's place. Only out of
    /// memory is an error. The pass knows the view's place from the `begin` that made the view, or
    /// from a later one.
    pub fn answer(
        &self,
        alloc: Global,
        board: &Board<'_>,
        pass: &mut BoardPass,
        view: &View,
        read: &ReadBlock,
    ) -> Result<Reply, NoMemory>
        requires pass { pass.old.board ≡ board.now }
        requires place { view.now.place ≤ pass.old.place }
        requires session { read.now.session ≡ self.now.session }
        ensures reply { IfOk result (λ reply. reply
            ≡ reply_at self.now.start board.now.log.txns read.now view.now.place) }
        ensures pass { OnlyLooks pass.old pass.new }
        ensures looks { OnOk result (LooksForRead pass.old pass.new read.now view.now.place) }
    {
        let place = view.place;
        let origin = ReadOrigin {
            start: self.start,
            place,
        };
        Ok(Reply {
            session: self.session,
            place: view.place,
            answer: answer_at(alloc, board, pass, &origin, read)?,
        })
    }
}
