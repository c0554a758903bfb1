//! Answers to reads, and replies with them.

ghost use Rattle.std.specs.Prelude.{◌≡◌, [], ◌∷◌, ◌++◌, OnOk, OnErr};

use crate::cells::Row;
use crate::memory::NoMemory;
use crate::writes::RowName;
use std::alloc::Global;
use std::marker::Model;

/// The answer to one line of a read block.
#[derive(Clone, Copy, Debug, PartialEq, Eq)]
pub enum AnswerLine {
    /// The row of that name.
    Found { name: RowName, row: Row },
    /// No row has the name.
    Absent { name: RowName },
    /// A sum of Int cells; 16 of them fit.
    Sum(i128),
}

/// The answer to a read block: one line for each of its lines, in order.
#[derive(Drop)]
pub struct Answer {
    lines: Vec<AnswerLine>,
}

impl Model for Answer {
    ghost use Rattle.std.specs.Prelude.{List};
    ghost use Rattle.c5_rows.specs.declared.answer.AnswerLine.{AnswerLine};

    ghost Value = { List AnswerLine };

    ghost view = { λ a. a.lines.items };
}

impl Answer {
    /// No lines.
    pub fn new(alloc: Global) -> Self
        ensures { result ≡ [] }
    {
        Answer {
            lines: Vec::new(alloc),
        }
    }

    /// Adds a line at the end. After `NoMemory` nothing has changed.
    pub fn push(&mut self, line: AnswerLine) -> Result<(), NoMemory>
        ensures ok { OnOk result (self.new ≡ self.old ++ line ∷ []) }
        ensures err { OnErr result (self.new ≡ self.old) }
    {
        self.lines.push(line)?;
        Ok(())
    }

    /// The lines, in order.
    pub fn as_slice(&self) -> &[AnswerLine]
        ensures { result.now ≡ self.now }
    {
        &self.lines
    }
}

/// The reply to a read block.
#[derive(Drop)]
pub struct Reply {
    /// The number of the session that asked.
    pub session: u32,
    /// The number of transactions after which the answer holds.
    pub place: u32,
    pub answer: Answer,
}

/// Replies, in order.
#[derive(Drop)]
pub struct Replies {
    replies: Vec<Reply>,
}

impl Model for Replies {
    ghost use Rattle.std.specs.Prelude.{List};
    ghost use Rattle.c5_rows.specs.declared.answer.Reply.{Reply};

    ghost Value = { List Reply };

    ghost view = { λ r. r.replies.items };
}

impl Replies {
    /// No replies.
    pub fn new(alloc: Global) -> Self
        ensures { result ≡ [] }
    {
        Replies {
            replies: Vec::new(alloc),
        }
    }

    /// Adds a reply at the end. After `NoMemory` nothing has changed, and the reply is dropped.
    pub fn push(&mut self, reply: Reply) -> Result<(), NoMemory>
        ensures ok { OnOk result (self.new ≡ self.old ++ reply ∷ []) }
        ensures err { OnErr result (self.new ≡ self.old) }
    {
        self.replies.push(reply)?;
        Ok(())
    }

    /// The replies, in order.
    pub fn as_slice(&self) -> &[Reply]
        ensures { result.now ≡ self.now }
    {
        &self.replies
    }
}
