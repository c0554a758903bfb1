//! The lines of a reply.

ghost use Rattle.std.specs.Prelude.{◌≡◌, ◌≤◌, ◌∷◌, [], ◌++◌, Some, OnOk, IfOk, IfSome};
ghost use Rattle.c5_definitions.specs.Outputs.{head_line, answer_line, reply_text};
ghost use Rattle.c5_text.specs.Readers.{IsHead};
ghost use Rattle.c5_text.specs.declared.replies.ReplyHead.{ReplyHead};

use crate::lines::{push_row, push_row_name};
use crate::words::{number_after, push_number};
use c5_rows::{AnswerLine, NoMemory, Reply, Schema, TableDef};
use itoa::Buffer;
use std::alloc::Global;

/// The head of a reply.
#[derive(Clone, Copy, PartialEq, Eq)]
pub struct ReplyHead {
    /// The number of the session that asked.
    pub session: u32,
    /// The number of transactions after which the answer holds.
    pub place: u32,
    /// The number of transactions that come after these.
    pub lag: u32,
}

// Appends the head and a line end.
fn push_head(out: &mut Vec<u8>, head: &ReplyHead) -> Result<(), NoMemory>
    ensures { OnOk result (out.new.items ≡ out.old.items
        ++ (head_line head.now.session head.now.place head.now.lag ++ 10 ∷ [])) }
{
    out.extend_from_slice(b"read")?;
    push_number(out, head.session)?;
    out.extend_from_slice(b" place")?;
    push_number(out, head.place)?;
    out.extend_from_slice(b" lag")?;
    push_number(out, head.lag)?;
    out.push(b'\n')?;
    Ok(())
}

// Appends the line of an answer, without a line end.
fn push_answer(out: &mut Vec<u8>, tables: &[TableDef], answer: &AnswerLine) -> Result<(), NoMemory>
    ensures { OnOk result (out.new.items ≡ out.old.items ++ answer_line tables.now answer.now) }
{
    match answer {
        AnswerLine::Found { name, row } => push_row(out, tables, name, row)?,
        AnswerLine::Absent { name } => {
            push_row_name(out, tables, name)?;
            out.extend_from_slice(b" -")?;
        }
        AnswerLine::Sum(sum) => {
            out.extend_from_slice(b"sum ")?;
            out.extend_from_slice(Buffer::new().format(*sum).as_bytes())?;
        }
    }
    Ok(())
}

/// The text of a reply when there are `total` transactions: its head and a line for each of its
/// answers.
///
/// The head's lag is the number of transactions after the reply's place.
pub fn reply_text(
    alloc: Global,
    schema: &Schema,
    reply: &Reply,
    total: u32,
) -> Result<Vec<u8>, NoMemory>
    requires { reply.now.place ≤ total }
    ensures { IfOk result (λ text. text.items ≡ reply_text schema.now total reply.now) }
{
    let head = ReplyHead {
        session: reply.session,
        place: reply.place,
        lag: total - reply.place,
    };
    let tables = schema.tables();
    let mut text = Vec::new(alloc);
    push_head(&mut text, &head)?;
    let answer = reply.answer.as_slice();
    for line in answer {
        push_answer(&mut text, tables, line)?;
        text.push(b'\n')?;
    }
    Ok(text)
}

/// Reads the head of a reply, without its line end.
///
/// `None` if and only if the line isn't a head with numbers of 32 bits. A place and a lag that are
/// more than `u32::MAX` together are read too.
pub fn read_head(line: &[u8]) -> Option<ReplyHead>
    ensures found { IfSome result (λ head. line.now ≡ head_line head.session head.place head.lag) }
    ensures only { (head : ReplyHead) → IsHead line.now head → result ≡ Some head }
{
    let Some((session, rest)) = number_after(b"read", line) else {
        return None;
    };
    let Some((place, rest)) = number_after(b" place", rest) else {
        return None;
    };
    let Some((lag, rest)) = number_after(b" lag", rest) else {
        return None;
    };
    if !rest.is_empty() {
        return None;
    }
    Some(ReplyHead {
        session,
        place,
        lag,
    })
}
