//! The counts of a log, of the rows after it and of replies, and their text.

ghost use Rattle.std.specs.Prelude.{◌≡◌, ◌≤◌, ◌≤ℤ◌, ◌++◌, pos, neg_ℤ, length, Some, IfOk, OnOk};
ghost use Rattle.std.specs.List.{AllByRecursion, count_by};
ghost use Rattle.c5_rows.specs.Sizes.{max_rows};
ghost use Rattle.c5_rows.specs.State.{rows_of};
ghost use Rattle.c5_definitions.specs.Answers.{or_zero};
ghost use Rattle.c5_definitions.specs.Effects.{int_of_cell};
ghost use Rattle.c5_definitions.specs.Summaries.{count_words, is_declined, is_whole};
ghost use Rattle.c5_definitions.specs.Summaries.{reply_total, row_total, rows_total};
ghost use Rattle.c5_definitions.specs.Summaries.{summary_of, summary_text};
ghost use Rattle.c5_gen.specs.Laws.{HasParts};
ghost use Rattle.c5_driver.specs.Figures.{max_row_total, summary_in};

use c5_frames::LogBuffer;
use c5_rows::{AnswerLine, Cell, NoMemory, Reply, Row, RowEntry, Rows};
use itoa::Buffer;
use std::alloc::Global;

/// What all accounts have together once they are opened.
const ALL_MONEY: i128 = 64_000;

/// What is counted of a log, of the rows after it, and of replies.
#[derive(Clone, Copy)]
pub struct Figures {
    /// Transactions of the log.
    pub transactions: u64,
    /// Transactions of the log that have no writes.
    pub declined: u64,
    /// Writes of the log.
    pub writes: u64,
    /// Bytes of the log.
    pub bytes: u64,
    /// Rows.
    pub rows: u64,
    /// The sum of all Int cells of the rows.
    pub total: i128,
    /// Replies.
    pub replied: u64,
    /// Replies whose sums add to 0 or to 64,000.
    pub whole: u64,
}

// The number of transactions without writes.
fn declined_in(log: &LogBuffer) -> u32
    ensures { result ≡ count_by is_declined log.now.txns }
{
    let mut declined = 0;
    for p in 0..log.transactions() {
        if log.txn(p).count == 0 {
            declined += 1;
        }
    }
    declined
}

// The number of an Int cell; a text counts 0.
fn number_in(cell: &Cell) -> i64
    ensures { result ≡ or_zero (int_of_cell (Some cell.now)) }
{
    match cell {
        Cell::Int(number) => *number,
        Cell::Txt(_) => 0,
    }
}

// The sum of the Int cells of a row.
fn row_sum(row: &Row) -> i128
    ensures value { result ≡ row_total row.now }
    ensures low { neg_ℤ (pos max_row_total) ≤ℤ result }
    ensures high { result ≤ℤ pos max_row_total }
{
    let mut sum: i128 = 0;
    for cell in row.cells() {
        sum += number_in(cell) as i128;
    }
    sum
}

// The sum of the Int cells of rows.
fn rows_sum(entries: &[RowEntry]) -> i128
    requires { length entries.now ≤ max_rows }
    ensures { result ≡ rows_total entries.now }
{
    let mut sum: i128 = 0;
    for entry in entries {
        sum += row_sum(&entry.row);
    }
    sum
}

// The sum of the sums of a reply.
fn reply_sum(reply: &Reply) -> i128
    requires { HasParts reply.now }
    ensures { result ≡ reply_total reply.now.answer }
{
    let mut sum: i128 = 0;
    for line in reply.answer.as_slice() {
        match line {
            AnswerLine::Sum(part) => sum += *part,
            AnswerLine::Found { .. } => {}
            AnswerLine::Absent { .. } => {}
        }
    }
    sum
}

// Whether the sums of a reply add to 0 or to all money.
fn is_whole(reply: &Reply) -> bool
    requires { HasParts reply.now }
    ensures { result ≡ is_whole reply.now }
{
    let sum = reply_sum(reply);
    sum == 0 || sum == ALL_MONEY
}

// The number of replies whose sums add to 0 or to all money.
fn whole_in(replies: &[Reply]) -> usize
    requires { AllByRecursion HasParts replies.now }
    ensures { result ≡ count_by is_whole replies.now }
{
    let mut whole = 0;
    for reply in replies {
        if is_whole(reply) {
            whole += 1;
        }
    }
    whole
}

/// Counts a log, the rows after it, at most 65,536, and replies of four sums each. Only out of
/// memory is an error.
pub fn figures_of(
    alloc: Global,
    log: &LogBuffer,
    rows: &Rows,
    replies: &[Reply],
) -> Result<Figures, NoMemory>
    requires rows { length (rows_of rows.now) ≤ max_rows }
    requires replies { AllByRecursion HasParts replies.now }
    ensures { IfOk result (λ figures. summary_in figures
        ≡ summary_of log.now.tables log.now.txns (rows_of rows.now) replies.now) }
{
    let entries = rows.list(alloc)?;
    Ok(Figures {
        transactions: log.transactions() as u64,
        declined: declined_in(log) as u64,
        writes: log.writes() as u64,
        bytes: log.bytes().len() as u64,
        rows: entries.len() as u64,
        total: rows_sum(&entries),
        replied: replies.len() as u64,
        whole: whole_in(replies) as u64,
    })
}

// Appends words, a space and a number.
fn push_count(out: &mut Vec<u8>, word: &[u8], number: u64) -> Result<(), NoMemory>
    ensures { OnOk result (out.new.items ≡ out.old.items ++ count_words word.now number) }
{
    out.extend_from_slice(word)?;
    out.push(b' ')?;
    out.extend_from_slice(Buffer::new().format(number).as_bytes())?;
    Ok(())
}

/// The seven lines of the counts.
#[tactic(auto, unfolding(c5_definitions::specs::Summaries::summary_text))]
pub fn figures_text(alloc: Global, figures: &Figures) -> Result<Vec<u8>, NoMemory>
    ensures { IfOk result (λ text. text.items ≡ summary_text (summary_in figures.now)) }
{
    let mut text = Vec::new(alloc);
    push_count(&mut text, b"transactions", figures.transactions)?;
    push_count(&mut text, b"\ndeclined", figures.declined)?;
    push_count(&mut text, b"\nwrites", figures.writes)?;
    push_count(&mut text, b"\nbytes", figures.bytes)?;
    push_count(&mut text, b"\nrows", figures.rows)?;
    text.extend_from_slice(b"\ntotal ")?;
    text.extend_from_slice(Buffer::new().format(figures.total).as_bytes())?;
    push_count(&mut text, b"\nreads", figures.replied)?;
    push_count(&mut text, b" whole", figures.whole)?;
    text.push(b'\n')?;
    Ok(text)
}
