//! The payload of a frame, tested where it lies: nothing is built of it and no byte is copied.

ghost use Rattle.std.specs.Prelude.{◌≡◌, if◌then◌else◌};
ghost use Rattle.c5_rows.specs.Sizes.{max_key_bytes, max_text_bytes};
ghost use Rattle.c5_rows.specs.Bytes.{is_key_byte, is_text_byte, checked_bytes};
ghost use Rattle.c5_definitions.specs.Steps.{or_cause};
ghost use Rattle.c5_definitions.specs.Frames.{key_at, int_at, text_at, cell_at, cells_at, row_at};
ghost use Rattle.c5_definitions.specs.Frames.{change_at, mark_at, end_at};

use crate::numbers::{u32_in, u64_in};
use c5_definitions::LogKind;
use c5_rows::{CellType, MAX_KEY_BYTES, MAX_TEXT_BYTES, TableDef, are_key_bytes, are_text_bytes};

/// The numbers of a commit mark.
#[derive(Clone, Copy)]
pub struct Mark {
    pub script: u32,
    pub stamp: u64,
    pub count: u32,
}

/// The name of a write: the number of its table, and the bytes of its key where they lie.
#[derive(Clone, Copy)]
pub struct NameRef<'a> {
    pub table: u8,
    pub key: &'a [u8],
}

/// What a payload that passes all tests of its own holds.
#[derive(Clone, Copy)]
pub enum Checked<'a> {
    Write(NameRef<'a>),
    Mark(Mark),
    /// The end mark, with the number of transactions.
    End(u32),
}

ghost use Rattle.c5_frames.specs.Payloads.{Passes, unread, shown_at, shown_by, numbers_of, name_of};
ghost use Rattle.c5_frames.specs.Payloads.{write_name_at};
ghost use Rattle.c5_definitions.specs.Steps.{Gives};

fn is_key(bytes: &[u8]) -> bool
    ensures { or_cause LogKind.Key (checked_bytes 1 max_key_bytes is_key_byte bytes.now)
        ≡ (if result then Ok bytes.now else Err LogKind.Key) }
{
    !bytes.is_empty() && bytes.len() <= MAX_KEY_BYTES && are_key_bytes(bytes)
}

fn is_text(bytes: &[u8]) -> bool
    ensures { or_cause LogKind.Cell (checked_bytes 0 max_text_bytes is_text_byte bytes.now)
        ≡ (if result then Ok bytes.now else Err LogKind.Cell) }
{
    bytes.len() <= MAX_TEXT_BYTES && are_text_bytes(bytes)
}

// The key, and the bytes after it.
#[tactic(auto, unfolding(c5_definitions::specs::Frames::key_at))]
fn skip_key(bytes: &[u8]) -> Result<(&[u8], &[u8]), LogKind>
    ensures { Gives (λ x. (x.0.now, x.1.now)) result (key_at bytes.now) }
{
    let Some((length, rest)) = bytes.split_first() else {
        return Err(LogKind::Key);
    };
    let length = *length as usize;
    if rest.len() < length {
        return Err(LogKind::Key);
    }
    let (key, rest) = rest.split_at(length);
    if !is_key(key) {
        return Err(LogKind::Key);
    }
    Ok((key, rest))
}

#[tactic(auto, unfolding(c5_definitions::specs::Frames::text_at))]
fn skip_text(bytes: &[u8]) -> Result<&[u8], LogKind>
    ensures { Gives (λ x. x.now) result (unread (text_at bytes.now)) }
{
    let Some((length, rest)) = bytes.split_first() else {
        return Err(LogKind::Cell);
    };
    let length = *length as usize;
    if rest.len() < length {
        return Err(LogKind::Cell);
    }
    let (text, rest) = rest.split_at(length);
    if !is_text(text) {
        return Err(LogKind::Cell);
    }
    Ok(rest)
}

#[tactic(auto, unfolding(c5_definitions::specs::Frames::int_at))]
fn skip_int(bytes: &[u8]) -> Result<&[u8], LogKind>
    ensures { Gives (λ x. x.now) result (unread (int_at bytes.now)) }
{
    if bytes.len() < 8 {
        return Err(LogKind::Cell);
    }
    Ok(&bytes[8..])
}

#[tactic(auto, unfolding(c5_definitions::specs::Frames::cell_at))]
fn skip_cell(cell_type: CellType, bytes: &[u8]) -> Result<&[u8], LogKind>
    ensures { Gives (λ x. x.now) result (unread (cell_at cell_type bytes.now)) }
{
    match cell_type {
        CellType::Int => skip_int(bytes),
        CellType::Text => skip_text(bytes),
    }
}

// The bytes after a cell for each column.
fn skip_cells<'a>(columns: &[CellType], bytes: &'a [u8]) -> Result<&'a [u8], LogKind>
    ensures { Gives (λ x. x.now) result (unread (cells_at columns.now bytes.now)) }
{
    let mut rest = bytes;
    for cell_type in columns {
        rest = match skip_cell(*cell_type, rest) {
            Ok(after) => after,
            Err(kind) => return Err(kind),
        };
    }
    Ok(rest)
}

// Whether the bytes are exactly a cell for each column.
fn check_row(columns: &[CellType], bytes: &[u8]) -> Result<(), LogKind>
    ensures { Passes result (row_at columns.now bytes.now) }
{
    match skip_cells(columns, bytes) {
        Ok([]) => Ok(()),
        Ok(_) => Err(LogKind::Cell),
        Err(kind) => Err(kind),
    }
}

#[tactic(auto, unfolding(c5_definitions::specs::Frames::change_at))]
fn check_change(columns: &[CellType], bytes: &[u8]) -> Result<(), LogKind>
    ensures { Passes result (change_at columns.now bytes.now) }
{
    match bytes {
        [] => Err(LogKind::Cell),
        [0, rest @ ..] => check_row(columns, rest),
        [1] => Ok(()),
        [_, ..] => Err(LogKind::Cell),
    }
}

// What follows the byte `W`.
#[tactic(auto, unfolding(c5_definitions::specs::Frames::write_at, c5_definitions::specs::Frames::table_numbered))]
fn check_write<'a>(tables: &[TableDef], bytes: &'a [u8]) -> Result<NameRef<'a>, LogKind>
    ensures { Gives name_of result (write_name_at tables.now bytes.now) }
{
    let Some((number, rest)) = bytes.split_first() else {
        return Err(LogKind::Table);
    };
    let Some(table) = tables.get(*number as usize) else {
        return Err(LogKind::Table);
    };
    let (key, rest) = match skip_key(rest) {
        Ok(found) => found,
        Err(kind) => return Err(kind),
    };
    match check_change(table.columns.types(), rest) {
        Ok(()) => Ok(NameRef {
            table: *number,
            key,
        }),
        Err(kind) => Err(kind),
    }
}

// What follows the byte `C`.
#[tactic(auto, unfolding(c5_definitions::specs::Frames::mark_at))]
fn mark_in(bytes: &[u8]) -> Result<Mark, LogKind>
    ensures { Gives numbers_of result (mark_at bytes.now) }
{
    if bytes.len() != 16 {
        return Err(LogKind::Length);
    }
    Ok(Mark {
        script: u32_in(bytes),
        stamp: u64_in(&bytes[4..]),
        count: u32_in(&bytes[12..]),
    })
}

// What follows the byte `E`.
#[tactic(auto, unfolding(c5_definitions::specs::Frames::end_at))]
fn end_in(bytes: &[u8]) -> Result<u32, LogKind>
    ensures { result ≡ end_at bytes.now }
{
    if bytes.len() != 4 {
        return Err(LogKind::Length);
    }
    Ok(u32_in(bytes))
}

/// The name of the write that the payload holds, or the numbers of its mark; else the kind of the
/// first of its own tests that it fails.
#[tactic(auto, unfolding(c5_definitions::specs::Frames::frame_at))]
pub fn check_payload<'a>(tables: &[TableDef], payload: &'a [u8]) -> Result<Checked<'a>, LogKind>
    ensures { Gives shown_by result (shown_at tables.now payload.now) }
{
    match payload {
        [b'W', rest @ ..] => match check_write(tables, rest) {
            Ok(name) => Ok(Checked::Write(name)),
            Err(kind) => Err(kind),
        },
        [b'C', rest @ ..] => match mark_in(rest) {
            Ok(mark) => Ok(Checked::Mark(mark)),
            Err(kind) => Err(kind),
        },
        [b'E', rest @ ..] => match end_in(rest) {
            Ok(count) => Ok(Checked::End(count)),
            Err(kind) => Err(kind),
        },
        _ => Err(LogKind::Kind),
    }
}
