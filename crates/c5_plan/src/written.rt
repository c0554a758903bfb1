//! The rows that a log writes.

ghost use Rattle.std.specs.Prelude.{◌≡◌, ◌<◌, ◌↔◌, IfOk, IfSome, IsNone, MatchOption};
ghost use Rattle.c5_definitions.specs.WriteNumbers.{names_in};
ghost use Rattle.c5_definitions.specs.WriteNumbers.{row_count};
ghost use Rattle.c5_plan.specs.Written.{AreWrittenRows};

use c5_frames::LogBuffer;
use c5_rows::{NoMemory, RowName};
use indexmap::IndexMap;
use std::alloc::Global;

/// A row that a log writes.
#[derive(Clone, Copy, PartialEq, Eq, PartialOrd, Ord)]
pub struct WrittenRow {
    pub name: RowName,
    /// The number of its last write, which counts from 1.
    pub last: u32,
}

// The name of a row, whose key is in the bytes of a log.
#[derive(Clone, Copy, PartialEq, Eq, Hash)]
struct NameRef<'a> {
    table: u8,
    key: &'a [u8],
}

ghost use Rattle.c5_plan.specs.Noted.{Notes, NotesUpTo, ListsNotes};

// The number of the last write of each row that the log writes, by the row's name; `None` if there
// are more than `most` rows.
fn noted<'a>(
    alloc: Global,
    log: &'a LogBuffer,
    most: u32,
) -> Result<Option<IndexMap<NameRef<'a>, u32>>, NoMemory>
    ensures { IfOk result
        (λ found. MatchOption found (most < row_count (names_in log.now.txns))
        (λ rows. NotesUpTo most rows.entries (names_in log.now.txns))) }
{
    let mut rows = IndexMap::new(alloc);
    for before in 0..log.writes() {
        let write = log.write(before + 1);
        let name = NameRef {
            table: write.table(),
            key: write.key(),
        };
        rows.insert(name, before + 1)?;
        if rows.len() > most as usize {
            return Ok(None);
        }
    }
    Ok(Some(rows))
}

/// The number of different rows that the log writes, rows that become absent among them.
pub fn count_rows(alloc: Global, log: &LogBuffer) -> Result<u32, NoMemory>
    ensures { IfOk result (λ count. count ≡ row_count (names_in log.now.txns)) }
{
    match noted(alloc, log, log.writes()) {
        Ok(Some(rows)) => Ok(rows.len() as u32),
        // There are no more rows than writes.
        Ok(None) => unreachable!(),
        Err(error) => Err(error),
    }
}

// The rows that are noted, in that order.
fn listed<'a>(
    alloc: Global,
    log: &LogBuffer,
    noted: &IndexMap<NameRef<'a>, u32>,
) -> Result<Vec<WrittenRow>, NoMemory>
    requires { Notes noted.now.entries (names_in log.now.txns) }
    ensures { IfOk result (λ rows. ListsNotes rows.items (names_in log.now.txns)) }
{
    let mut rows = Vec::with_capacity(alloc, noted.len())?;
    let lasts = noted.values().as_slice();
    for last in lasts {
        rows.push(WrittenRow {
            name: log.write(*last).name(),
            last: *last,
        })?;
    }
    Ok(rows)
}

/// The rows that the log writes, ascending by name; `None` if and only if there are more than
/// `most`.
pub fn written_rows(
    alloc: Global,
    log: &LogBuffer,
    most: u32,
) -> Result<Option<Vec<WrittenRow>>, NoMemory>
    ensures too_many { IfOk result
        (λ found. IsNone found ↔ (most < row_count (names_in log.now.txns))) }
    ensures rows { IfOk result
        (λ found. IfSome found (λ rows. AreWrittenRows rows.items (names_in log.now.txns))) }
{
    let Some(noted) = noted(alloc, log, most)? else {
        return Ok(None);
    };
    let mut rows = listed(alloc, log, &noted)?;
    rows.sort_unstable();
    Ok(Some(rows))
}
