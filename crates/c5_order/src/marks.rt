//! The versions of all rows: who wrote each, and its greatest reader.

ghost use Rattle.std.specs.Prelude.{◌≡◌, ◌<◌, ◌≤◌, ℕ, None, OnOk, OnErr, MatchOption};
ghost use Rattle.std.specs.BTreeMap.{IsOrdered};
ghost use Rattle.std.specs.List.{All};
ghost use Rattle.c5_rows.specs.declared.writes.RowName.{RowName as Name};
ghost use Rattle.c5_order.specs.declared.marks.VersionKey.{VersionKey as Key};
ghost use Rattle.c5_order.specs.Marks.{version_key_cmp, version_key, noted_mark, IsMarkFoundBefore};
ghost use Rattle.c5_order.specs.Marks.{marked, mark_after_install, removed, IsUnread, IsFirstRead};

use c5_rows::{NoMemory, RowName, Write};
use std::collections::BTreeMap;

/// A version of a row: the row, and the stamp of the commit that wrote it. The start version has
/// the stamp 0.
#[derive(Clone, Copy, PartialEq, Eq, PartialOrd, Ord)]
pub struct VersionKey {
    pub name: RowName,
    pub wrote: u64,
}

/// A version that was found.
#[derive(Clone, Copy)]
pub struct Found {
    /// The stamp that wrote it; 0 for the start version.
    pub wrote: u64,
    /// The greatest stamp that has read it; 0 if none has.
    pub read_by: u64,
}

/// The version of the row that a stamp sees: the one with the greatest stamp below it.
pub fn find(versions: &BTreeMap<VersionKey, u64>, name: &RowName, stamp: u64) -> Found
    requires { 1 ≤ stamp }
    ensures { IsMarkFoundBefore versions.now name.now stamp result }
{
    let low = VersionKey {
        name: *name,
        wrote: 0,
    };
    let high = VersionKey {
        name: *name,
        wrote: stamp,
    };
    match versions.range(low..high).next_back() {
        Some((key, read_by)) => Found {
            wrote: key.wrote,
            read_by: *read_by,
        },
        None => Found {
            wrote: 0,
            read_by: 0,
        },
    }
}

/// Notes that a stamp has read a version. A greater reader stays. After `NoMemory` nothing has
/// changed; a version that has an entry needs no memory.
pub fn mark(
    versions: &mut BTreeMap<VersionKey, u64>,
    key: VersionKey,
    stamp: u64,
) -> Result<(), NoMemory>
    ensures ok { OnOk result ((q : Key) → noted_mark versions.new q
        ≡ marked key stamp q (noted_mark versions.old q)) }
    ensures err { OnErr result ((q : Key) → noted_mark versions.new q ≡ noted_mark versions.old q) }
    ensures ordered { IsOrdered version_key_cmp versions.new }
{
    match versions.get_mut(&key) {
        Some(read_by) => *read_by = (*read_by).max(stamp),
        None => {
            versions.insert(key, stamp)?;
        }
    }
    Ok(())
}

// Takes the versions of these writes out again.
fn remove(versions: &mut BTreeMap<VersionKey, u64>, writes: &[Write], stamp: u64)
    ensures removed { (q : Key) → noted_mark versions.new q
        ≡ removed stamp writes.now q (noted_mark versions.old q) }
    ensures ordered { IsOrdered version_key_cmp versions.new }
{
    for done in 0..writes.len() {
        let write = &writes[writes.len() - 1 - done];
        versions.remove(&VersionKey {
            name: write.name,
            wrote: stamp,
        });
    }
    versions.len();
}

/// Adds the versions that a stamp writes, of which none has an entry yet. After `NoMemory` nothing
/// has changed.
pub fn install(
    versions: &mut BTreeMap<VersionKey, u64>,
    writes: &[Write],
    stamp: u64,
) -> Result<(), NoMemory>
    requires { (name : Name) → noted_mark versions.old (version_key name stamp) ≡ None }
    ensures ok { OnOk result ((q : Key) → noted_mark versions.new q
        ≡ mark_after_install stamp writes.now q (noted_mark versions.old q)) }
    ensures err { OnErr result ((q : Key) → noted_mark versions.new q ≡ noted_mark versions.old q) }
    ensures ordered { IsOrdered version_key_cmp versions.new }
{
    for done in 0..writes.len() {
        let write = &writes[writes.len() - 1 - done];
        let key = VersionKey {
            name: write.name,
            wrote: stamp,
        };
        match versions.insert(key, 0) {
            Ok(_) => {}
            Err(_) => {
                remove(versions, &writes[writes.len() - done..], stamp);
                return Err(NoMemory);
            }
        }
    }
    versions.len();
    Ok(())
}

/// A later stamp has read the version of a row that an earlier stamp sees.
#[derive(Clone, Copy)]
pub struct LaterReader {
    pub row: RowName,
    /// The greatest stamp that has read it.
    pub reader: u64,
}

/// The first of these writes whose version before the stamp was read by a later one.
pub fn find_reader(
    versions: &BTreeMap<VersionKey, u64>,
    writes: &[Write],
    stamp: u64,
) -> Option<LaterReader>
    requires { 1 ≤ stamp }
    ensures { MatchOption result (All (IsUnread versions.now stamp) writes.now)
        (IsFirstRead versions.now stamp writes.now) }
{
    for write in writes {
        let found = find(versions, &write.name, stamp);
        if stamp < found.read_by {
            return Some(LaterReader {
                row: write.name,
                reader: found.read_by,
            });
        }
    }
    None
}
