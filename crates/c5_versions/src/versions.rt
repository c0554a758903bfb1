//! The versions of one row.

ghost use Rattle.std.specs.Prelude.{◌≡◌, ◌<◌, ◌≤◌, ◌+◌, [], ◌∷◌, Some, length, vec_len};
ghost use Rattle.std.specs.Prelude.{vec_capacity, IfOk, OnOk, OnErr, IsOk};
ghost use Rattle.std.specs.List.{All, Contains};
ghost use Rattle.std.specs.List.Sorted.{IsPartitionPoint};

use c5_rows::{Change, NoMemory};
use std::alloc::Global;
use std::marker::Model;

/// What one transaction left of a row.
#[derive(Clone, Copy, Debug, PartialEq, Eq)]
pub struct Version {
    /// The stamp of the transaction that wrote it; 0 at the start version alone.
    pub wrote: u64,
    /// The greatest stamp that has read it; 0 if none has.
    pub read_by: u64,
    /// The row, or that it is gone.
    pub change: Change,
}

/// The versions of one row, strictly ascending by `wrote`. The first has `wrote` 0.
#[derive(Drop)]
pub struct Versions {
    versions: Vec<Version>,
}

impl Model for Versions {
    ghost use Rattle.std.specs.Prelude.{◌-◌, vec_len, vec_capacity};
    ghost use Rattle.c5_versions.specs.Versions.{VersionList, IsVersions};

    ghost Value = { VersionList };

    ghost view = { λ v. record {
      versions = v.versions.items;
      spare = vec_capacity v.versions - vec_len v.versions;
    } };

    ghost invariant = { λ v. IsVersions v.versions.items };
}

ghost use Rattle.c5_versions.specs.Versions.{AscendsByStamp, IsVersions, version_before};
ghost use Rattle.c5_versions.specs.Versions.{mark_version, put_version};

// How many of the versions are below the stamp: the first so many.
fn count_below(versions: &[Version], stamp: u64) -> usize
    requires { AscendsByStamp versions.now }
    ensures bound { result ≤ length versions.now }
    ensures place { IsPartitionPoint (λ v. v.wrote < stamp)
        (λ v. stamp ≤ v.wrote) versions.now result }
{
    match versions.last() {
        Some(last) if stamp <= last.wrote => {
            versions.partition_point(|version| version.wrote < stamp)
        }
        // Most stamps are above all versions, so the end is tried first.
        _ => versions.len(),
    }
}

// The index of the version with the greatest `wrote` below the stamp.
fn place_before(versions: &[Version], stamp: u64) -> usize
    requires proper { IsVersions versions.now }
    requires positive { 1 ≤ stamp }
    ensures bound { result < length versions.now }
    ensures place { IsPartitionPoint (λ v. v.wrote < stamp) (λ v. stamp ≤ v.wrote) versions.now
        (result + 1) }
{
    count_below(versions, stamp) - 1
}

fn find(versions: &[Version], stamp: u64) -> &Version
    requires proper { IsVersions versions.now }
    requires positive { 1 ≤ stamp }
    ensures found { version_before stamp versions.now ≡ Some result.now }
    ensures contained { Contains versions.now result.now }
    ensures below { result.now.wrote < stamp }
    ensures greatest { All (λ v. v.wrote < stamp → v.wrote ≤ result.now.wrote) versions.now }
{
    &versions[place_before(versions, stamp)]
}

fn mark(versions: &mut Vec<Version>, stamp: u64)
    requires proper { IsVersions versions.old.items }
    requires positive { 1 ≤ stamp }
    ensures items { versions.new.items ≡ mark_version stamp versions.old.items }
    ensures proper { IsVersions versions.new.items }
    ensures len { vec_len versions.new ≡ vec_len versions.old }
    ensures capacity { vec_capacity versions.new ≡ vec_capacity versions.old }
{
    let at = place_before(versions, stamp);
    let version = &mut versions[at];
    version.read_by = version.read_by.max(stamp);
}

// Puts a version in its place. There is room, so it takes no memory.
fn put(versions: &mut Vec<Version>, version: Version)
    requires proper { IsVersions versions.old.items }
    requires positive { 1 ≤ version.wrote }
    requires absent { All (λ v. ¬ (v.wrote ≡ version.wrote)) versions.old.items }
    requires room { vec_len versions.old < vec_capacity versions.old }
    ensures items { versions.new.items ≡ put_version version versions.old.items }
    ensures proper { IsVersions versions.new.items }
    ensures len { vec_len versions.new ≡ vec_len versions.old + 1 }
    ensures capacity { vec_capacity versions.old ≤ vec_capacity versions.new }
{
    let at = count_below(versions, version.wrote);
    let _ = versions.insert(at, version);
}

impl Versions {
    /// One version with `wrote` 0 and `read_by` 0: the row at the start.
    pub fn new(alloc: Global, first: Change) -> Result<Versions, NoMemory>
        ensures { IfOk result (λ v. v.versions
            ≡ record { wrote = 0; read_by = 0; change = first } ∷ []) }
    {
        let mut versions = Vec::with_capacity(alloc, 1)?;
        versions.push(Version {
            wrote: 0,
            read_by: 0,
            change: first,
        })?;
        Ok(Versions { versions })
    }

    /// The version with the greatest `wrote` below the stamp, which is at least 1.
    pub fn before(&self, stamp: u64) -> &Version
        requires { 1 ≤ stamp }
        ensures found { version_before stamp self.now.versions ≡ Some result.now }
        ensures contained { Contains self.now.versions result.now }
        ensures below { result.now.wrote < stamp }
        ensures greatest { All (λ v. v.wrote < stamp
            → v.wrote ≤ result.now.wrote) self.now.versions }
    {
        find(&self.versions, stamp)
    }

    /// Raises the `read_by` of the version before the stamp to the stamp, which is at least 1.
    /// One that is greater stays.
    pub fn mark_read(&mut self, stamp: u64)
        requires { 1 ≤ stamp }
        ensures { self.new ≡ record self.old { versions = mark_version stamp self.old.versions } }
    {
        mark(&mut self.versions, stamp)
    }

    /// Makes room for one insert. After `NoMemory` nothing has changed.
    pub fn reserve(&mut self) -> Result<(), NoMemory>
        ensures versions { self.new.versions ≡ self.old.versions }
        ensures grows { self.old.spare ≤ self.new.spare }
        ensures ok { OnOk result (1 ≤ self.new.spare) }
        ensures err { OnErr result (self.new ≡ self.old) }
        ensures succeeds { 1 ≤ self.old.spare → IsOk result }
    {
        self.versions.reserve(1)?;
        Ok(())
    }

    /// Puts a version with `read_by` 0 in its place, which takes no memory.
    /// There is room, and no version has the stamp, which is at least 1.
    pub fn insert(&mut self, stamp: u64, change: Change)
        requires room { 1 ≤ self.old.spare }
        requires positive { 1 ≤ stamp }
        requires absent { All (λ v. ¬ (v.wrote ≡ stamp)) self.old.versions }
        ensures versions { self.new.versions
            ≡ put_version
            (record { wrote = stamp; read_by = 0; change = change }) self.old.versions }
        ensures spare { self.old.spare ≤ self.new.spare + 1 }
    {
        put(
            &mut self.versions,
            Version {
                wrote: stamp,
                read_by: 0,
                change,
            },
        )
    }

    /// The versions, ascending by `wrote`.
    pub fn as_slice(&self) -> &[Version]
        ensures value { result.now ≡ self.now.versions }
        ensures proper { IsVersions self.now.versions }
    {
        &self.versions
    }
}
