use super::*;
use c5_rows::{Cell, Change, Row};
use std::test::Fail;

fn put(n: i64) -> Result<Change, Fail> {
    Ok(Change::Put(Row::new(&[Cell::Int(n)]).ok_or("one cell")?))
}

#[test]
fn a_stamp_finds_the_version_below_it(rt: HostRuntime) -> Result<(), Fail> {
    let mut versions = Versions::new(rt.alloc(), Change::Gone)?;
    versions.mark_read(5);
    versions.reserve()?;
    versions.insert(7, put(7)?);
    let start = Version {
        wrote: 0,
        read_by: 5,
        change: Change::Gone,
    };
    assert_eq!(rt; versions.before(7), &start);
    let seventh = Version {
        wrote: 7,
        read_by: 0,
        change: put(7)?,
    };
    assert_eq!(rt; versions.before(8), &seventh);
    assert_eq!(rt; versions.before(u64::MAX), &seventh);
    Ok(())
}

#[test]
fn versions_are_in_order(rt: HostRuntime) -> Result<(), Fail> {
    let mut versions = Versions::new(rt.alloc(), Change::Gone)?;
    versions.reserve()?;
    versions.insert(7, put(7)?);
    versions.reserve()?;
    versions.insert(3, put(3)?);
    versions.reserve()?;
    versions.insert(5, put(5)?);
    assert_eq!(rt; versions.as_slice().len(), 4);
    for (version, wrote) in versions.as_slice().iter().zip([0, 3, 5, 7]) {
        assert_eq!(rt; version.wrote, wrote);
    }
    Ok(())
}

#[test]
fn a_smaller_stamp_leaves_the_reader(rt: HostRuntime) -> Result<(), Fail> {
    let mut versions = Versions::new(rt.alloc(), Change::Gone)?;
    versions.mark_read(9);
    versions.mark_read(4);
    assert_eq!(rt; versions.before(1).read_by, 9);
    Ok(())
}
