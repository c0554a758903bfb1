use crate::payload::{Checked, check_payload};
use crate::refs::{WriteRef, write_ref};
use c5_definitions::LogKind;
use c5_rows::{Cell, CellType, Change, Columns, Key, Row, RowName, TableDef, TableName, TextCell};
use std::test::Fail;

// One table, `t`, of a Text and an Int column.
fn tables() -> Result<[TableDef; 1], Fail> {
    Ok([TableDef {
        name: TableName::new(b"t")?,
        columns: Columns::new(&[CellType::Text, CellType::Int]).ok_or("two columns")?,
    }])
}

fn write_in<'a>(tables: &[TableDef], payload: &'a [u8]) -> Option<WriteRef<'a>> {
    match check_payload(tables, payload) {
        Ok(Checked::Write(_)) => Some(write_ref(tables, payload)),
        _ => None,
    }
}

const PUT: &[u8] = b"W\x00\x01k\x00\x0Bhello world\xFF\xFF\xFF\xFF\xFF\xFF\xFF\xFB";

#[test]
fn a_put_shows_its_name_and_its_cells(rt: HostRuntime) -> Result<(), Fail> {
    let tables = tables()?;
    let write = write_in(&tables, PUT).ok_or("a write")?;
    let text = Cell::Txt(TextCell::new(b"hello world")?);
    let want = Row::new(&[text, Cell::Int(-5)]).ok_or("two cells")?;
    assert_eq!(rt; write.table(), 0);
    assert_eq!(rt; write.key(), b"k".as_slice());
    assert_eq!(rt;
        write.name(),
        RowName {
            table: 0,
            key: Key::new(b"k")?
        }
    );
    assert_eq!(rt; write.change(), Change::Put(want));
    let row = write.row().ok_or("a row")?;
    assert_eq!(rt; row.len(), 2);
    assert_eq!(rt; row.to_row(), want);
    if 1 < row.len() {
        assert_eq!(rt; row.cell(0), text);
        assert_eq!(rt; row.cell(1), Cell::Int(-5));
        assert_eq!(rt; row.text(0).ok_or("a text")?, b"hello world".as_slice());
        assert!(rt; row.text(1).is_none());
    }
    Ok(())
}

#[test]
fn a_gone_has_no_row(rt: HostRuntime) -> Result<(), Fail> {
    let tables = tables()?;
    let write = write_in(&tables, b"W\x00\x02ab\x01").ok_or("a write")?;
    assert_eq!(rt; write.key(), b"ab".as_slice());
    assert_eq!(rt; write.change(), Change::Gone);
    assert!(rt; write.row().is_none());
    Ok(())
}

#[test]
fn marks_show_their_numbers(rt: HostRuntime) -> Result<(), Fail> {
    let tables = tables()?;
    let mark = b"C\x00\x00\x00\x02\x00\x00\x00\x00\x00\x00\x01\x00\x00\x00\x00\x03";
    match check_payload(&tables, mark) {
        Ok(Checked::Mark(mark)) => {
            assert_eq!(rt; mark.script, 2);
            assert_eq!(rt; mark.stamp, 256);
            assert_eq!(rt; mark.count, 3);
        }
        _ => assert!(rt; false),
    }
    match check_payload(&tables, b"E\x00\x00\x01\x00") {
        Ok(Checked::End(count)) => assert_eq!(rt; count, 256),
        _ => assert!(rt; false),
    }
    Ok(())
}

#[test]
fn the_first_test_that_fails_is_reported(rt: HostRuntime) -> Result<(), Fail> {
    let tables = tables()?;
    let texts: [(&[u8], LogKind); 20] = [
        (b"", LogKind::Kind),
        (b"w\x00\x01k\x01", LogKind::Kind),
        (b"C\x00\x00\x00\x02", LogKind::Length),
        (b"E\x00\x00\x01\x00\x00", LogKind::Length),
        (b"W", LogKind::Table),
        (b"W\x01\x01k\x01", LogKind::Table),
        (b"W\x01\x00\x02", LogKind::Table),
        (b"W\x00", LogKind::Key),
        (b"W\x00\x00\x01", LogKind::Key),
        (b"W\x00\x02k", LogKind::Key),
        (
            b"W\x00\x21aaaaaaaaaaaaaaaaaaaaaaaaaaaaaaaaa\x01",
            LogKind::Key,
        ),
        (b"W\x00\x01 \x02", LogKind::Key),
        (b"W\x00\x01k", LogKind::Cell),
        (b"W\x00\x01k\x02", LogKind::Cell),
        (b"W\x00\x01k\x01\x00", LogKind::Cell),
        (b"W\x00\x01k\x00\x02a", LogKind::Cell),
        (
            b"W\x00\x01k\x00\x01\"\x00\x00\x00\x00\x00\x00\x00\x00",
            LogKind::Cell,
        ),
        (
            b"W\x00\x01k\x00\x21aaaaaaaaaaaaaaaaaaaaaaaaaaaaaaaaa\x00\x00\x00\x00\x00\x00\x00\x00",
            LogKind::Cell,
        ),
        (
            b"W\x00\x01k\x00\x01a\x00\x00\x00\x00\x00\x00\x00",
            LogKind::Cell,
        ),
        (
            b"W\x00\x01k\x00\x01a\x00\x00\x00\x00\x00\x00\x00\x00\x00",
            LogKind::Cell,
        ),
    ];
    for (payload, kind) in texts {
        assert_eq!(rt; check_payload(&tables, payload).err(), Some(kind));
    }
    Ok(())
}
