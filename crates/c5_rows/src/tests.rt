use super::*;
use std::alloc::Global;
use std::test::Fail;

fn key(bytes: &[u8]) -> Result<Key, Bad> {
    Key::new(bytes)
}

fn name_of(table: u8, bytes: &[u8]) -> Result<RowName, Bad> {
    Ok(RowName {
        table,
        key: key(bytes)?,
    })
}

fn int_row(n: i64) -> Result<Row, &'static str> {
    Row::new(&[Cell::Int(n)]).ok_or("one cell is a row")
}

fn int_table(name: &[u8]) -> Result<TableDef, &'static str> {
    Ok(TableDef {
        name: TableName::new(name).ok().ok_or("a name")?,
        columns: Columns::new(&[CellType::Int]).ok_or("one column")?,
    })
}

#[test]
fn bytes_are_checked_by_number_and_then_each(rt: HostRuntime) {
    let long = [b'a'; 33];
    for (bytes, want) in [
        (b"".as_slice(), Some(Bad::Length)),
        (&long, Some(Bad::Length)),
        (&long[..32], None),
        (b"a b", Some(Bad::Byte)),
        (b"a\"", Some(Bad::Byte)),
        (b"!~", None),
        (b"\x7f", Some(Bad::Byte)),
    ] {
        assert_eq!(rt; Key::new(bytes).err(), want);
    }
    for (bytes, want) in [
        (b"".as_slice(), None),
        (&long, Some(Bad::Length)),
        (b"a b", None),
        (b"\"", Some(Bad::Byte)),
        (b"\t", Some(Bad::Byte)),
    ] {
        assert_eq!(rt; TextCell::new(bytes).err(), want);
    }
    for (bytes, want) in [
        (b"".as_slice(), Some(Bad::Length)),
        (&long[..17], Some(Bad::Length)),
        (&long[..16], None),
        (b"Acct", Some(Bad::Byte)),
        (b"a_9z", None),
    ] {
        assert_eq!(rt; TableName::new(bytes).err(), want);
    }
}

#[test]
fn names_are_ordered_by_table_and_key(rt: HostRuntime) -> Result<(), Fail> {
    assert!(rt; key(b"a")? < key(b"ab")?);
    assert!(rt; key(b"ab")? < key(b"b")?);
    assert!(rt; name_of(0, b"b")? < name_of(1, b"a")?);
    assert_eq!(rt; key(b"k")?.bytes(), b"k".as_slice());
    assert_eq!(rt; TextCell::new(b"x y")?.bytes(), b"x y".as_slice());
    assert_eq!(rt; TableName::new(b"acct")?.bytes(), b"acct".as_slice());
    Ok(())
}

#[test]
fn rows_and_columns_have_one_to_eight(rt: HostRuntime) -> Result<(), Fail> {
    let cells = [Cell::Int(7); 9];
    assert_eq!(rt; Row::new(&[]), None);
    assert_eq!(rt; Row::new(&cells), None);
    let text = Cell::Txt(TextCell::new(b"x")?);
    let row = Row::new(&cells[..3]).ok_or("three cells")?;
    let length = row.cells().len();
    if 1 < length {
        let changed = row.with(1, text);
        assert_eq!(rt;
            changed.cells(),
            [Cell::Int(7), text, Cell::Int(7)].as_slice()
        );
        let mut same = row;
        same.set(1, text);
        assert_eq!(rt; same, changed);
    }
    assert_eq!(rt; row.cells(), &cells[..3]);
    let mut built = Row::one(Cell::Int(7));
    built.push(text);
    assert_eq!(rt; built.cells(), [Cell::Int(7), text].as_slice());
    assert_eq!(rt; text.cell_type(), CellType::Text);
    let types = [CellType::Text; 9];
    assert_eq!(rt; Columns::new(&[]), None);
    assert_eq!(rt; Columns::new(&types), None);
    let columns = Columns::new(&types[..8]).ok_or("eight columns")?;
    assert_eq!(rt; columns.types(), &types[..8]);
    Ok(())
}

#[test]
fn a_schema_has_sixteen_tables_of_different_names(rt: HostRuntime) -> Result<(), Fail> {
    let mut schema = Schema::one(int_table(b"a")?);
    for name in [
        b"b", b"c", b"d", b"e", b"f", b"g", b"h", b"i", b"j", b"k", b"l", b"m", b"n", b"o",
    ] {
        assert_eq!(rt; schema.push(int_table(name)?), Ok(()));
    }
    assert_eq!(rt;
        schema.push(int_table(b"c")?),
        Err(BadSchema::Repeated { table: 2 })
    );
    assert_eq!(rt; schema.push(int_table(b"p")?), Ok(()));
    assert_eq!(rt; schema.push(int_table(b"c")?), Err(BadSchema::Full));
    assert_eq!(rt; schema.tables().len(), 16);
    assert_eq!(rt; schema.find(&TableName::new(b"p")?), Some(15));
    assert_eq!(rt; schema.find(&TableName::new(b"q")?), None);
    Ok(())
}

#[test]
fn writes_fit_tables_by_number_and_types(rt: HostRuntime) -> Result<(), Fail> {
    let schema = Schema::one(int_table(b"acct")?);
    let text = Row::new(&[Cell::Txt(TextCell::new(b"x")?)]).ok_or("one cell")?;
    for (table, change, want) in [
        (0, Change::Put(int_row(1)?), true),
        (0, Change::Put(text), false),
        (0, Change::Gone, true),
        (1, Change::Gone, false),
    ] {
        let write = Write {
            name: name_of(table, b"k")?,
            change,
        };
        assert_eq!(rt; schema.fits(&write), want);
    }
    Ok(())
}

fn set(writes: &mut Writes, bytes: &[u8], change: Change) -> Result<(), Fail> {
    writes.set(name_of(0, bytes)?, change)?;
    Ok(())
}

#[test]
fn writes_are_in_order_one_a_row(rt: HostRuntime) -> Result<(), Fail> {
    let mut writes = Writes::with_capacity(rt.alloc(), 2)?;
    for bytes in [b"c", b"a", b"d", b"b", b"c"] {
        set(&mut writes, bytes, Change::Gone)?;
    }
    set(&mut writes, b"b", Change::Put(int_row(5)?))?;
    assert_eq!(rt; writes.as_slice().len(), 4);
    for (write, bytes) in writes.as_slice().iter().zip([b"a", b"b", b"c", b"d"]) {
        assert_eq!(rt; write.name, name_of(0, bytes)?);
    }
    assert_eq!(rt;
        writes.find(&name_of(0, b"b")?),
        Some(&Change::Put(int_row(5)?))
    );
    assert_eq!(rt; writes.find(&name_of(0, b"c")?), Some(&Change::Gone));
    assert_eq!(rt; writes.find(&name_of(1, b"c")?), None);
    Ok(())
}

fn puts(alloc: Global, stamp: u64, bytes: &[u8], n: i64) -> Result<Txn, Fail> {
    let mut writes = Writes::new(alloc);
    set(&mut writes, bytes, Change::Put(int_row(n)?))?;
    set(&mut writes, b"gone", Change::Gone)?;
    Ok(Txn {
        script: 0,
        stamp,
        writes,
    })
}

#[test]
fn rows_follow_whole_transactions(rt: HostRuntime) -> Result<(), Fail> {
    let alloc = rt.alloc();
    let mut rows = Rows::new(alloc);
    assert_eq!(rt; rows.apply(&puts(alloc, 1, b"gone", 1)?), Ok(()));
    assert_eq!(rt; rows.apply(&puts(alloc, 2, b"b", 2)?), Ok(()));
    assert_eq!(rt; rows.apply(&puts(alloc, 3, b"a", 3)?), Ok(()));
    let copy = rows.copied()?;
    assert_eq!(rt; rows.apply(&puts(alloc, 4, b"b", 4)?), Ok(()));
    assert_eq!(rt; rows.len(), 2);
    assert_eq!(rt; rows.get(&name_of(0, b"b")?), Some(&int_row(4)?));
    assert_eq!(rt; rows.get(&name_of(0, b"gone")?), None);
    let list = copy.list(alloc)?;
    let want = [
        RowEntry {
            name: name_of(0, b"a")?,
            row: int_row(3)?,
        },
        RowEntry {
            name: name_of(0, b"b")?,
            row: int_row(2)?,
        },
    ];
    assert_eq!(rt; list.as_slice(), want.as_slice());
    let mut in_order = Vec::new(alloc);
    for (name, row) in copy.iter() {
        in_order.push(RowEntry {
            name: *name,
            row: **row,
        })?;
    }
    assert_eq!(rt; in_order.as_slice(), want.as_slice());
    Ok(())
}

#[test]
fn answers_and_replies_keep_their_order(rt: HostRuntime) -> Result<(), Fail> {
    let alloc = rt.alloc();
    let name = name_of(0, b"a")?;
    let lines = [
        AnswerLine::Found {
            name,
            row: int_row(1)?,
        },
        AnswerLine::Absent { name },
        AnswerLine::Sum(-1),
    ];
    let mut answer = Answer::new(alloc);
    for line in &lines {
        answer.push(*line)?;
    }
    assert_eq!(rt; answer.as_slice(), lines.as_slice());
    let mut replies = Replies::new(alloc);
    replies.push(Reply {
        session: 2,
        place: 9,
        answer,
    })?;
    assert_eq!(rt; replies.as_slice().len(), 1);
    for reply in replies.as_slice() {
        assert_eq!(rt; reply.session, 2);
        assert_eq!(rt; reply.place, 9);
        assert_eq!(rt; reply.answer.as_slice(), lines.as_slice());
    }
    Ok(())
}
