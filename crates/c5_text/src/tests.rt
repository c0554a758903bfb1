use crate::{
    ReplyHead, TextFault, order_text, push_rows, read_head, read_order, read_row, reply_text,
    rows_text,
};
use c5_rows::{
    Answer, AnswerLine, Cell, CellType, Columns, Key, Reply, Row, RowEntry, RowName, Rows, Schema,
    TableDef, TableName, TextCell,
};
use std::test::Fail;

fn table(name: &[u8]) -> Result<TableDef, Fail> {
    Ok(TableDef {
        name: TableName::new(name)?,
        columns: Columns::new(&[CellType::Int]).ok_or("no columns")?,
    })
}

fn entry(table: u8, key: &[u8], cells: &[Cell]) -> Result<RowEntry, Fail> {
    Ok(RowEntry {
        name: RowName {
            table,
            key: Key::new(key)?,
        },
        row: Row::new(cells).ok_or("no row")?,
    })
}

#[test]
fn cells_of_a_row(rt: HostRuntime) -> Result<(), Fail> {
    let schema = Schema::one(table(b"t")?);
    let hello = Cell::Txt(TextCell::new(b"hello world")?);
    let empty = Cell::Txt(TextCell::new(b"")?);
    let ends = [Cell::Int(i64::MIN), Cell::Int(i64::MAX), empty];
    for (cells, want) in [
        (
            [hello, Cell::Int(-5)].as_slice(),
            "t k \"hello world\" -5\nrows 1\n",
        ),
        (
            ends.as_slice(),
            "t k -9223372036854775808 9223372036854775807 \"\"\nrows 1\n",
        ),
        (
            [Cell::Int(0); 8].as_slice(),
            "t k 0 0 0 0 0 0 0 0\nrows 1\n",
        ),
    ] {
        let rows = [entry(0, b"k", cells)?];
        let text = rows_text(rt.alloc(), &schema, &rows)?;
        assert_eq!(rt; text.as_slice(), want.as_bytes());
    }
    Ok(())
}

#[test]
fn lines_of_rows(rt: HostRuntime) -> Result<(), Fail> {
    let mut schema = Schema::one(table(b"acct")?);
    schema.push(table(b"log_2")?)?;
    let rows = [
        entry(0, b"a", &[Cell::Int(10)])?,
        entry(1, b"k'7~", &[Cell::Int(-1)])?,
        entry(2, b"lost", &[Cell::Int(3)])?,
    ];
    for (count, want) in [
        (0, "rows 0\n"),
        (1, "acct a 10\nrows 1\n"),
        (2, "acct a 10\nlog_2 k'7~ -1\nrows 2\n"),
        (3, "acct a 10\nlog_2 k'7~ -1\n lost 3\nrows 3\n"),
    ] {
        let text = rows_text(rt.alloc(), &schema, &rows[..count])?;
        assert_eq!(rt; text.as_slice(), want.as_bytes());
    }
    Ok(())
}

#[test]
fn lines_of_a_map(rt: HostRuntime) -> Result<(), Fail> {
    let schema = Schema::one(table(b"acct")?);
    let mut rows = Rows::new(rt.alloc());
    for (key, cell) in [(b"b", 2), (b"a", 10)] {
        let entry = entry(0, key, &[Cell::Int(cell)])?;
        rows.put(&entry.name, Box::new(rt.alloc(), entry.row)?)?;
    }
    let mut text = Vec::new(rt.alloc());
    text.extend_from_slice(b"order 1\n")?;
    push_rows(&mut text, &schema, &rows)?;
    assert_eq!(rt;
        text.as_slice(),
        b"order 1\nacct a 10\nacct b 2\nrows 2\n".as_slice()
    );
    Ok(())
}

fn schema_of(name: &[u8], columns: &[CellType]) -> Result<Schema, Fail> {
    Ok(Schema::one(TableDef {
        name: TableName::new(name)?,
        columns: Columns::new(columns).ok_or("no columns")?,
    }))
}

#[test]
fn rows_read(rt: HostRuntime) -> Result<(), Fail> {
    let acct = schema_of(b"acct", &[CellType::Int])?;
    let pair = schema_of(b"t", &[CellType::Text, CellType::Int])?;
    let hello = Cell::Txt(TextCell::new(b"hello world")?);
    let empty = Cell::Txt(TextCell::new(b"")?);
    let mut both = acct;
    both.push(pair.tables()[0])?;
    for (schema, line, want) in [
        (&acct, "acct a 10", entry(0, b"a", &[Cell::Int(10)])?),
        (&acct, "acct a 0", entry(0, b"a", &[Cell::Int(0)])?),
        (
            &acct,
            "acct a -9223372036854775808",
            entry(0, b"a", &[Cell::Int(i64::MIN)])?,
        ),
        (
            &acct,
            "acct a 9223372036854775807",
            entry(0, b"a", &[Cell::Int(i64::MAX)])?,
        ),
        (
            &pair,
            "t k \"hello world\" -5",
            entry(0, b"k", &[hello, Cell::Int(-5)])?,
        ),
        (
            &both,
            "t k'7~ \"\" 1",
            entry(1, b"k'7~", &[empty, Cell::Int(1)])?,
        ),
    ] {
        assert!(rt; read_row(schema, line.as_bytes()) == Some(want), "{line}");
    }
    Ok(())
}

#[test]
fn lines_of_no_row(rt: HostRuntime) -> Result<(), Fail> {
    let acct = schema_of(b"acct", &[CellType::Int])?;
    let pair = schema_of(b"t", &[CellType::Text, CellType::Int])?;
    for (schema, line) in [
        (&acct, "acct a -"),
        (&acct, "acct a 010"),
        (&acct, "acct a -0"),
        (&acct, "acct a +1"),
        (&acct, "acct a 10 "),
        (&acct, "acct a 10\n"),
        (&acct, "acct a 10 11"),
        (&acct, "acct a 9223372036854775808"),
        (&acct, "acct a -9223372036854775809"),
        (&acct, "acct a \"10\""),
        (&acct, "acct a ten"),
        (&acct, "acct a "),
        (&acct, "acct a"),
        (&acct, "acct"),
        (&acct, "acc a 10"),
        (&acct, "accts a 10"),
        (&acct, "acct  10"),
        (&acct, " acct a 10"),
        (&acct, ""),
        (&pair, "t k \"hello world -5"),
        (&pair, "t k \"hello world\"-5"),
        (&pair, "t k hello -5"),
        (&pair, "t k -5 \"hello world\""),
        (&pair, "t k \"123456789012345678901234567890123\" 1"),
    ] {
        assert!(rt; read_row(schema, line.as_bytes()).is_none(), "{line}");
    }
    Ok(())
}

#[test]
fn orders(rt: HostRuntime) -> Result<(), Fail> {
    for (scripts, want) in [
        ([].as_slice(), "order\n"),
        ([0].as_slice(), "order 0\n"),
        ([2, 0, 1].as_slice(), "order 2 0 1\n"),
        ([u32::MAX, 10].as_slice(), "order 4294967295 10\n"),
    ] {
        let text = order_text(rt.alloc(), scripts)?;
        assert_eq!(rt; text.as_slice(), want.as_bytes());
        let read = read_order(rt.alloc(), want.trim_end().as_bytes())?;
        assert_eq!(rt; read.as_slice(), scripts);
    }
    Ok(())
}

#[test]
fn lines_of_no_order(rt: HostRuntime) -> Result<(), Fail> {
    for line in [
        "",
        "orde",
        "orders",
        "Order 1",
        " order",
        "order ",
        "order 2 0 ",
        "order 02",
        "order 1  2",
        "order 4294967296",
        "order -1",
        "order +1",
        "order 1\n",
        "order 1,2",
        "order1",
    ] {
        let read = read_order(rt.alloc(), line.as_bytes());
        assert!(rt; matches!(read, Err(TextFault::NotOne)), "{line}");
    }
    Ok(())
}

#[test]
fn replies(rt: HostRuntime) -> Result<(), Fail> {
    let schema = Schema::one(table(b"acct")?);
    let name = entry(0, b"a", &[Cell::Int(0)])?.name;
    let row = Row::new(&[Cell::Int(-7)]).ok_or("no row")?;
    for (session, place, total, line, want) in [
        (
            1,
            0,
            0,
            AnswerLine::Absent { name },
            "read 1 place 0 lag 0\nacct a -\n",
        ),
        (
            2,
            1,
            3,
            AnswerLine::Found { name, row },
            "read 2 place 1 lag 2\nacct a -7\n",
        ),
        (
            16,
            3,
            3,
            AnswerLine::Sum(800),
            "read 16 place 3 lag 0\nsum 800\n",
        ),
        (
            1,
            0,
            1,
            AnswerLine::Sum(-147_573_952_589_676_412_928),
            "read 1 place 0 lag 1\nsum -147573952589676412928\n",
        ),
    ] {
        assert!(rt; place <= total);
        let mut answer = Answer::new(rt.alloc());
        answer.push(line)?;
        let reply = Reply {
            session,
            place,
            answer,
        };
        let text = reply_text(rt.alloc(), &schema, &reply, total)?;
        assert_eq!(rt; text.as_slice(), want.as_bytes());
    }
    Ok(())
}

#[test]
fn heads(rt: HostRuntime) -> Result<(), Fail> {
    for (line, want) in [
        ("read 1 place 2 lag 1", Some((1, 2, 1))),
        ("read 16 place 0 lag 4294967295", Some((16, 0, u32::MAX))),
        ("read 1 place 2 lag 1 ", None),
        ("read 1 place 2 lag 1\n", None),
        ("read 1 place 2 lag 01", None),
        ("read 1 place 2 lag 4294967296", None),
        ("read 1 place 2 lag -1", None),
        ("read 1 place 2", None),
        ("read 1 lag 1 place 2", None),
        ("read 1  place 2 lag 1", None),
        ("read place 2 lag 1", None),
        ("", None),
    ] {
        let want = want.map(|(session, place, lag)| ReplyHead {
            session,
            place,
            lag,
        });
        assert!(rt; read_head(line.as_bytes()) == want, "{line}");
    }
    Ok(())
}

// The texts of an order, of replies at the places 0 and 2 and of the rows, and what is read from
// their lines.
#[test]
fn an_output_read_back(rt: HostRuntime) -> Result<(), Fail> {
    let schema = Schema::one(table(b"acct")?);
    let one = entry(0, b"a", &[Cell::Int(10)])?;
    let absent = AnswerLine::Absent { name: one.name };
    let found = AnswerLine::Found {
        name: one.name,
        row: one.row,
    };
    let want = "order 1 0\nread 1 place 0 lag 2\nacct a -\n\
        read 1 place 2 lag 0\nacct a 10\nacct a 10\nrows 1\n";
    let mut text = order_text(rt.alloc(), &[1, 0])?;
    for (place, line) in [(0, absent), (2, found)] {
        assert!(rt; place <= 2);
        let mut answer = Answer::new(rt.alloc());
        answer.push(line)?;
        let reply = Reply {
            session: 1,
            place,
            answer,
        };
        let reply = reply_text(rt.alloc(), &schema, &reply, 2)?;
        text.extend_from_slice(reply.as_slice())?;
    }
    text.extend_from_slice(rows_text(rt.alloc(), &schema, &[one])?.as_slice())?;
    assert_eq!(rt; text.as_slice(), want.as_bytes());
    let mut lines = want.lines();
    let order = read_order(rt.alloc(), lines.next().ok_or("no order")?.as_bytes())?;
    assert_eq!(rt; order.as_slice(), [1, 0].as_slice());
    for (place, lag, row) in [(0, 2, None), (2, 0, Some(one))] {
        let head = read_head(lines.next().ok_or("no head")?.as_bytes()).ok_or("no head")?;
        let want = ReplyHead {
            session: 1,
            place,
            lag,
        };
        assert!(rt; head == want);
        let answer = lines.next().ok_or("no answer")?;
        assert!(rt; read_row(&schema, answer.as_bytes()) == row);
    }
    let row = read_row(&schema, lines.next().ok_or("no row")?.as_bytes());
    assert!(rt; row == Some(one));
    Ok(())
}
