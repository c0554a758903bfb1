ghost use Rattle.std.specs.Prelude.{[]};

use super::*;
use c5_rows::{Answer, AnswerLine, Cell, Change, Key, Row, RowName, Rows, TextCell, Txn, Writes};
use c5_script::{Body, Keys, ReadBlock, ReadLine, Rel, Statement};
use std::alloc::Global;
use std::process::Abort;
use std::test::Fail;

// A key and its number; `None` if the row is absent.
type Entry = (&'static [u8], Option<i64>);

fn name(key: &[u8]) -> Result<RowName, Fail> {
    Ok(RowName {
        table: 0,
        key: Key::new(key)?,
    })
}

fn number(n: i64) -> Result<Row, Fail> {
    Ok(Row::new(&[Cell::Int(n)]).ok_or("one cell")?)
}

fn change(n: Option<i64>) -> Result<Change, Fail> {
    match n {
        Some(n) => Ok(Change::Put(number(n)?)),
        None => Ok(Change::Gone),
    }
}

fn put(key: &[u8], n: i64) -> Result<Statement, Fail> {
    Ok(Statement::Put {
        name: name(key)?,
        row: number(n)?,
    })
}

fn need(key: &[u8], rel: Rel, n: i64) -> Result<Statement, Fail> {
    Ok(Statement::Need {
        name: name(key)?,
        col: 0,
        rel,
        n,
    })
}

fn add(key: &[u8], n: i64) -> Result<Statement, Fail> {
    Ok(Statement::Add {
        name: name(key)?,
        col: 0,
        n,
    })
}

fn copy(from: &[u8], to: &[u8]) -> Result<Statement, Fail> {
    Ok(Statement::Copy {
        from: name(from)?,
        to: name(to)?,
    })
}

fn del(key: &[u8]) -> Result<Statement, Fail> {
    Ok(Statement::Del { name: name(key)? })
}

fn body_of(alloc: Global, statements: &[Statement]) -> Result<Body, Fail> {
    let mut body = Body::new(alloc);
    for statement in statements {
        if body.statements().len() < 256 {
            body.push(*statement)?;
        }
    }
    Ok(body)
}

fn rows_with(alloc: Global, entries: &[Entry]) -> Result<Rows, Fail> {
    let mut rows = Rows::new(alloc);
    let mut writes = Writes::new(alloc);
    for (key, n) in entries {
        writes.set(name(key)?, change(*n)?)?;
    }
    rows.apply(&Txn {
        script: 0,
        stamp: 1,
        writes,
    })?;
    Ok(rows)
}

// A body on these rows ends with these writes; `None` if it declines.
fn ends(
    rt: &impl Abort,
    alloc: Global,
    rows: &[Entry],
    statements: &[Statement],
    want: Option<&[Entry]>,
) -> Result<(), Fail> {
    let rows = rows_with(alloc, rows)?;
    let outcome = evaluate_rows(alloc, &body_of(alloc, statements)?, &rows)?;
    assert_eq!(rt; outcome.declined, want.is_none());
    let want = want.unwrap_or(&[]);
    assert_eq!(rt; outcome.writes.as_slice().len(), want.len());
    for (write, (key, n)) in outcome.writes.as_slice().iter().zip(want.iter()) {
        assert!(rt; write.name == name(key)?);
        assert!(rt; write.change == change(*n)?);
    }
    Ok(())
}

#[test]
fn a_body_ends_as_its_statements_say(rt: HostRuntime) -> Result<(), Fail> {
    let alloc = rt.alloc();
    let hundred: &[Entry] = &[(b"a", Some(100)), (b"b", Some(100)), (b"c", Some(100))];
    ends(&rt, alloc, &[], &[need(b"a", Rel::Ge, 1)?], None)?;
    ends(&rt, alloc, &[], &[put(b"a", 5)?], Some(&[(b"a", Some(5))]))?;
    ends(
        &rt,
        alloc,
        &[(b"a", Some(i64::MAX))],
        &[add(b"a", 1)?],
        None,
    )?;
    ends(
        &rt,
        alloc,
        &[(b"a", Some(i64::MIN))],
        &[add(b"a", -1)?],
        None,
    )?;
    ends(
        &rt,
        alloc,
        hundred,
        &[add(b"b", 30)?, add(b"a", -30)?],
        Some(&[(b"a", Some(70)), (b"b", Some(130))]),
    )?;
    ends(
        &rt,
        alloc,
        hundred,
        &[need(b"c", Rel::Ge, 50)?, add(b"c", -50)?, add(b"a", 50)?],
        Some(&[(b"a", Some(150)), (b"c", Some(50))]),
    )
}

#[test]
fn a_row_that_was_set_is_the_one_that_counts(rt: HostRuntime) -> Result<(), Fail> {
    let alloc = rt.alloc();
    let seven: &[Entry] = &[(b"a", Some(7))];
    ends(
        &rt,
        alloc,
        seven,
        &[put(b"a", 1)?, add(b"a", 2)?],
        Some(&[(b"a", Some(3))]),
    )?;
    ends(&rt, alloc, seven, &[del(b"a")?, add(b"a", 2)?], None)?;
    ends(
        &rt,
        alloc,
        seven,
        &[copy(b"x", b"a")?],
        Some(&[(b"a", None)]),
    )?;
    ends(
        &rt,
        alloc,
        seven,
        &[copy(b"a", b"a")?],
        Some(&[(b"a", Some(7))]),
    )?;
    ends(&rt, alloc, seven, &[del(b"x")?], Some(&[(b"x", None)]))?;
    ends(&rt, alloc, seven, &[need(b"a", Rel::Eq, 7)?], Some(&[]))?;
    ends(
        &rt,
        alloc,
        seven,
        &[put(b"b", 1)?, need(b"a", Rel::Lt, 7)?],
        None,
    )
}

#[test]
fn each_relation_compares(rt: HostRuntime) -> Result<(), Fail> {
    for (rel, below, same, above) in [
        (Rel::Lt, true, false, false),
        (Rel::Le, true, true, false),
        (Rel::Eq, false, true, false),
        (Rel::Ge, false, true, true),
        (Rel::Gt, false, false, true),
    ] {
        for (n, holds) in [(-8, below), (-7, same), (-6, above)] {
            let alloc = rt.alloc();
            let rows = rows_with(alloc, &[(b"a", Some(n))])?;
            let body = body_of(alloc, &[need(b"a", rel, -7)?])?;
            let outcome = evaluate_rows(alloc, &body, &rows)?;
            assert_eq!(rt; outcome.declined, !holds);
        }
    }
    Ok(())
}

// A block of one row and one sum.
fn block(alloc: Global, row: &[u8], keys: Keys) -> Result<ReadBlock, Fail> {
    let mut read = ReadBlock::new(alloc, 1, ReadLine::OneRow { name: name(row)? })?;
    if read.lines().len() < 16 {
        read.push(ReadLine::SumOf {
            table: 0,
            col: 0,
            keys,
        })?;
    }
    Ok(read)
}

#[test]
fn a_block_is_answered_line_by_line(rt: HostRuntime) -> Result<(), Fail> {
    let alloc = rt.alloc();
    let rows = rows_with(alloc, &[(b"a", Some(i64::MAX)), (b"b", Some(2))])?;
    let mut keys = Keys::one(Key::new(b"a")?);
    keys.push(Key::new(b"b")?);
    keys.push(Key::new(b"a")?);
    keys.push(Key::new(b"x")?);
    let sum = AnswerLine::Sum(2 * 9223372036854775807 + 2);
    for (key, first) in [
        (
            b"b",
            AnswerLine::Found {
                name: name(b"b")?,
                row: number(2)?,
            },
        ),
        (b"x", AnswerLine::Absent { name: name(b"x")? }),
    ] {
        let answer = answer_rows(alloc, &block(alloc, key, keys)?, &rows)?;
        assert_eq!(rt; answer.as_slice().len(), 2);
        assert!(rt; answer.as_slice().first() == Some(&first));
        assert!(rt; answer.as_slice().last() == Some(&sum));
    }
    Ok(())
}

// A reader that refuses each row.
#[derive(Drop)]
struct Closed {
    refusals: u64,
}

impl ReadRows for Closed {
    type Fault = u8;

    type Base = ();

    ghost base = { λ _. tt };

    ghost asked = { λ _. [] };

    ghost refusals = { λ r. r.refusals };

    fn row(&mut self, _name: &RowName) -> Result<Option<Row>, u8> {
        self.refusals = self.refusals.saturating_add(1);
        Err(9)
    }
}

#[test]
fn a_refusal_is_handed_on(rt: HostRuntime) -> Result<(), Fail> {
    let alloc = rt.alloc();
    let mut closed = Closed { refusals: 0 };
    let body = body_of(alloc, &[put(b"a", 1)?, add(b"a", 1)?])?;
    assert!(rt; evaluate(alloc, &body, &mut closed).is_ok());
    assert_eq!(rt; closed.refusals, 0);
    let body = body_of(alloc, &[put(b"a", 1)?, add(b"b", 1)?])?;
    assert!(rt; matches!(evaluate(alloc, &body, &mut closed), Err(EvalFault::Read(9))));
    let read = block(alloc, b"a", Keys::one(Key::new(b"a")?))?;
    assert!(rt; matches!(answer(alloc, &read, &mut closed), Err(EvalFault::Read(9))));
    assert_eq!(rt; closed.refusals, 2);
    Ok(())
}

#[test]
fn a_text_is_not_a_number(rt: HostRuntime) -> Result<(), Fail> {
    let alloc = rt.alloc();
    let row = Row::new(&[Cell::Txt(TextCell::new(b"7")?)]).ok_or("one cell")?;
    let body = body_of(
        alloc,
        &[
            Statement::Put {
                name: name(b"a")?,
                row,
            },
            need(b"a", Rel::Eq, 7)?,
        ],
    )?;
    assert!(rt; evaluate_rows(alloc, &body, &Rows::new(alloc))?.declined);
    Ok(())
}

#[test]
fn rows_set_out_of_order_are_written_in_order(rt: HostRuntime) -> Result<(), Fail> {
    let alloc = rt.alloc();
    let mut statements = Vec::new(alloc);
    for letter in b"tsrqponmlkjihgfedcba" {
        statements.push(put(&[*letter], 1)?)?;
    }
    statements.push(add(b"c", 4)?)?;
    let outcome = evaluate_rows(alloc, &body_of(alloc, &statements)?, &Rows::new(alloc))?;
    let writes = outcome.writes.as_slice();
    assert_eq!(rt; writes.len(), 20);
    for (write, letter) in writes.iter().zip(b"abcdefghijklmnopqrst") {
        let n = if *letter == b'c' { 5 } else { 1 };
        assert!(rt; write.name == name(&[*letter])?);
        assert!(rt; write.change == change(Some(n))?);
    }
    Ok(())
}
