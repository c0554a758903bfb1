ghost use Rattle.std.specs.Prelude.{◌≡◌, ◌∷◌, [], IfOk, MatchOption, slice_get};

use super::*;
use c5_rows::{
    Cell, CellType, Change, Columns, Key, Row, RowName, Schema, TableDef, TableName, TextCell, Txn,
    Write,
};
use c5_script::{Body, Rel, Script, Statement};
use std::alloc::Global;
use std::process::Abort;
use std::test::Fail;

pub fn name_of(bytes: &[u8]) -> Result<RowName, Fail>
    ensures { IfOk result (λ name. name.table ≡ 0) }
{
    Ok(RowName {
        table: 0,
        key: Key::new(bytes)?,
    })
}

pub fn one_table(name: &[u8], types: &[CellType]) -> Result<Schema, Fail>
    ensures { IfOk result
        (λ tables. MatchOption (slice_get tables 0) ⊥ (λ table. table.columns ≡ types.now)) }
{
    Ok(Schema::one(TableDef {
        name: TableName::new(name)?,
        columns: Columns::new(types).ok_or("one to eight columns")?,
    }))
}

// The body of one statement.
pub fn one(alloc: Global, statement: Statement) -> Result<Body, Fail>
    ensures { IfOk result (λ body. body ≡ statement ∷ []) }
{
    let mut body = Body::new(alloc);
    body.push(statement)?;
    Ok(body)
}

fn expect(rt: &impl Abort, txn: &Txn, number: u32, writes: &[Write]) {
    assert_eq!(rt; txn.script, number);
    assert_eq!(rt; txn.stamp, number as u64 + 1);
    assert_eq!(rt; txn.writes.as_slice(), writes);
}

fn put_of(name: RowName, row: Row) -> Write {
    Write {
        name,
        change: Change::Put(row),
    }
}

#[test]
fn a_text_and_a_number_are_put(rt: HostRuntime) -> Result<(), Fail> {
    let schema = one_table(b"t", &[CellType::Text, CellType::Int])?;
    let name = name_of(b"k")?;
    let text = Cell::Txt(TextCell::new(b"hello world")?);
    let row = Row::new(&[text, Cell::Int(-5)]).ok_or("two cells")?;
    let mut script = Script::new(rt.alloc(), schema);
    script.push_body(one(rt.alloc(), Statement::Put { name, row })?)?;
    let txns = run_serial(rt.alloc(), &script)?;
    assert_eq!(rt; txns.len(), 1);
    expect(&rt, &txns[0], 0, &[put_of(name, row)]);
    Ok(())
}

#[test]
fn a_sum_past_the_greatest_number_declines(rt: HostRuntime) -> Result<(), Fail> {
    let schema = one_table(b"acct", &[CellType::Int])?;
    let name = name_of(b"a")?;
    let row = Row::new(&[Cell::Int(9_223_372_036_854_775_807)]).ok_or("one cell")?;
    let mut script = Script::new(rt.alloc(), schema);
    script.push_body(one(rt.alloc(), Statement::Put { name, row })?)?;
    script.push_body(one(rt.alloc(), Statement::Add { name, col: 0, n: 1 })?)?;
    let txns = run_serial(rt.alloc(), &script)?;
    assert_eq!(rt; txns.len(), 2);
    expect(&rt, &txns[0], 0, &[put_of(name, row)]);
    expect(&rt, &txns[1], 1, &[]);
    Ok(())
}

#[test]
fn each_body_sees_what_those_before_it_left(rt: HostRuntime) -> Result<(), Fail> {
    let schema = one_table(b"acct", &[CellType::Int])?;
    let name = name_of(b"a")?;
    let ten = Row::new(&[Cell::Int(10)]).ok_or("one cell")?;
    let five = Row::new(&[Cell::Int(5)]).ok_or("one cell")?;
    let mut script = Script::new(rt.alloc(), schema);
    let need = Statement::Need {
        name,
        col: 0,
        rel: Rel::Ge,
        n: 10,
    };
    script.push_body(one(rt.alloc(), need)?)?;
    script.push_body(one(rt.alloc(), Statement::Put { name, row: ten })?)?;
    script.push_body(one(rt.alloc(), need)?)?;
    script.push_body(one(rt.alloc(), Statement::Put { name, row: five })?)?;
    script.push_body(one(rt.alloc(), need)?)?;
    assert_eq!(rt; script.bodies().len(), 5);
    let txns = run_serial(rt.alloc(), &script)?;
    assert_eq!(rt; txns.len(), 5);
    expect(&rt, &txns[0], 0, &[]);
    expect(&rt, &txns[1], 1, &[put_of(name, ten)]);
    expect(&rt, &txns[2], 2, &[]);
    expect(&rt, &txns[3], 3, &[put_of(name, five)]);
    expect(&rt, &txns[4], 4, &[]);
    Ok(())
}
