use crate::{
    Front, ParseFault, ReadLine, Rel, ScriptFault, ScriptKind, Statement, TurnWord, parse,
    parse_front,
};
use c5_rows::{Cell, CellType};
use std::alloc::{AllocError, Global};
use std::test::Fail;

const TABLE: &[u8] = b"table acct int\n";

// The first bytes of a log. The only line end among them is the last byte of a number.
const LOG: &[u8] = b"C5L1\x01\x04acct\x01\x01\0\0\0\x0dW\0\x01a\0\0\0\0\0\0\0\0\n";

fn joined(alloc: Global, parts: &[&[u8]]) -> Result<Vec<u8>, AllocError> {
    let mut bytes = Vec::new(alloc);
    for part in parts {
        bytes.extend_from_slice(part)?;
    }
    Ok(bytes)
}

// A prefix, a line that is repeated, and what follows.
fn repeated(
    alloc: Global,
    front: &[u8],
    line: &[u8],
    times: u32,
    back: &[u8],
) -> Result<Vec<u8>, AllocError> {
    let mut bytes = front.to_vec(alloc)?;
    for _ in 0..times {
        bytes.extend_from_slice(line)?;
    }
    bytes.extend_from_slice(back)?;
    Ok(bytes)
}

// The fault that is reported: its line and its kind.
fn fault_in(alloc: Global, bytes: &[u8]) -> Option<(u32, ScriptKind)> {
    if bytes.len() > 1_000_000 {
        return None;
    }
    match parse(alloc, bytes) {
        Err(ParseFault::Bad(ScriptFault { line, kind })) => Some((line, kind)),
        _ => None,
    }
}

fn front_in(alloc: Global, bytes: &[u8]) -> Result<Front<'_>, ParseFault> {
    if bytes.len() > 1_000_000 {
        return Err(ParseFault::NoMemory);
    }
    parse_front(alloc, bytes)
}

#[test]
fn a_script_of_every_kind_of_line(rt: HostRuntime) -> Result<(), Fail> {
    let bytes = b"  table acct int \n\ntable t text int\ntxn\nput t k \"hello world\" -5\n\
        need acct a 0 ge 007\nend\nread 1\nrow acct a\nsum acct 0 a b\nend\nturns w1 v s16";
    let script = parse(rt.alloc(), bytes)?;
    let tables = script.schema().tables();
    assert_eq!(rt; tables.len(), 2);
    assert_eq!(rt;
        tables[1].columns.types(),
        [CellType::Text, CellType::Int].as_slice()
    );
    assert_eq!(rt; script.bodies().len(), 1);
    let statements = script.bodies()[0].statements();
    assert_eq!(rt; statements.len(), 2);
    match &statements[0] {
        Statement::Put { name, row } => {
            assert_eq!(rt; name.table, 1);
            assert_eq!(rt; row.cells().last(), Some(&Cell::Int(-5)));
        }
        _ => assert!(rt; false),
    }
    match &statements[1] {
        Statement::Need { col, rel, n, .. } => {
            assert_eq!(rt; *col, 0);
            assert_eq!(rt; *rel, Rel::Ge);
            assert_eq!(rt; *n, 7);
        }
        _ => assert!(rt; false),
    }
    assert_eq!(rt; script.reads().len(), 1);
    let lines = script.reads()[0].lines();
    assert_eq!(rt; lines.len(), 2);
    match &lines[1] {
        ReadLine::SumOf { keys, .. } => assert_eq!(rt; keys.as_slice().len(), 2),
        _ => assert!(rt; false),
    }
    let turns = [
        TurnWord::Worker(1),
        TurnWord::Visible,
        TurnWord::Session(16),
    ];
    assert_eq!(rt; script.turns(), turns.as_slice());
    Ok(())
}

#[test]
fn faults_of_the_first_line(rt: HostRuntime) {
    use ScriptKind::*;
    for (bytes, kind) in [
        (b"\ttable acct int\n".as_slice(), Byte),
        (b"table acct int\r\n", Byte),
        (b"table \0 int\n", Byte),
        (b"table \x7f int\n", Byte),
        (b"table \x80 int\n", Byte),
        (b"table \"\xff", Byte),
        (b"table \"acct int\n", Quote),
        (b"ta\"ble acct int\n", Quote),
        (b"table acct\" int\n", Quote),
        (b"table \"acct\"int\n", Quote),
        (b"frob\n", Word),
        (b"\"table\" acct int\n", Word),
        (b"txn\n", Word),
        (b"log\n", Word),
        (b"table t int int int int int int int int int\n", Limit),
        (b"table\n", Count),
        (b"table acct\n", Count),
        (b"table Acct int\n", Name),
        (b"table \"acct\" int\n", Name),
        (b"table acct num\n", WrongType),
        (b"table acct \"int\"\n", WrongType),
        (b"", Unclosed),
    ] {
        assert_eq!(rt; fault_in(rt.alloc(), bytes), Some((1, kind)), "{bytes:?}");
    }
}

#[test]
fn faults_of_a_middle_and_of_the_last_line(rt: HostRuntime) -> Result<(), Fail> {
    use ScriptKind::*;
    let long_key: &[u8] = b"del acct 123456789012345678901234567890123";
    for (head, line, kind) in [
        (b"txn\n".as_slice(), b"put acct\ta 1".as_slice(), Byte),
        (b"txn\n", b"put acct \"a", Quote),
        (b"txn\n", b"row acct a", Word),
        (b"txn\n", b"log", Word),
        (b"txn\n", b"txn", Word),
        (b"txn\n", b"need acct a 0 ne 0", Word),
        (b"txn\n", b"put acct a", Count),
        (b"txn\n", b"put acct a 1 2", Count),
        (b"txn\n", b"end x", Count),
        (b"txn\n", b"put other a x", Table),
        (b"txn\n", b"put \"acct\" a 1", Table),
        (b"txn\n", b"put acct \"a\" 1", Key),
        (b"txn\n", long_key, Key),
        (b"txn\n", b"need acct a 1 ge 0", Column),
        (b"txn\n", b"need acct a 00 ge 0", Column),
        (b"txn\n", b"put acct a \"x\"", WrongType),
        (b"txn\n", b"put acct a x", Number),
        (b"txn\n", b"put acct a 9223372036854775808", Number),
        (b"txn\n", b"put acct a -9223372036854775809", Number),
        (b"txn\n", b"put acct a 00000000000000000001", Number),
        (b"txn\n", b"add acct a 0 -", Number),
        (b"read 1\n", b"end x", Limit),
        (
            b"read 1\n",
            b"sum t 0 a b c d e f g h i j k l m n o p q",
            Limit,
        ),
        (b"read 1\n", b"sum acct 0", Count),
        (b"read 1\n", b"put acct a 1", Word),
        (b"\n", b"read 17", Number),
        (b"\n", b"read", Count),
        (b"\n", b"turns w1 s01", Number),
        (b"\n", b"turns \"v\"", Number),
        (b"\n", b"table acct int", Name),
        (b"turns v\n", b"table other int", Word),
    ] {
        let last = joined(rt.alloc(), &[TABLE, head, line])?;
        assert_eq!(rt; fault_in(rt.alloc(), &last), Some((3, kind)), "{line:?}");
        let middle = joined(rt.alloc(), &[TABLE, head, line, b"\nfrob\n\t\n"])?;
        assert_eq!(rt; fault_in(rt.alloc(), &middle), Some((3, kind)), "{line:?}");
    }
    Ok(())
}

#[test]
fn what_is_missing_at_the_end(rt: HostRuntime) {
    for (bytes, line) in [
        (b"\n\n\n".as_slice(), 4),
        (b"   ", 2),
        (b"table acct int\ntxn", 3),
        (b"table acct int\ntxn\n", 3),
        (b"table acct int\nread 1\nrow acct a\n", 4),
    ] {
        let fault = fault_in(rt.alloc(), bytes);
        assert_eq!(rt; fault, Some((line, ScriptKind::Unclosed)), "{bytes:?}");
    }
}

#[test]
fn numbers_at_both_ends(rt: HostRuntime) -> Result<(), Fail> {
    for (number, want) in [
        (b"9223372036854775807".as_slice(), i64::MAX),
        (b"-9223372036854775808", i64::MIN),
        (b"-0", 0),
        (b"0000000000000000001", 1),
    ] {
        let bytes = joined(rt.alloc(), &[TABLE, b"txn\nput acct a ", number, b"\nend"])?;
        assert!(rt; bytes.len() < 100);
        let script = parse(rt.alloc(), &bytes)?;
        assert_eq!(rt; script.bodies().len(), 1);
        match script.bodies()[0].statements() {
            [Statement::Put { row, .. }] => {
                assert_eq!(rt; row.cells(), [Cell::Int(want)].as_slice())
            }
            _ => assert!(rt; false),
        }
    }
    Ok(())
}

#[test]
fn one_more_than_each_limit(rt: HostRuntime) -> Result<(), Fail> {
    let alloc = rt.alloc();
    let mut tables = Vec::new(alloc);
    for letter in b'a'..=b'q' {
        tables.extend_from_slice(b"table ")?;
        tables.push(letter)?;
        tables.extend_from_slice(b" int\n")?;
    }
    assert_eq!(rt; fault_in(alloc, &tables), Some((17, ScriptKind::Limit)));
    let txn = b"table acct int\ntxn\n";
    let body = repeated(alloc, txn, b"add acct a 0 1\n", 256, b"del x\nend\n")?;
    assert_eq!(rt; fault_in(alloc, &body), Some((259, ScriptKind::Limit)));
    let read = b"table acct int\nread 1\n";
    let lines = repeated(alloc, read, b"row acct a\n", 16, b"row x\nend\n")?;
    assert_eq!(rt; fault_in(alloc, &lines), Some((19, ScriptKind::Limit)));
    let block = b"read 1\nrow acct a\nend\n";
    let reads = repeated(alloc, TABLE, block, 256, b"read\n")?;
    assert_eq!(rt; fault_in(alloc, &reads), Some((770, ScriptKind::Limit)));
    let turns = repeated(
        alloc,
        b"table acct int\nturns",
        b" v",
        65_536,
        b"\nturns x\n",
    )?;
    assert_eq!(rt; fault_in(alloc, &turns), Some((3, ScriptKind::Limit)));
    Ok(())
}

#[test]
fn scripts_before_a_log(rt: HostRuntime) -> Result<(), Fail> {
    for line in [b"log\n".as_slice(), b" log  \n"] {
        let bytes = joined(rt.alloc(), &[TABLE, b"\n", line, LOG])?;
        let front = front_in(rt.alloc(), &bytes)?;
        assert_eq!(rt; front.script.schema().tables().len(), 1);
        assert_eq!(rt; front.rest, LOG);
    }
    let front = front_in(rt.alloc(), b"table acct int\nlog")?;
    assert!(rt; front.rest.is_empty());
    Ok(())
}

#[test]
fn faults_before_a_log(rt: HostRuntime) -> Result<(), Fail> {
    use ScriptKind::*;
    for (parts, line, kind) in [
        ([TABLE, b"".as_slice(), b"".as_slice()], 2, Unclosed),
        ([TABLE, b"txn\nend\n\n", b""], 5, Unclosed),
        ([TABLE, b"", LOG], 2, Byte),
        ([TABLE, b"log x\n", LOG], 2, Count),
        ([TABLE, b"\"log\"\n", LOG], 2, Word),
        ([TABLE, b"txn\nlog\n", LOG], 3, Word),
        ([TABLE, b"txn\n\nlog x\n", LOG], 4, Word),
        ([b"log\n", TABLE, LOG], 1, Word),
    ] {
        let bytes = joined(rt.alloc(), &parts)?;
        let fault = match front_in(rt.alloc(), &bytes) {
            Err(ParseFault::Bad(fault)) => Some((fault.line, fault.kind)),
            _ => None,
        };
        assert_eq!(rt; fault, Some((line, kind)), "{parts:?}");
    }
    Ok(())
}
