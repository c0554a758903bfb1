ghost use Rattle.std.specs.Prelude.{◌≤◌, length};

use super::*;
use c5_rows::{
    Cell, CellType, Change, Columns, Key, Row, RowName, Schema, TableDef, TableName, Txn, Writes,
};
use std::alloc::Global;
use std::process::Abort;
use std::test::Fail;

// The table `acct` of one Int column, and one transaction that puts 10 into its row `a`.
const ONE: [u8; 59] = [
    0x43, 0x35, 0x4c, 0x31, 0x01, 0x04, 0x61, 0x63, 0x63, 0x74, 0x01, 0x01, //
    0x00, 0x00, 0x00, 0x0d, 0x57, 0x00, 0x01, 0x61, 0x00, 0x00, 0x00, 0x00, 0x00, 0x00, 0x00, 0x00,
    0x0a, //
    0x00, 0x00, 0x00, 0x11, 0x43, 0x00, 0x00, 0x00, 0x00, 0x00, 0x00, 0x00, 0x00, 0x00, 0x00, 0x00,
    0x01, 0x00, 0x00, 0x00, 0x01, //
    0x00, 0x00, 0x00, 0x05, 0x45, 0x00, 0x00, 0x00, 0x01,
];

// Where its items begin.
const BEGINS: [u32; 9] = [0, 4, 5, 6, 10, 11, 12, 29, 50];

// One byte of it changed: which one, to what, and the fault that this makes.
const CHANGED: [(usize, u8, u32, LogKind); 25] = [
    (0, 0x44, 0, LogKind::Magic),
    (3, 0x32, 0, LogKind::Magic),
    (4, 0x00, 4, LogKind::Header),
    (4, 0x11, 4, LogKind::Header),
    (5, 0x00, 5, LogKind::Header),
    (5, 0x11, 5, LogKind::Header),
    (6, 0x41, 6, LogKind::Header),
    (10, 0x09, 10, LogKind::Header),
    (11, 0x03, 11, LogKind::Header),
    (15, 0x04, 12, LogKind::Length),
    (15, 0x00, 12, LogKind::Length),
    (12, 0xff, 12, LogKind::Length),
    (16, 0x58, 12, LogKind::Kind),
    (17, 0x01, 12, LogKind::Table),
    (18, 0x00, 12, LogKind::Key),
    (18, 0x21, 12, LogKind::Key),
    (19, 0x20, 12, LogKind::Key),
    (20, 0x02, 12, LogKind::Cell),
    (20, 0x01, 12, LogKind::Cell),
    (32, 0x12, 29, LogKind::Length),
    (45, 0x00, 29, LogKind::Stamp),
    (49, 0x00, 29, LogKind::Count),
    (49, 0x02, 29, LogKind::Count),
    (58, 0x00, 50, LogKind::End),
    (58, 0x02, 50, LogKind::End),
];

fn decoded(alloc: Global, bytes: &[u8]) -> Result<Result<LogBuffer, LogFault>, FeedFault>
    requires { length bytes.now ≤ 1000 }
{
    let mut decoder = Decoder::new(alloc);
    match decoder.feed(bytes) {
        Err(FeedFault::NoMemory) => Err(FeedFault::NoMemory),
        _ => Ok(decoder.finish()),
    }
}

fn has_fault(
    rt: &impl Abort,
    alloc: Global,
    bytes: &[u8],
    offset: u32,
    kind: LogKind,
) -> Result<(), FeedFault>
    requires { length bytes.now ≤ 1000 }
{
    match decoded(alloc, bytes)? {
        Ok(_) => assert!(rt; false, "no fault"),
        Err(fault) => assert_eq!(rt; fault, LogFault { offset, kind }),
    }
    Ok(())
}

#[test]
fn one_put_is_encoded(rt: HostRuntime) -> Result<(), Fail> {
    let alloc = rt.alloc();
    let columns = Columns::new(&[CellType::Int]).ok_or("one column")?;
    let schema = Schema::one(TableDef {
        name: TableName::new(b"acct")?,
        columns,
    });
    let mut writes = Writes::new(alloc);
    let name = RowName {
        table: 0,
        key: Key::new(b"a")?,
    };
    let row = Row::new(&[Cell::Int(10)]).ok_or("one cell")?;
    writes.set(name, Change::Put(row))?;
    let txn = Txn {
        script: 0,
        stamp: 1,
        writes,
    };
    assert_eq!(rt; encode(alloc, &schema, &[txn])?.as_slice(), ONE.as_slice());
    Ok(())
}

#[test]
fn one_transaction_byte_by_byte(rt: HostRuntime) -> Result<(), Fail> {
    let mut decoder = Decoder::new(rt.alloc());
    for byte in &ONE {
        assert!(rt; decoder.fed() < 1000);
        decoder.feed(&[])?;
        decoder.feed(&[*byte])?;
    }
    assert_eq!(rt; decoder.fed(), 59);
    let log = match decoder.finish() {
        Ok(log) => log,
        Err(_) => return Err(Fail::from("a fault")),
    };
    assert_eq!(rt; log.bytes(), ONE.as_slice());
    assert_eq!(rt; log.schema().tables().len(), 1);
    assert_eq!(rt; log.transactions(), 1);
    assert_eq!(rt; log.writes(), 1);
    let txn = log.txn(0);
    assert_eq!(rt;
        txn,
        TxnRef {
            script: 0,
            stamp: 1,
            first: 1,
            count: 1
        }
    );
    let write = log.write(1);
    assert_eq!(rt; write.table(), 0);
    assert_eq!(rt; write.key(), b"a".as_slice());
    Ok(())
}

#[test]
fn bytes_that_are_given_are_decoded(rt: HostRuntime) -> Result<(), Fail> {
    let alloc = rt.alloc();
    let log = match Decoder::of_bytes(alloc, ONE.to_vec(alloc)?)?.finish() {
        Ok(log) => log,
        Err(_) => return Err(Fail::from("a fault")),
    };
    assert_eq!(rt; log.bytes(), ONE.as_slice());
    assert_eq!(rt; log.writes(), 1);
    match Decoder::of_bytes(alloc, ONE[..58].to_vec(alloc)?)?.finish() {
        Ok(_) => assert!(rt; false, "no fault"),
        Err(fault) => assert_eq!(rt;
            fault,
            LogFault {
                offset: 50,
                kind: LogKind::Cut
            }
        ),
    }
    Ok(())
}

#[test]
fn each_prefix_is_cut(rt: HostRuntime) -> Result<(), Fail> {
    let mut begin = 0;
    for count in 0..ONE.len() {
        for offset in &BEGINS {
            if *offset as usize <= count {
                begin = *offset;
            }
        }
        has_fault(&rt, rt.alloc(), &ONE[..count], begin, LogKind::Cut)?;
    }
    Ok(())
}

#[test]
fn one_byte_changed(rt: HostRuntime) -> Result<(), Fail> {
    for (at, byte, offset, kind) in &CHANGED {
        assert!(rt; *at < 59);
        let mut bytes = ONE;
        bytes[*at] = *byte;
        has_fault(&rt, rt.alloc(), &bytes, *offset, *kind)?;
    }
    Ok(())
}

#[test]
fn a_fault_stays(rt: HostRuntime) -> Result<(), Fail> {
    let mut decoder = Decoder::new(rt.alloc());
    decoder.feed(&ONE)?;
    for _ in 0..3 {
        assert!(rt; decoder.fed() < 1000);
        match decoder.feed(b"x") {
            Err(FeedFault::Log(fault)) => assert_eq!(rt;
                fault,
                LogFault {
                    offset: 59,
                    kind: LogKind::After
                }
            ),
            _ => assert!(rt; false, "no fault"),
        }
    }
    assert_eq!(rt; decoder.fed(), 62);
    Ok(())
}
