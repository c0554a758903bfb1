ghost use Rattle.std.specs.Prelude.{◌<◌};

use crate::{
    Failed, Gate, InFault, MemorySink, MemorySource, OpenGate, PlainSource, Role, Sink, Source,
    StdSink, StdSource, read_all, write_all,
};
use c5_rows::NoMemory;
use std::alloc::Global;
use std::io;
use std::test::Fail;

const TEXT: &[u8] = b"bytes of a text";

// A reader whose second read fails.
#[derive(Drop)]
struct Broken {
    reads: u32,
}

impl io::Read for Broken {
    fn read(&mut self, buf: &mut [u8]) -> io::Result<usize> {
        self.reads = self.reads.saturating_add(1);
        if self.reads == 2 {
            return Err(io::Error::from(io::ErrorKind::Other));
        }
        let count = buf.len().min(1);
        Ok(count)
    }
}

// A writer that takes nothing, and whose flush fails.
#[derive(Drop)]
struct Full;

impl io::Write for Full {
    fn write(&mut self, _buf: &[u8]) -> io::Result<usize> {
        Ok(0)
    }

    fn flush(&mut self) -> io::Result<()> {
        Err(io::Error::from(io::ErrorKind::Other))
    }
}

fn read_whole<S: Source>(alloc: Global, mut source: S, limit: usize) -> Result<Vec<u8>, InFault>
where
    S: Drop,
    requires { limit < 1000 }
{
    read_all(alloc, &mut source, limit)
}

#[test]
fn sources_are_read_to_their_end(rt: HostRuntime) -> Result<(), Fail> {
    let alloc = rt.alloc();
    let plain = read_whole(alloc, PlainSource::new(TEXT.to_vec(alloc)?), 15)?;
    assert_eq!(rt; plain.as_slice(), TEXT);
    for step in [1, 4, 100] {
        let source = MemorySource::new(TEXT.to_vec(alloc)?, step, Vec::new(alloc));
        let bytes = read_whole(alloc, source, 999)?;
        assert_eq!(rt; bytes.as_slice(), TEXT, "in steps of {step}");
    }
    let over_std = read_whole(alloc, StdSource::new(TEXT), 15)?;
    assert_eq!(rt; over_std.as_slice(), TEXT);
    let none = read_whole(alloc, PlainSource::new(Vec::new(alloc)), 0)?;
    assert!(rt; none.is_empty());
    Ok(())
}

#[test]
fn more_than_the_limit_is_too_long(rt: HostRuntime) -> Result<(), Fail> {
    let alloc = rt.alloc();
    let three = b"abc";
    let mut source = MemorySource::new(three.to_vec(alloc)?, 2, Vec::new(alloc));
    assert!(rt; matches!(read_all(alloc, &mut source, 2), Err(InFault::TooLong)));
    let exact = read_whole(alloc, PlainSource::new(three.to_vec(alloc)?), 3)?;
    assert_eq!(rt; exact.as_slice(), three.as_slice());
    Ok(())
}

#[test]
fn a_failed_read_is_reported(rt: HostRuntime) -> Result<(), Fail> {
    let alloc = rt.alloc();
    for call in 1..=4 {
        // In steps of 5 the fourth read meets the end.
        let source = MemorySource::new(TEXT.to_vec(alloc)?, 5, vec![in alloc; call]?);
        let answer = read_whole(alloc, source, 999);
        assert!(rt; matches!(answer, Err(InFault::Failed)), "at call {call}");
    }
    let late = MemorySource::new(TEXT.to_vec(alloc)?, 5, vec![in alloc; 5]?);
    assert_eq!(rt; read_whole(alloc, late, 999)?.as_slice(), TEXT);

    let mut broken = StdSource::new(Broken { reads: 0 });
    assert!(rt; matches!(read_all(alloc, &mut broken, 999), Err(InFault::Failed)));
    // Its later reads give a byte each, without end.
    assert!(rt; matches!(read_all(alloc, &mut broken, 9), Err(InFault::TooLong)));
    Ok(())
}

#[test]
fn a_text_is_written(rt: HostRuntime) -> Result<(), Fail> {
    let alloc = rt.alloc();
    let mut sink = MemorySink::new(alloc, 15, 4, Vec::new(alloc))?;
    write_all(&mut sink, TEXT)?;
    sink.flush()?;
    assert_eq!(rt; sink.held(), TEXT);
    assert_eq!(rt; write_all(&mut sink, b"x"), Err(Failed));
    assert_eq!(rt; write_all(&mut sink, b""), Ok(()));

    let mut bytes = Vec::new(alloc);
    let mut over_std = StdSink::new(&mut bytes);
    write_all(&mut over_std, TEXT)?;
    over_std.flush()?;
    drop(over_std);
    assert_eq!(rt; bytes.as_slice(), TEXT);
    Ok(())
}

#[test]
fn a_failed_write_is_reported(rt: HostRuntime) -> Result<(), Fail> {
    let alloc = rt.alloc();
    let fails = vec![in alloc; 2, 3]?;
    let mut sink = MemorySink::new(alloc, 100, 4, fails)?;
    assert_eq!(rt; write_all(&mut sink, TEXT), Err(Failed));
    assert_eq!(rt; sink.held(), &TEXT[..4]);
    assert_eq!(rt; sink.flush(), Err(Failed));
    assert_eq!(rt; sink.flush(), Ok(()));

    let mut full = StdSink::new(Full);
    assert_eq!(rt; full.write(TEXT), Err(Failed));
    assert_eq!(rt; full.write(b""), Ok(0));
    assert_eq!(rt; full.flush(), Err(Failed));
    Ok(())
}

#[test]
fn refused_memory_is_reported(rt: HostRuntime) {
    let alloc = rt.alloc();
    let answer = MemorySink::new(alloc, usize::MAX, 1, Vec::new(alloc));
    assert!(rt; matches!(answer, Err(NoMemory)));
}

// How many of five roles a gate lets through, each at its first turn and at its last one.
fn passes<G: Gate>(gate: &G) -> u32 {
    let mut passed: u32 = 0;
    for role in [
        Role::Primary(0),
        Role::Scheduler,
        Role::Worker(1),
        Role::Snapshot,
        Role::Session(2),
    ] {
        for turn in [1, u64::MAX] {
            gate.pass(role, turn);
            passed = passed.saturating_add(1);
        }
    }
    passed
}

#[test]
fn an_open_gate_lets_each_role_through(rt: HostRuntime) {
    assert_eq!(rt; passes(&OpenGate), 10);
}
