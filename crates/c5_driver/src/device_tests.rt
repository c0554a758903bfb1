use crate::tests::{ONE_PUT, SCRIPT};
use crate::{Status, c5};
use c5_io::{MemorySink, MemorySource};
use std::alloc::Global;
use std::test::Fail;
use std::thread::Threads;

// Bytes that a source gives and a sink takes in one call: with one, each byte has a call that fails.
const STEP: usize = 1;

// More calls than any run here makes.
const CALLS: u64 = 100;

// The rows after the one put.
const ROWS: &[u8] = b"acct a 10\nrows 1\n";

// How a run ended, and what the sink held then.
#[derive(Drop)]
struct Ended {
    status: Status,
    held: Vec<u8>,
}

// Runs a command, and lets the read and the sink's call of these numbers fail; 0 is none.
fn run<R: Threads + Sync>(
    rt: &R,
    alloc: Global,
    command: &str,
    input: &[u8],
    fails: (u64, u64),
) -> Result<Ended, Fail> {
    let words = vec![in alloc; String::from_str(alloc, command)?]?;
    let mut source = MemorySource::new(input.to_vec(alloc)?, STEP, vec![in alloc; fails.0]?);
    let mut sink = MemorySink::new(alloc, 100, STEP, vec![in alloc; fails.1]?)?;
    let status = c5(rt, alloc, &words, &mut source, &mut sink);
    Ok(Ended {
        status,
        held: sink.held().to_vec(alloc)?,
    })
}

// Each read fails in turn: status 5, and nothing is printed. Returns how many reads a run makes.
fn reads<R: Threads + Sync>(
    rt: &R,
    alloc: Global,
    command: &str,
    input: &[u8],
) -> Result<u64, Fail> {
    for number in 1..CALLS {
        let ended = run(rt, alloc, command, input, (number, 0))?;
        if ended.status == Status::Ok {
            return Ok(number - 1);
        }
        if ended.status != Status::ReadFault || !ended.held.is_empty() {
            return Err(Fail::from("a read failed"));
        }
    }
    Err(Fail::from("too many reads"))
}

// Each write and the flush fail in turn: status 6, and a prefix of the text is held. Returns how
// many calls a run makes.
fn writes<R: Threads + Sync>(
    rt: &R,
    alloc: Global,
    command: &str,
    input: &[u8],
    text: &[u8],
) -> Result<u64, Fail> {
    for number in 1..CALLS {
        let ended = run(rt, alloc, command, input, (0, number))?;
        let held = ended.held.as_slice();
        if ended.status == Status::Ok && held == text {
            return Ok(number - 1);
        }
        if ended.status != Status::WriteFault || !text.starts_with(held) {
            return Err(Fail::from("a write failed"));
        }
    }
    Err(Fail::from("too many writes"))
}

// A script without reads, and then its log.
fn script_and_log(alloc: Global) -> Result<Vec<u8>, Fail> {
    let mut input = b"table acct int\nlog\n".to_vec(alloc)?;
    input.extend_from_slice(&ONE_PUT)?;
    Ok(input)
}

#[test]
fn each_call_fails_in_turn_for_apply(rt: HostRuntime) -> Result<(), Fail> {
    let alloc = rt.alloc();
    // 59 bytes and the end; 17 bytes and the flush.
    assert_eq!(rt; reads(&rt, alloc, "apply", &ONE_PUT)?, 60);
    assert_eq!(rt; writes(&rt, alloc, "apply", &ONE_PUT, ROWS)?, 18);
    Ok(())
}

#[test]
fn each_call_fails_in_turn_for_primary(rt: HostRuntime) -> Result<(), Fail> {
    let alloc = rt.alloc();
    // 37 bytes and the end; 59 bytes and the flush.
    assert_eq!(rt; reads(&rt, alloc, "primary", SCRIPT)?, 38);
    assert_eq!(rt; writes(&rt, alloc, "primary", SCRIPT, &ONE_PUT)?, 60);
    Ok(())
}

#[test]
fn each_call_fails_in_turn_for_backup(rt: HostRuntime) -> Result<(), Fail> {
    let alloc = rt.alloc();
    let input = script_and_log(alloc)?;
    // 78 bytes and the end; 17 bytes and the flush.
    assert_eq!(rt; reads(&rt, alloc, "backup", &input)?, 79);
    assert_eq!(rt; writes(&rt, alloc, "backup", &input, ROWS)?, 18);
    Ok(())
}

#[test]
fn each_call_fails_in_turn_for_clone(rt: HostRuntime) -> Result<(), Fail> {
    let alloc = rt.alloc();
    // 37 bytes and the end; 25 bytes and the flush.
    assert_eq!(rt; reads(&rt, alloc, "clone", SCRIPT)?, 38);
    let text = b"order 0\nacct a 10\nrows 1\n";
    assert_eq!(rt; writes(&rt, alloc, "clone", SCRIPT, text)?, 26);
    Ok(())
}
