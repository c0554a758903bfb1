use crate::{Status, c5};
use c5_io::{MemorySink, MemorySource};
use std::alloc::Global;
use std::test::Fail;
use std::thread::Threads;

// One transaction that puts 10 into the row `a` of the table `acct`, of one Int column.
pub const ONE_PUT: [u8; 59] = [
    0x43, 0x35, 0x4c, 0x31, 0x01, 0x04, 0x61, 0x63, 0x63, 0x74, 0x01, 0x01, 0x00, 0x00, 0x00, 0x0d,
    0x57, 0x00, 0x01, 0x61, 0x00, 0x00, 0x00, 0x00, 0x00, 0x00, 0x00, 0x00, 0x0a, 0x00, 0x00, 0x00,
    0x11, 0x43, 0x00, 0x00, 0x00, 0x00, 0x00, 0x00, 0x00, 0x00, 0x00, 0x00, 0x00, 0x01, 0x00, 0x00,
    0x00, 0x01, 0x00, 0x00, 0x00, 0x05, 0x45, 0x00, 0x00, 0x00, 0x01,
];

// The script whose log that is.
pub const SCRIPT: &[u8] = b"table acct int\ntxn\nput acct a 10\nend\n";

#[derive(Clone, Copy)]
struct Run<'a> {
    words: &'a [&'a str],
    input: &'a [u8],
    // The calls of the source and of the sink that fail.
    reads: &'a [u64],
    writes: &'a [u64],
    status: Status,
    held: &'a [u8],
}

fn check<R: Threads + Sync>(rt: &R, alloc: Global, run: &Run<'_>) -> Result<bool, Fail> {
    let mut words = Vec::new(alloc);
    for word in run.words {
        words.push(String::from_str(alloc, word)?)?;
    }
    let mut source = MemorySource::new(run.input.to_vec(alloc)?, 7, run.reads.to_vec(alloc)?);
    let mut sink = MemorySink::new(alloc, 200, 4, run.writes.to_vec(alloc)?)?;
    let status = c5(rt, alloc, &words, &mut source, &mut sink);
    Ok(status == run.status && sink.held() == run.held)
}

const APPLY: &[&str] = &["apply"];

const PRIMARY: &[&str] = &["primary"];

const NONE: &[u64] = &[];

fn case<'a>(
    words: &'a [&'a str],
    input: &'a [u8],
    reads: &'a [u64],
    writes: &'a [u64],
    status: Status,
    held: &'a [u8],
) -> Run<'a> {
    Run {
        words,
        input,
        reads,
        writes,
        status,
        held,
    }
}

#[test]
fn apply_ends_with_each_status(rt: HostRuntime) -> Result<(), Fail> {
    let rows = b"acct a 10\nrows 1\n".as_slice();
    let runs = [
        case(APPLY, &ONE_PUT, NONE, NONE, Status::Ok, rows),
        // The second write fails, and then the flush after five writes.
        case(APPLY, &ONE_PUT, NONE, &[2], Status::WriteFault, b"acct"),
        case(APPLY, &ONE_PUT, NONE, &[6], Status::WriteFault, rows),
        case(APPLY, &ONE_PUT, &[1], NONE, Status::ReadFault, b""),
        case(
            APPLY,
            &ONE_PUT[..58],
            NONE,
            NONE,
            Status::BadLog,
            b"bad log at 50 cut\n",
        ),
        case(APPLY, &ONE_PUT[..58], NONE, &[1], Status::BadLog, b""),
        case(APPLY, &ONE_PUT[..58], NONE, &[2], Status::BadLog, b"bad "),
        case(
            &["frob"],
            &ONE_PUT,
            &[1],
            NONE,
            Status::BadWords,
            b"bad words\n",
        ),
        case(&[], &ONE_PUT, &[1], NONE, Status::BadWords, b"bad words\n"),
        case(&["-V"], &ONE_PUT, &[1], NONE, Status::Ok, b"c5 0.1.0\n"),
    ];
    for (number, run) in runs.iter().enumerate() {
        assert!(rt; check(&rt, rt.alloc(), run)?, "run {number}");
    }
    Ok(())
}

#[test]
fn primary_ends_with_each_status(rt: HostRuntime) -> Result<(), Fail> {
    let unclosed = b"bad script line 4 unclosed\n".as_slice();
    let runs = [
        case(PRIMARY, SCRIPT, NONE, NONE, Status::Ok, &ONE_PUT),
        case(PRIMARY, SCRIPT, NONE, &[1], Status::WriteFault, b""),
        case(PRIMARY, SCRIPT, &[2], NONE, Status::ReadFault, b""),
        case(
            PRIMARY,
            &SCRIPT[..33],
            NONE,
            NONE,
            Status::BadScript,
            unclosed,
        ),
        case(
            &["primary", "apply"],
            SCRIPT,
            &[1],
            NONE,
            Status::BadWords,
            b"bad words\n",
        ),
    ];
    for (number, run) in runs.iter().enumerate() {
        assert!(rt; check(&rt, rt.alloc(), run)?, "run {number}");
    }
    Ok(())
}

#[test]
fn statuses_end_the_program_with_their_numbers(rt: HostRuntime) {
    for (status, number) in [
        (Status::Ok, 0),
        (Status::BadWords, 2),
        (Status::BadScript, 3),
        (Status::BadLog, 4),
        (Status::ReadFault, 5),
        (Status::WriteFault, 6),
        (Status::NoMemory, 7),
        (Status::TooLong, 8),
        (Status::Limit, 9),
    ] {
        assert_eq!(rt; status.number(), number);
    }
}
