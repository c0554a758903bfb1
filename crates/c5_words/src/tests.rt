use crate::{Command, Request, WordsFault, request_of};
use std::alloc::Global;
use std::test::Fail;

// What words ask for: a run with its threads and workers, or one of the other answers.
#[derive(Clone, Copy, PartialEq)]
enum Asked {
    Apply(u32, u32),
    Primary(u32, u32),
    Backup(u32, u32),
    Clone(u32, u32),
    Turns(u32, u32),
    Generate(u32, u32),
    Help,
    Version,
    Refused,
    NoMemory,
}

fn answer_to(alloc: Global, words: &[&str]) -> Result<Asked, Fail> {
    let mut owned = Vec::new(alloc);
    for word in words {
        owned.push(String::from_str(alloc, word)?)?;
    }
    Ok(match request_of(alloc, &owned) {
        Ok(Request::Run { command, options }) => match command {
            Command::Apply => Asked::Apply(options.threads, options.workers),
            Command::Primary => Asked::Primary(options.threads, options.workers),
            Command::Backup => Asked::Backup(options.threads, options.workers),
            Command::Clone => Asked::Clone(options.threads, options.workers),
            Command::Turns => Asked::Turns(options.threads, options.workers),
        },
        Ok(Request::Generate { options }) => Asked::Generate(options.workers, options.count),
        Ok(Request::Help) => Asked::Help,
        Ok(Request::Version) => Asked::Version,
        Err(WordsFault::Refused) => Asked::Refused,
        Err(WordsFault::NoMemory) => Asked::NoMemory,
    })
}

#[test]
fn words_and_what_they_ask_for(rt: HostRuntime) -> Result<(), Fail> {
    let alloc = rt.alloc();
    let table: [(&[&str], Asked); 20] = [
        (&["clone"], Asked::Clone(1, 1)),
        (&[], Asked::Refused),
        (&["frob"], Asked::Refused),
        (&["help"], Asked::Refused),
        (&["apply", "primary"], Asked::Refused),
        (&["clone", "--threads=4"], Asked::Clone(4, 1)),
        (
            &["clone", "--threads", "+4", "--workers=016"],
            Asked::Clone(4, 16),
        ),
        (&["clone", "--threads", "17"], Asked::Refused),
        (
            &["clone", "--threads", "4", "--threads", "4"],
            Asked::Refused,
        ),
        (&["backup", "--workers", "0"], Asked::Refused),
        (&["backup", "--workers", "2"], Asked::Backup(1, 2)),
        (&["turns", "--workers", "2"], Asked::Turns(1, 2)),
        (&["gen", "--workers", "2"], Asked::Generate(2, 1_000)),
        (&["clone", "--count", "65537"], Asked::Refused),
        (&["--", "apply"], Asked::Apply(1, 1)),
        (&["--help"], Asked::Help),
        (&["-h"], Asked::Help),
        (&["nothing", "--help"], Asked::Help),
        (&["apply", "--threads", "99", "--help"], Asked::Refused),
        (&["apply", "-V"], Asked::Version),
    ];
    for row in &table {
        assert!(rt; answer_to(alloc, row.0)? == row.1);
    }
    Ok(())
}
