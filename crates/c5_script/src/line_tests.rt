use crate::fault::LineError;
use crate::partial::{PartialScript, Taken};
use crate::word::Word;
use c5_definitions::{ReadLine, ScriptKind, Statement, TurnWord};
use std::alloc::{AllocError, Global};
use std::test::Fail;

fn word(text: &str) -> Word<'_> {
    match text.as_bytes() {
        [b'"', inner @ .., b'"'] => Word::Quoted(inner),
        bytes => Word::Bare(bytes),
    }
}

fn words(alloc: Global, line: &str) -> Result<Vec<Word<'_>>, AllocError> {
    let mut words = Vec::new(alloc);
    for text in line.split_whitespace() {
        words.push(word(text))?;
    }
    Ok(words)
}

// Takes lines that slashes separate, up to the first fault.
fn take(alloc: Global, script: &mut PartialScript, lines: &str) -> Result<(), LineError> {
    for line in lines.split('/') {
        let Ok(words) = words(alloc, line) else {
            return Err(LineError::NoMemory);
        };
        script.take_line(&words)?;
    }
    Ok(())
}

// The fault that lines ended with, or `None` if all were accepted.
fn found(taken: Result<(), LineError>) -> Result<Option<ScriptKind>, AllocError> {
    match taken {
        Ok(()) => Ok(None),
        Err(LineError::Fault(kind)) => Ok(Some(kind)),
        Err(LineError::NoMemory) => Err(AllocError),
    }
}

// The fault of the last of the lines, or `None` if all are accepted.
fn fault(alloc: Global, heading: &str, lines: &str) -> Result<Option<ScriptKind>, AllocError> {
    let mut script = PartialScript::new(alloc);
    let taken = match take(alloc, &mut script, heading) {
        Ok(()) => take(alloc, &mut script, lines),
        Err(error) => Err(error),
    };
    found(taken)
}

const TABLES: &str = "table acct int/table t text int";

#[test]
fn lines_outside_blocks(rt: HostRuntime) -> Result<(), Fail> {
    let cases = [
        ("tabel b int", Some(ScriptKind::Word)),
        ("\"table\" b int", Some(ScriptKind::Word)),
        ("end", Some(ScriptKind::Word)),
        ("log", Some(ScriptKind::Word)),
        ("del acct a", Some(ScriptKind::Word)),
        ("table b", Some(ScriptKind::Count)),
        ("table acct text", Some(ScriptKind::Name)),
        ("table B int", Some(ScriptKind::Name)),
        ("table \"b\" int", Some(ScriptKind::Name)),
        ("table b real", Some(ScriptKind::WrongType)),
        (
            "table acct int int int int int int int int int",
            Some(ScriptKind::Limit),
        ),
        ("turns w1/table b int", Some(ScriptKind::Word)),
        ("txn/end/table b int", Some(ScriptKind::Word)),
        ("txn x", Some(ScriptKind::Count)),
        ("read", Some(ScriptKind::Count)),
        ("read 0", Some(ScriptKind::Number)),
        ("read 17", Some(ScriptKind::Number)),
        ("read \"1\"", Some(ScriptKind::Number)),
        ("read 007", None),
        ("turns", Some(ScriptKind::Count)),
        ("turns w0", Some(ScriptKind::Number)),
        ("turns w01", Some(ScriptKind::Number)),
        ("turns s17", Some(ScriptKind::Number)),
        ("turns v v1", Some(ScriptKind::Number)),
        ("turns w16 v s9//turns s10", None),
    ];
    for (lines, kind) in cases {
        assert_eq!(rt; fault(rt.alloc(), TABLES, lines)?, kind, "{lines}");
    }
    assert_eq!(rt; fault(rt.alloc(), "", "txn")?, Some(ScriptKind::Word));
    Ok(())
}

#[test]
fn lines_of_a_transaction(rt: HostRuntime) -> Result<(), Fail> {
    let cases = [
        ("txn/txn", Some(ScriptKind::Word)),
        ("txn/row acct a", Some(ScriptKind::Word)),
        ("txn/end x", Some(ScriptKind::Count)),
        ("txn/put acct a", Some(ScriptKind::Count)),
        ("txn/put none \"a\" 1 2", Some(ScriptKind::Table)),
        ("txn/put acct \"a\" 1 2", Some(ScriptKind::Key)),
        ("txn/put acct a 1 2", Some(ScriptKind::Count)),
        ("txn/put acct a \"1\"", Some(ScriptKind::WrongType)),
        ("txn/put acct a -", Some(ScriptKind::Number)),
        ("txn/put acct a +1", Some(ScriptKind::Number)),
        (
            "txn/put acct a 9223372036854775808",
            Some(ScriptKind::Number),
        ),
        (
            "txn/put acct a -9223372036854775809",
            Some(ScriptKind::Number),
        ),
        (
            "txn/put acct a 00000000000000000001",
            Some(ScriptKind::Number),
        ),
        ("txn/put acct a -9223372036854775808", None),
        ("txn/put acct a 9223372036854775807", None),
        ("txn/put acct a -000", None),
        ("txn/put t a b 1", Some(ScriptKind::WrongType)),
        (
            "txn/put t a \"123456789012345678901234567890123\" x",
            Some(ScriptKind::Limit),
        ),
        (
            "txn/put t a \"12345678901234567890123456789012\" x",
            Some(ScriptKind::Number),
        ),
        ("txn/need acct a 0 lt", Some(ScriptKind::Count)),
        ("txn/need acct a 1 lt 5", Some(ScriptKind::Column)),
        ("txn/need acct a 00 lt 5", Some(ScriptKind::Column)),
        ("txn/need t a 0 less 5", Some(ScriptKind::WrongType)),
        ("txn/need t a 1 less five", Some(ScriptKind::Word)),
        ("txn/need t a 1 lt five", Some(ScriptKind::Number)),
        ("txn/add t a 1", Some(ScriptKind::Count)),
        ("txn/copy acct a", Some(ScriptKind::Count)),
        ("txn/copy acct a \"b\"", Some(ScriptKind::Key)),
        ("txn/del acct a b", Some(ScriptKind::Count)),
    ];
    for (lines, kind) in cases {
        assert_eq!(rt; fault(rt.alloc(), TABLES, lines)?, kind, "{lines}");
    }
    Ok(())
}

#[test]
fn lines_of_a_read_block(rt: HostRuntime) -> Result<(), Fail> {
    let cases = [
        ("read 1/end", Some(ScriptKind::Limit)),
        ("read 1/end x", Some(ScriptKind::Limit)),
        ("read 1/row acct a/end x", Some(ScriptKind::Count)),
        ("read 1/put acct a 1", Some(ScriptKind::Word)),
        ("read 1/row acct", Some(ScriptKind::Count)),
        ("read 1/row none a", Some(ScriptKind::Table)),
        ("read 1/sum acct 0", Some(ScriptKind::Count)),
        ("read 1/sum t 0 a", Some(ScriptKind::WrongType)),
        (
            "read 1/sum none x a b c d e f g h i j k l m n o p q",
            Some(ScriptKind::Limit),
        ),
        (
            "read 1/sum acct 0 a b c d e f g h i j k l m n o p/end",
            None,
        ),
    ];
    for (lines, kind) in cases {
        assert_eq!(rt; fault(rt.alloc(), TABLES, lines)?, kind, "{lines}");
    }
    Ok(())
}

// The fault of the last of the lines, after these lines `count` times.
fn fault_after(
    alloc: Global,
    count: u32,
    lines: &str,
    last: &str,
) -> Result<Option<ScriptKind>, AllocError> {
    let mut script = PartialScript::new(alloc);
    let mut taken = take(alloc, &mut script, TABLES);
    for _ in 0..count {
        if taken.is_ok() {
            taken = take(alloc, &mut script, lines);
        }
    }
    if taken.is_ok() {
        taken = take(alloc, &mut script, last);
    }
    found(taken)
}

#[test]
fn counts_past_their_limits(rt: HostRuntime) -> Result<(), Fail> {
    let alloc = rt.alloc();
    let reads = "read 1/row acct a/end";
    assert_eq!(rt;
        fault_after(alloc, 255, reads, "read")?,
        Some(ScriptKind::Count)
    );
    assert_eq!(rt;
        fault_after(alloc, 256, reads, "read")?,
        Some(ScriptKind::Limit)
    );
    assert_eq!(rt;
        fault_after(alloc, 65536, "turns v", "turns x")?,
        Some(ScriptKind::Limit)
    );
    assert_eq!(rt;
        fault_after(alloc, 65535, "turns v", "turns x")?,
        Some(ScriptKind::Number)
    );
    Ok(())
}

#[test]
fn each_line_once(rt: HostRuntime) -> Result<(), Fail> {
    let alloc = rt.alloc();
    let mut script = PartialScript::new(alloc);
    let lines = "table acct int//txn/put acct a 1/need acct a 0 ge 1/add acct a 0 -1\
        /copy acct a b/del acct a/end/read 2/row acct a/sum acct 0 a b/end/turns w1 v s2";
    assert!(rt; take(alloc, &mut script, lines).is_ok());
    let line = words(alloc, "log")?;
    assert!(rt; script.take_front_line(&line) == Ok(Taken::Log));
    let whole = script.finish();
    assert!(rt; whole.is_some());
    if let Some(whole) = whole {
        assert_eq!(rt; whole.bodies().len(), 1);
        assert_eq!(rt; whole.reads().len(), 1);
        assert_eq!(rt;
            whole.turns(),
            [TurnWord::Worker(1), TurnWord::Visible, TurnWord::Session(2)].as_slice()
        );
        let statements = whole.bodies()[0].statements();
        assert_eq!(rt; statements.len(), 5);
        assert!(rt; matches!(statements[0], Statement::Put { .. }));
        assert!(rt; matches!(statements[4], Statement::Del { .. }));
        let lines = whole.reads()[0].lines();
        assert_eq!(rt; lines.len(), 2);
        assert!(rt; matches!(lines[1], ReadLine::SumOf { .. }));
    }
    Ok(())
}
