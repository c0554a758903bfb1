use super::*;
use c5_definitions::number_law;
use c5_frames::{Decoder, LogBuffer};
use c5_rows::{Key, NoMemory, RowName};
use std::alloc::Global;
use std::test::Fail;

// Four transactions over one table of an Int column: `b` and `c`; none; `a` and `b`; and `b` is
// deleted.
const LOG: &[u8] = b"C5L1\x01\x04acct\x01\x01\
    \0\0\0\x0dW\0\x01b\0\0\0\0\0\0\0\0\x01\
    \0\0\0\x0dW\0\x01c\0\0\0\0\0\0\0\0\x02\
    \0\0\0\x11C\0\0\0\0\0\0\0\0\0\0\0\x01\0\0\0\x02\
    \0\0\0\x11C\0\0\0\x01\0\0\0\0\0\0\0\x02\0\0\0\0\
    \0\0\0\x0dW\0\x01a\0\0\0\0\0\0\0\0\x03\
    \0\0\0\x0dW\0\x01b\0\0\0\0\0\0\0\0\x04\
    \0\0\0\x11C\0\0\0\x02\0\0\0\0\0\0\0\x03\0\0\0\x02\
    \0\0\0\x05W\0\x01b\x01\
    \0\0\0\x11C\0\0\0\x03\0\0\0\0\0\0\0\x04\0\0\0\x01\
    \0\0\0\x05E\0\0\0\x04";

fn log(alloc: Global) -> Result<LogBuffer, Fail> {
    let mut decoder = Decoder::new(alloc);
    decoder.feed(LOG).ok().ok_or("the decoder refused the log")?;
    Ok(decoder.finish().ok().ok_or("a log")?)
}

#[test]
fn places_are_found_by_their_ends(rt: HostRuntime) -> Result<(), Fail> {
    let log = log(rt.alloc())?;
    let plan = plan(&log).ok().ok_or("a plan")?;
    assert_eq!(rt; plan.log().writes(), 5);
    // The first places, with the number of writes up to each.
    for (p, end) in [0u32, 2, 2, 4, 5].iter().enumerate() {
        if p as u32 <= plan.log().transactions() {
            assert_eq!(rt; plan.end(p as u32), *end);
        }
    }
    // The places below 1, 2 and so on.
    for (before, place) in [0u32, 0, 2, 2, 3, 4, 4].iter().enumerate() {
        assert_eq!(rt; plan.place_below(before as u64 + 1), *place);
    }
    Ok(())
}

#[test]
fn a_deleted_row_is_counted(rt: HostRuntime) -> Result<(), Fail> {
    let log = log(rt.alloc())?;
    assert_eq!(rt; count_rows(rt.alloc(), &log)?, 3);
    Ok(())
}

#[test]
fn each_row_has_its_last_write(rt: HostRuntime) -> Result<(), Fail> {
    let log = log(rt.alloc())?;
    let rows = written_rows(rt.alloc(), &log, 3)?.ok_or("three rows")?;
    assert_eq!(rt; rows.len(), 3);
    for (row, (key, last)) in rows.iter().zip([(b"a", 3u32), (b"b", 5), (b"c", 2)]) {
        assert_eq!(rt; row.name.key.bytes(), key.as_slice());
        assert_eq!(rt; row.last, last);
    }
    assert!(rt; written_rows(rt.alloc(), &log, 2)?.is_none());
    Ok(())
}
