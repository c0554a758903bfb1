//! Makes a row of 65,536 versions, finds one for each of 65,536 stamps, and prints the sum of their
//! `wrote`.
#![tactic(auto)]

use c5_rows::{Change, NoMemory};
use c5_versions::Versions;
use std::alloc::Global;
use std::io;

const COUNT: u64 = 65_536;

fn ascending(alloc: Global) -> Result<Versions, NoMemory> {
    let mut versions = Versions::new(alloc, Change::Gone)?;
    for stamp in 1..COUNT {
        versions.reserve()?;
        versions.insert(stamp, Change::Gone);
    }
    Ok(versions)
}

fn sum_of_found(versions: &Versions) -> u64 {
    let mut sum: u64 = 0;
    for i in 0..COUNT {
        // The factor is odd, so each stamp from 1 on comes once, far from the one before it.
        let stamp = i * 40_503 % COUNT + 1;
        sum += versions.before(stamp).wrote;
    }
    sum
}

fn main(rt: HostRuntime) -> io::Result<()> {
    let Ok(versions) = ascending(rt.alloc()) else {
        return println!(rt; "no memory");
    };
    let sum = sum_of_found(&versions);
    println!(rt; "{sum}")
}
