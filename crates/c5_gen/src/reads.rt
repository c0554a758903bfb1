//! The read blocks of generated scripts.

ghost use Rattle.std.specs.Prelude.{◌≡◌, ◌≤◌, IfOk};
ghost use Rattle.c5_rows.specs.Sizes.{max_sessions};
ghost use Rattle.c5_definitions.specs.Generated.{sum_from, read_all_by};

use crate::accounts::key_of_account;
use c5_definitions::Keys;
use c5_rows::NoMemory;
use c5_script::{ReadBlock, ReadLine};
use std::alloc::Global;

/// How many accounts a line sums over.
const ACCOUNTS_OF_SUM: u32 = 16;

// The sum over 16 accounts.
fn sum_line(first: u32) -> ReadLine
    requires { first ≤ 48 }
    ensures { result ≡ sum_from first }
{
    let mut keys = Keys::one(key_of_account(first));
    for next in 1..ACCOUNTS_OF_SUM {
        keys.push(key_of_account(first + next));
    }
    ReadLine::SumOf {
        table: 0,
        col: 0,
        keys,
    }
}

/// All accounts, in four sums.
pub(crate) fn read_by(alloc: Global, session: u32) -> Result<ReadBlock, NoMemory>
    requires some { 1 ≤ session }
    requires few { session ≤ max_sessions }
    ensures { IfOk result (λ read. read ≡ read_all_by session) }
{
    let mut read = ReadBlock::new(alloc, session, sum_line(0))?;
    read.push(sum_line(ACCOUNTS_OF_SUM))?;
    read.push(sum_line(2 * ACCOUNTS_OF_SUM))?;
    read.push(sum_line(3 * ACCOUNTS_OF_SUM))?;
    Ok(read)
}
