//! The bodies of generated scripts.

ghost use Rattle.std.specs.Prelude.{◌≡◌, ◌<◌, ◌≤◌, IfOk};
ghost use Rattle.c5_definitions.specs.Generated.{opening_body, transfer_body, account_count};

use crate::accounts::{ACCOUNT_COUNT, account_row, opening_row};
use crate::draws::Move;
use c5_rows::NoMemory;
use c5_script::{Body, Rel, Statement};
use std::alloc::Global;

/// Each account gets its first balance.
pub(crate) fn opening(alloc: Global) -> Result<Body, NoMemory>
    ensures { IfOk result (λ body. body ≡ opening_body) }
{
    let row = opening_row();
    let mut body = Body::new(alloc);
    for number in 0..ACCOUNT_COUNT {
        let name = account_row(number);
        body.push(Statement::Put { name, row })?;
    }
    Ok(body)
}

/// The amount moves if the first account has it; otherwise the transaction declines.
pub(crate) fn transfer(alloc: Global, moved: Move) -> Result<Body, NoMemory>
    requires from { moved.from < account_count }
    requires to { moved.to < account_count }
    requires amount { moved.amount ≤ 100 }
    ensures { IfOk result (λ body. body
        ≡ transfer_body (record { from = moved.from; to = moved.to; amount = moved.amount })) }
{
    let amount = moved.amount as i64;
    let mut body = Body::new(alloc);
    body.push(Statement::Need {
        name: account_row(moved.from),
        col: 0,
        rel: Rel::Ge,
        n: amount,
    })?;
    body.push(Statement::Add {
        name: account_row(moved.from),
        col: 0,
        n: -amount,
    })?;
    body.push(Statement::Add {
        name: account_row(moved.to),
        col: 0,
        n: amount,
    })?;
    Ok(body)
}
