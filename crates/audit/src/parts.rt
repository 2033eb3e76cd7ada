//! Making the partitions of an account from their logs, when a broker closes.

ghost use Rattle.std.specs.Prelude.{◌≡◌, map, IfOk};
ghost use Rattle.audit.specs.Histories.{part_account};

use crate::account::PartAccount;
use kbytes::{List, NoMemory};
use partlog::PartLog;
use std::alloc::Global;

// A partition's log and history, moved out of its `PartLog`.
fn part_account(part: PartLog) -> PartAccount
    ensures { result ≡ part_account part }
{
    let followers = part.followers();
    let (log, events) = part.into_parts();
    PartAccount {
        followers,
        log,
        events,
    }
}

/// What an account has of these partitions, in their order: each log and its history, moved out of its `PartLog`.
pub fn part_accounts(alloc: Global, parts: List<PartLog>) -> Result<List<PartAccount>, NoMemory>
    ensures { IfOk result (λ accounts. accounts ≡ map part_account parts) }
{
    let mut accounts = List::new(alloc);
    for part in parts.into_vec() {
        accounts.push(part_account(part))?;
    }
    Ok(accounts)
}
