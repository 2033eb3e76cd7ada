//! `Engine::close` makes the account of a run here, from the histories and from what each session did.

ghost use Rattle.std.specs.Prelude.{◌≡◌, ◌≤◌, [], ◌∷◌, List as Items, length, map, count_by, option_to_list, reverse, IfOk, OnOk};
ghost use Rattle.std.specs.List.{flat_map};
ghost use Rattle.audit.specs.IsLawful.{is_won_by};
ghost use Rattle.audit.specs.Histories.{part_account};
ghost use Rattle.audit.specs.broker.Board.{Waiting, account_of, most_sessions, passes_of, put_before};
ghost use Rattle.audit.specs.Histories.{calls_in};

use crate::desk::Desk;
use audit::{Account, PartAccount, Transcript, part_accounts};
use kbytes::{List, NoMemory};
use kwire::Config;
use partlog::{ClockLog, PartLog};
use std::alloc::Global;

// Adds the list of a session before the passes, which are in reverse order. Sessions after the last named one have no list.
fn put_before(
    alloc: Global,
    passes: &mut List<List<Transcript>>,
    transcript: Option<Transcript>,
) -> Result<(), NoMemory>
    ensures { OnOk result (reverse passes.new ≡ put_before (option_to_list transcript) (reverse passes.old)) }
{
    let Some(transcript) = transcript else {
        if passes.is_empty() {
            return Ok(());
        }
        return passes.push(List::new(alloc));
    };
    let mut pass = List::new(alloc);
    pass.push(transcript)?;
    passes.push(pass)
}

// The passes, the last first.
fn reversed(
    alloc: Global,
    mut passes: List<List<Transcript>>,
) -> Result<List<List<Transcript>>, NoMemory>
    ensures { IfOk result (λ turned. turned ≡ reverse passes) }
{
    let mut turned = List::new(alloc);
    while let Some(pass) = passes.pop() {
        turned.push(pass)?;
    }
    Ok(turned)
}

// One list for each session up to the greatest that a line named.
fn passes_of(alloc: Global, mut desks: List<Desk>) -> Result<List<List<Transcript>>, NoMemory>
    ensures { IfOk result (λ passes. passes ≡ passes_of desks) }
{
    let mut passes = List::new(alloc);
    while let Some(desk) = desks.pop() {
        put_before(alloc, &mut passes, desk.into_transcript())?;
    }
    reversed(alloc, passes)
}

// How many calls of these sessions the one winner completed.
fn won(desks: &[Desk]) -> u64
    requires { length desks.now ≤ most_sessions }
    ensures { result ≡ count_by (is_won_by 0) (flat_map calls_in (passes_of desks.now)) }
{
    let mut count = 0;
    for desk in desks {
        count += desk.completed();
    }
    count
}

// What an account has of the partitions and of the sessions.
struct Books {
    parts: List<PartAccount>,
    passes: List<List<Transcript>>,
    wins: List<u64>,
}

// What is told of these partitions and sessions.
fn take_books(alloc: Global, parts: List<PartLog>, desks: List<Desk>) -> Result<Books, NoMemory>
    requires { length desks ≤ most_sessions }
    ensures parts { IfOk result (λ books. books.parts ≡ map part_account parts) }
    ensures passes { IfOk result (λ books. books.passes ≡ passes_of desks) }
    ensures wins { IfOk result (λ books. books.wins ≡ count_by (is_won_by 0) (flat_map calls_in (passes_of desks)) ∷ []) }
{
    let mut wins = List::new(alloc);
    wins.push(won(desks.as_slice()))?;
    let parts = part_accounts(alloc, parts)?;
    let passes = passes_of(alloc, desks)?;
    Ok(Books {
        parts,
        passes,
        wins,
    })
}

/// The account of a run: the histories, what each session did, and how many calls the one winner completed.
pub fn account(
    alloc: Global,
    config: Config,
    parts: List<PartLog>,
    clock: ClockLog,
    desks: List<Desk>,
) -> Result<Account, NoMemory>
    requires { length desks ≤ most_sessions }
    ensures { (waiting : Items Waiting) → IfOk result (λ account. account ≡ account_of (record {
      config = config;
      parts = parts;
      clock = clock;
      seats = desks;
      waiting = waiting;
    })) }
{
    let Books {
        parts: accounts,
        passes,
        wins,
    } = take_books(alloc, parts, desks)?;
    Ok(Account {
        config,
        parts: accounts,
        clock: clock.into_events(),
        passes,
        wins,
    })
}
