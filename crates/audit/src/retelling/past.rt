//! What a partition was at each place of its history. Replies are computed from these pasts.

ghost use Rattle.std.specs.Prelude.{◌≡◌, ◌≤◌, ◌+◌, ◌-◌, ◌||◌, nat_lt, filter, map, if◌then◌else◌, OnOk, OnErr, IfOk};
ghost use Rattle.partlog.specs.declared.part_log.TheConstants.{MOST_LOG_BYTES};
ghost use Rattle.partlog.specs.Gauges.{numbers_of};
ghost use Rattle.partlog.specs.Kept.{IsKept};
ghost use Rattle.partlog.specs.Start.{start_of};
ghost use Rattle.partlog.specs.State.{state_before, state_at};
ghost use Rattle.partlog.specs.Taken.{batches_past, joined, taken};
ghost use Rattle.kanswer.specs.Answer.{is_readable};
ghost use Rattle.kanswer.specs.Waiting.{is_consumer};
ghost use Rattle.audit.specs.Histories.{history_of};
ghost use Rattle.audit.specs.IsLawful.{IsLawful};
ghost use Rattle.audit.specs.retelling.Playable.{IsPlayable};

use crate::retelling::playing::play;
use crate::{Account, PartAccount};
use kanswer::Budget;
use kbytes::{List, NoMemory};
use kwire::MOST_PARTITIONS;
use partlog::{Numbers, PartLog, numbers_never_fall, visible_is_readable};
use std::alloc::Global;
use std::marker::Model;

/// A partition's whole history, and its numbers before each entry and at the end. A contract sees the history.
#[derive(Drop)]
pub struct Past {
    log: PartLog,
    numbers: List<Numbers>,
}

impl Model for Past {
    ghost use Rattle.std.specs.Prelude.{◌≡◌, ◌+◌, length};
    ghost use Rattle.partlog.specs.History.{History};
    ghost use Rattle.audit.specs.retelling.NumbersUpTo.{numbers_upto};

    ghost Value = { History };

    ghost view = { λ p. p.log };

    ghost invariant = { λ p. p.numbers ≡ numbers_upto p.log (length p.log.events + 1) };
}

/// An entry of a partition's history, by its place.
#[derive(Clone, Copy)]
pub(crate) struct PastEntry<'a> {
    pub(crate) past: &'a Past,
    pub(crate) place: u64,
}

// The place in the log's bytes up to which this replica may read.
fn upto(replica: i32, numbers: &Numbers) -> u64
    ensures { result ≡ (if is_consumer replica then numbers.now.visible else numbers.now.bytes) }
{
    if replica < 0 {
        numbers.visible
    } else {
        numbers.bytes
    }
}

impl Past {
    /// The past of a partition, entry by entry.
    pub fn of(alloc: Global, part: &PartAccount) -> Result<Past, NoMemory>
        requires { IsPlayable (history_of part.now) }
        ensures { IfOk result (λ past. past ≡ history_of part.now) }
    {
        let mut log = PartLog::new(alloc, part.followers)?;
        let mut numbers = List::new(alloc);
        numbers.push(log.numbers())?;
        for place in 0..part.events.len() {
            play(&mut log, part, place)?;
            numbers.push(log.numbers())?;
        }
        Ok(Past { log, numbers })
    }

    /// The numbers before the entry at a place, and after the last entry those of the whole history. It takes no memory.
    pub fn before(&self, place: u64) -> Numbers
        ensures numbers { result ≡ numbers_of (state_before self.now place) }
        ensures end { result.end ≤ MOST_LOG_BYTES }
        ensures high { result.high ≤ MOST_LOG_BYTES }
        ensures bytes { result.bytes ≤ MOST_LOG_BYTES }
        ensures kept { IsKept self.now.log self.now.events }
    {
        numbers_never_fall();
        let whole = self.log.numbers();
        match self.numbers.get(place as usize) {
            Some(numbers) => *numbers,
            None => whole,
        }
    }

    /// The place in the log's bytes at which reading from an offset began before the entry at a place. It takes no memory.
    pub fn start_before(&self, place: u64, offset: u64) -> u64
        requires { offset ≤ (state_before self.now place).log_end }
        ensures { result ≡ start_of offset (state_before self.now place) }
    {
        self.log.locate(offset)
    }

    /// The numbers just after the entry at a place, and after the last entry those of the whole history. It takes no memory.
    pub fn at(&self, place: u64) -> Numbers
        ensures numbers { result ≡ numbers_of (state_at self.now place) }
        ensures high { result.high ≤ MOST_LOG_BYTES }
        ensures bytes { result.bytes ≤ MOST_LOG_BYTES }
        ensures kept { IsKept self.now.log self.now.events }
    {
        numbers_never_fall();
        let whole = self.log.numbers();
        let later = &self.numbers.as_slice()[1..];
        match later.get(place as usize) {
            Some(numbers) => *numbers,
            None => whole,
        }
    }

    /// The bytes that this replica could read just after the entry at a place, from `start` in the log's bytes on: whole batches, as
    /// many from the first on as fit into the budget, and the first one whatever its length unless the reply holds a batch already. It
    /// takes no memory.
    pub fn readable_at(&self, place: u64, replica: i32, start: u64, budget: Budget) -> &[u8]
        ensures { let state = state_at self.now place in
            result.now ≡ joined (taken budget.left budget.any (filter (is_readable replica state) (batches_past start state.batches))) }
    {
        visible_is_readable();
        let upto = upto(replica, &self.at(place));
        self.log.read(start, upto, budget.left, !budget.any)
    }
}

/// The past of each partition of an account.
pub fn pasts_of(alloc: Global, account: &Account) -> Result<List<Past>, NoMemory>
    requires { IsLawful account.now }
    ensures { IfOk result (λ pasts. pasts ≡ map history_of account.now.parts) }
{
    // few enough partitions that none has the clock's number
    prove!(account.config.parts() <= MOST_PARTITIONS);
    let mut pasts = List::new(alloc);
    for part in account.parts.as_slice() {
        pasts.push(Past::of(alloc, part)?)?;
    }
    Ok(pasts)
}
