//! The log of one partition with its history. A broker appends to it, reads it, enters each fetch and each look, and takes
//! followers out of the in-sync set that lag; `search` finds batches in it.

ghost use Rattle.std.specs.Prelude.{◌≡◌, ◌↔◌, ◌+◌, ◌<◌, ◌≤◌, ℕ, pos, [], ◌++◌, length, not, IfOk, IfSome, IfNone, OnOk, OnErr, IsTrue, IsErrOf};
ghost use Rattle.std.specs.Bool.{OnTrue, OnFalse};
ghost use Rattle.partlog.specs.in_sync.Lagging.{Lags};
ghost use Rattle.kbatch.specs.Head.{head_size};
ghost use Rattle.kbatch.specs.Stamp.{stamped};
ghost use Rattle.partlog.specs.Follower.{IsFollower};
ghost use Rattle.partlog.specs.InRange.{IsInRange};

use crate::batch_start::BatchStart;
use crate::event::PartEvent;
use crate::fault::{FollowFault, LogFault};
use crate::in_sync::InSync;
use crate::numbers::Numbers;
use crate::placed::Placed;
use crate::search::{numbers_at, start_from, start_of, taken_end};
use crate::who::Who;
use kbatch::{Batch, BatchView, stamp};
use kbytes::{Bytes, List, NoMemory};
use std::alloc::Global;
use std::marker::Model;

/// The most bytes that a log may have.
pub const MOST_LOG_BYTES: usize = 67_108_864;

/// One partition's log and its history.
#[derive(Drop)]
pub struct PartLog {
    log: Bytes,
    followers: u32,
    events: List<PartEvent>,
    /// Where each batch begins.
    starts: Vec<BatchStart>,
    /// How the replicas stand by the history.
    replicas: InSync,
    numbers: Numbers,
}

impl Model for PartLog {
    ghost use Rattle.partlog.specs.History.{History};

    ghost Value = { History };

    ghost use Rattle.partlog.specs.Tracked.{IsTracked};

    ghost view = { λ p. record { log = p.log; followers = p.followers; events = p.events } };

    ghost invariant = { λ p. IsTracked p.log p.followers p.events p.starts.items p.replicas p.numbers };
}

/// The replica, where it is one of that many followers, which are numbered from 1.
fn follower_of(replica: i32, followers: u32) -> Option<u32>
    ensures follower { IfSome result (λ number. (replica ≡ pos number) × (0 < number) × (number ≤ followers)) }
    ensures no_replica { IfNone result (IsFollower replica followers → ⊥) }
{
    if replica < 1 || replica as u32 > followers {
        return None;
    }
    Some(replica as u32)
}

/// The offset, where it is between 0 and the log end.
fn offset_within(offset: i64, end: u64) -> Option<u64>
    ensures within { IfSome result (λ at. (offset ≡ pos at) × (at ≤ end)) }
    ensures outside { IfNone result (IsInRange offset end → ⊥) }
{
    if offset < 0 || offset as u64 > end {
        return None;
    }
    Some(offset as u64)
}

/// Appends a batch's bytes to a log, stamped with this base offset. They are copied once.
fn put_stamped(log: &mut Bytes, bytes: &[u8], base: u64) -> Result<(), NoMemory>
    requires { head_size ≤ length bytes.now }
    ensures put { OnOk result (log.new ≡ log.old ++ stamped base bytes.now) }
    ensures size { OnOk result (length log.new ≡ length log.old + length bytes.now) }
    ensures refused { OnErr result (log.new ≡ log.old) }
{
    let start = log.len();
    log.extend(bytes)?;
    stamp(&mut log.as_mut_slice()[start..], base);
    Ok(())
}

impl PartLog {
    ghost use Rattle.partlog.specs.Added.{log_end_of, bytes_of};
    ghost use Rattle.partlog.specs.Appended.{appended};
    ghost use Rattle.partlog.specs.Boundary.{IsBoundary};
    ghost use Rattle.partlog.specs.Followed.{followed};
    ghost use Rattle.partlog.specs.Gauges.{numbers_of};
    ghost use Rattle.partlog.specs.Kept.{IsKept};
    ghost use Rattle.partlog.specs.Lagging.{LagsAt, IsLeastLate, NoneLags, LeftLate};
    ghost use Rattle.partlog.specs.Looked.{looked};
    ghost use Rattle.partlog.specs.Replicas.{replica_events};
    ghost use Rattle.partlog.specs.Shrunk.{shrunk, all_shrunk, some_shrunk};
    ghost use Rattle.partlog.specs.Start.{start_of};
    ghost use Rattle.partlog.specs.State.{state_of};
    ghost use Rattle.partlog.specs.declared.part_log.TheConstants.{MOST_LOG_BYTES};
    ghost use Rattle.partlog.specs.Taken.{batches_past, batches_upto, joined, taken};

    /// An empty log with that many followers. There is no memory for more than `i32::MAX` of them.
    pub fn new(alloc: Global, followers: u32) -> Result<PartLog, NoMemory>
        ensures empty { IfOk result (λ part. part ≡ record { log = []; followers = followers; events = [] }) }
        ensures kept { IfOk result (λ part. IsKept part.log part.events) }
    {
        if followers > i32::MAX as u32 {
            return Err(NoMemory);
        }
        Ok(PartLog {
            log: Bytes::new(alloc),
            followers,
            events: List::new(alloc),
            starts: Vec::new(alloc),
            replicas: InSync::new(alloc, followers)?,
            numbers: Numbers {
                end: 0,
                high: 0,
                visible: 0,
                bytes: 0,
                insync: followers + 1,
            },
        })
    }

    /// Appends a batch, with the log end as its base offset and leader epoch 0, and enters it. Its bytes are copied once,
    /// into the log. It answers the base offset and the place of the entry, or `LogFull` exactly where the log would have
    /// more than `MOST_LOG_BYTES`. After a refusal the log is as it was.
    pub fn append_view(&mut self, who: Who, batch: &BatchView<'_>) -> Result<Placed, LogFault>
        ensures appended { OnOk result (self.new ≡ appended self.old who.by who.seq batch.now) }
        ensures base { IfOk result (λ placed. placed.base ≡ log_end_of self.old.events) }
        ensures limit { IfOk result (λ placed. placed.base ≤ MOST_LOG_BYTES) }
        ensures place { IfOk result (λ placed. placed.place ≡ length self.old.events) }
        ensures full { IsErrOf result LogFault.LogFull ↔ (MOST_LOG_BYTES < length self.old.log + length batch.now) }
        ensures refused { OnErr result (self.new ≡ self.old) }
        ensures was_kept { IsKept self.old.log self.old.events }
        ensures kept { IsKept self.new.log self.new.events }
    {
        let bytes = batch.bytes();
        let count = batch.count();
        let start = self.log.len();
        if bytes.len() > MOST_LOG_BYTES - start {
            return Err(LogFault::LogFull);
        }
        if self.starts.reserve(1).is_err() {
            return Err(LogFault::NoMemory);
        }
        let place = self.events.len() as u64;
        self.events.push(PartEvent::Append {
            by: who.by,
            seq: who.seq,
            count,
            len: bytes.len() as u32,
        })?;
        let base = self.numbers.end;
        if put_stamped(&mut self.log, bytes, base).is_err() {
            self.events.pop();
            return Err(LogFault::NoMemory);
        }
        let first = BatchStart {
            base,
            place: start as u64,
        };
        self.starts.push(first).unwrap();
        self.replicas.append(count);
        let next = BatchStart {
            base: base + u64::from(count),
            place: self.log.len() as u64,
        };
        self.numbers = numbers_at(self.starts.as_slice(), next, &self.replicas);
        Ok(Placed { base, place })
    }

    /// The same for an owned batch.
    pub fn append(&mut self, who: Who, batch: &Batch) -> Result<Placed, LogFault>
        ensures appended { OnOk result (self.new ≡ appended self.old who.by who.seq batch.now) }
        ensures base { IfOk result (λ placed. placed.base ≡ log_end_of self.old.events) }
        ensures limit { IfOk result (λ placed. placed.base ≤ MOST_LOG_BYTES) }
        ensures place { IfOk result (λ placed. placed.place ≡ length self.old.events) }
        ensures full { IsErrOf result LogFault.LogFull ↔ (MOST_LOG_BYTES < length self.old.log + length batch.now) }
        ensures refused { OnErr result (self.new ≡ self.old) }
        ensures was_kept { IsKept self.old.log self.old.events }
        ensures kept { IsKept self.new.log self.new.events }
    {
        self.append_view(who, &batch.view())
    }

    /// Enters a follower's fetch from an offset, at this moment in milliseconds. It answers the place of the entry, or
    /// `NoReplica` exactly where the replica isn't one of the followers, or else `OutOfRange` exactly where the offset is
    /// below 0 or above the log end. After a refusal the log is as it was.
    pub fn follow(
        &mut self,
        who: Who,
        replica: i32,
        offset: i64,
        t: u64,
    ) -> Result<u64, FollowFault>
        ensures followed { OnOk result ((at : ℕ) × (offset ≡ pos at)
            × (self.new ≡ followed self.old who.by who.seq replica at t)) }
        ensures place { IfOk result (λ place. place ≡ length self.old.events) }
        ensures no_replica { IsErrOf result FollowFault.NoReplica ↔ (IsFollower replica self.old.followers → ⊥) }
        ensures out_of_range { (end : ℕ) → IsErrOf result (FollowFault.OutOfRange end)
            ↔ (IsFollower replica self.old.followers × (IsInRange offset (log_end_of self.old.events) → ⊥)
            × (end ≡ log_end_of self.old.events)) }
        ensures refused { OnErr result (self.new ≡ self.old) }
        ensures was_kept { IsKept self.old.log self.old.events }
        ensures kept { IsKept self.new.log self.new.events }
    {
        let Some(follower) = follower_of(replica, self.followers) else {
            return Err(FollowFault::NoReplica);
        };
        let log_end = self.numbers.end;
        let Some(offset) = offset_within(offset, log_end) else {
            return Err(FollowFault::OutOfRange { log_end });
        };
        let place = self.events.len() as u64;
        self.events.push(PartEvent::Follow {
            by: who.by,
            seq: who.seq,
            replica,
            offset,
            t,
        })?;
        self.replicas.fetch(follower, offset, t);
        let next = self.numbers.next_start();
        self.numbers = numbers_at(self.starts.as_slice(), next, &self.replicas);
        Ok(place)
    }

    /// Enters that the log was looked at, and answers the place of the entry. After a refusal the log is as it was.
    pub fn look(&mut self, who: Who) -> Result<u64, NoMemory>
        ensures looked { OnOk result (self.new ≡ looked self.old who.by who.seq) }
        ensures place { IfOk result (λ place. place ≡ length self.old.events) }
        ensures refused { OnErr result (self.new ≡ self.old) }
        ensures was_kept { IsKept self.old.log self.old.events }
        ensures kept { IsKept self.new.log self.new.events }
    {
        let place = self.events.len() as u64;
        self.events.push(PartEvent::Look {
            by: who.by,
            seq: who.seq,
        })?;
        Ok(place)
    }

    /// Takes a follower out of the in-sync set that lags at this moment, and enters that.
    fn leave(&mut self, by: u32, replica: u32, t: u64) -> Result<(), NoMemory>
        requires { Lags self.old.followers (replica_events self.old.events) t replica }
        ensures shrunk { OnOk result (self.new ≡ shrunk self.old by (pos replica) t) }
        ensures refused { OnErr result (self.new ≡ self.old) }
        ensures late { LeftLate self.new.followers self.new.events }
    {
        self.events.push(PartEvent::Shrink {
            by,
            replica: replica as i32,
            t,
        })?;
        self.replicas.leave(replica, t);
        let next = self.numbers.next_start();
        self.numbers = numbers_at(self.starts.as_slice(), next, &self.replicas);
        Ok(())
    }

    /// Takes the least of the followers out of the in-sync set that lag at this moment, in milliseconds, and answers true; or
    /// answers false exactly where none lags, and changes nothing. After a refusal the log is as it was.
    pub fn shrink(&mut self, by: u32, t: u64) -> Result<bool, NoMemory>
        ensures left { IfOk result (λ left. OnTrue left ((replica : ℕ)
            × IsLeastLate self.old.followers self.old.events t replica
            × (self.new ≡ shrunk self.old by (pos replica) t))) }
        ensures none { IfOk result (λ left. OnFalse left (NoneLags self.old.followers self.old.events t
            × (self.new ≡ self.old))) }
        ensures refused { OnErr result (self.new ≡ self.old) }
        ensures was_kept { IsKept self.old.log self.old.events }
        ensures kept { IsKept self.new.log self.new.events }
        ensures late { LeftLate self.new.followers self.new.events }
    {
        let Some(replica) = self.replicas.lagging(t) else {
            return Ok(false);
        };
        self.leave(by, replica, t)?;
        Ok(true)
    }

    /// Takes all followers out of the in-sync set that lag at this moment, in milliseconds, the least first. After a refusal
    /// some of the first of them may have been taken out.
    pub fn shrink_all(&mut self, by: u32, t: u64) -> Result<(), NoMemory>
        ensures all { OnOk result (self.new ≡ all_shrunk self.old by t) }
        ensures none_lags { OnOk result (NoneLags self.new.followers self.new.events t) }
        ensures some { OnErr result ((n : ℕ) × (self.new ≡ some_shrunk n self.old by t)) }
        ensures kept { IsKept self.new.log self.new.events }
        ensures late { LeftLate self.new.followers self.new.events }
    {
        while self.shrink(by, t)? {}
        Ok(())
    }

    /// Takes this replica out of the in-sync set and answers true exactly where it is a follower that lags at this moment, in
    /// milliseconds. Else it answers false and changes nothing. After a refusal the log is as it was.
    pub fn take_out(&mut self, by: u32, replica: i32, t: u64) -> Result<bool, NoMemory>
        ensures lags { IfOk result (λ out. IsTrue out ↔ LagsAt self.old.followers self.old.events t replica) }
        ensures out { IfOk result (λ out. OnTrue out (self.new ≡ shrunk self.old by replica t)) }
        ensures as_before { IfOk result (λ out. OnFalse out (self.new ≡ self.old)) }
        ensures refused { OnErr result (self.new ≡ self.old) }
        ensures was_kept { IsKept self.old.log self.old.events }
        ensures kept { IsKept self.new.log self.new.events }
        ensures late { LeftLate self.new.followers self.new.events }
    {
        if replica < 0 || !self.replicas.lags(replica as u32, t) {
            return Ok(false);
        }
        self.leave(by, replica as u32, t)?;
        Ok(true)
    }

    /// The byte place of the first batch whose last offset is at least this one, or the log's length where there is none.
    /// It takes no memory.
    pub fn locate(&self, offset: u64) -> u64
        ensures start { result ≡ start_of offset (state_of self.now) }
        ensures within { result ≤ length self.now.log }
        ensures boundary { IsBoundary result (state_of self.now).batches }
        ensures kept { IsKept self.now.log self.now.events }
    {
        start_of(self.starts.as_slice(), self.numbers.next_start(), offset)
    }

    /// The bytes of whole batches. Of those that begin at or after the byte place `from` and end at or before the byte place
    /// `upto`, it takes as many as have at most `limit` bytes together, from the first on. Where not even the first fits,
    /// `force` takes that one. It takes no memory.
    pub fn read(&self, from: u64, upto: u64, limit: u64, force: bool) -> &[u8]
        ensures bytes { result.now ≡ joined (taken limit (not force)
            (batches_past from (batches_upto upto (state_of self.now).batches))) }
        ensures kept { IsKept self.now.log self.now.events }
    {
        let starts = self.starts.as_slice();
        let next = self.numbers.next_start();
        let start = start_from(starts, next, from);
        let end = taken_end(starts, next, start, upto, limit, force);
        &self.log.as_slice()[start as usize..end as usize]
    }

    /// The log's bytes: those of the batches that were appended, and nothing after them.
    pub fn log(&self) -> &[u8]
        ensures bytes { result.now ≡ self.now.log }
        ensures whole { bytes_of self.now.events ≡ length result.now }
        ensures kept { IsKept self.now.log self.now.events }
    {
        self.log.as_slice()
    }

    /// The number of the partition's followers.
    pub fn followers(&self) -> u32
        ensures { result ≡ self.now.followers }
    {
        self.followers
    }

    /// The log end and the gauges, each at most `MOST_LOG_BYTES`. It takes no memory.
    pub fn numbers(&self) -> Numbers
        ensures numbers { result ≡ numbers_of (state_of self.now) }
        ensures end { result.end ≤ MOST_LOG_BYTES }
        ensures high { result.high ≤ result.end }
        ensures visible { result.visible ≤ result.bytes }
        ensures boundary { IsBoundary result.visible (state_of self.now).batches }
        ensures bytes { result.bytes ≤ MOST_LOG_BYTES }
        ensures all { result.bytes ≡ length self.now.log }
        ensures kept { IsKept self.now.log self.now.events }
        ensures late { LeftLate self.now.followers self.now.events }
    {
        self.numbers
    }

    /// The history.
    pub fn events(&self) -> &[PartEvent]
        ensures { result.now ≡ self.now.events }
    {
        self.events.as_slice()
    }

    /// Gives the log's bytes and the history away as they are. It takes no memory.
    pub fn into_parts(self) -> (Bytes, List<PartEvent>)
        ensures log { result.0 ≡ self.log }
        ensures events { result.1 ≡ self.events }
        ensures kept { IsKept self.log self.events }
        ensures late { LeftLate self.followers self.events }
    {
        (self.log, self.events)
    }
}
