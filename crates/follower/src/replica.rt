//! A follower's copy of the log of one partition.
ghost use Rattle.std.specs.Prelude.{◌≡◌, ◌≢◌, ◌≤◌, ◌≤ℤ◌, ◌<◌, ◌^◌, ◌++◌, ◌↔◌, ℕ, ℤ, [], pos, length, max, min, IfErr, IfOk, IsErrOf, OnErr};
ghost use Rattle.kwire.specs.declared.config.TheConstants.{MOST_NAME_BYTES};
ghost use Rattle.partlog.specs.declared.part_log.TheConstants.{MOST_LOG_BYTES};
ghost use Rattle.follower.specs.Asking.{IsAskable, asked_frame, request_of};
ghost use Rattle.follower.specs.Copies.{Copy};
ghost use Rattle.follower.specs.Kept.{IsKept};
ghost use Rattle.follower.specs.Logs.{IsLog};
ghost use Rattle.follower.specs.Verdict.{HasTaken, IsRefused, at_least_zero};
ghost use Rattle.follower.specs.declared.fault.TakeFault.{TakeFault as TheFault};
ghost use Rattle.follower.specs.declared.fault.TakeFault.TheVariants.{NoMemory as OutOfMemory};

use crate::batches::check_batches;
use crate::fault::TakeFault;
use crate::told::read_told;
use kbytes::{Bytes, List, NoMemory, copied};
use kwire::codes::NONE;
use kwire::{Ask, FetchPart, FetchTopic, Request, request_bytes};
use partlog::MOST_LOG_BYTES;
use std::alloc::Global;
use std::marker::Model;

/// The version of the fetches, which doesn't tell where logs start.
pub const ASKED_VERSION: i16 = 4;

/// How long a leader may wait for more to copy, in milliseconds.
pub const LONGEST_WAIT: i32 = 500;

/// The most bytes of records that are asked for at a time.
pub const MOST_ASKED: i32 = 1_048_576;

/// A copy of a partition's log, as far as it was copied.
#[derive(Drop)]
pub struct Replica {
    alloc: Global,
    topic: Bytes,
    index: i32,
    id: i32,
    log: Bytes,
    end: u64,
    high: u64,
}

impl Model for Replica {
    ghost use Rattle.follower.specs.Copies.{Copy};
    ghost use Rattle.follower.specs.Kept.{IsKept};

    ghost Value = { Copy };

    ghost view = { λ r. record { topic = r.topic; index = r.index; id = r.id; log = r.log; end = r.end; high = r.high } };

    ghost invariant = { λ r. IsKept (record { topic = r.topic; index = r.index; id = r.id; log = r.log; end = r.end; high = r.high }) };
}

// What a reply brings that may be taken: its records, the number of its batches, and what end and high watermark become.
#[derive(Drop)]
struct Brought<'a> {
    records: &'a [u8],
    count: u32,
    end: u64,
    high: u64,
}

impl Replica {
    /// An empty copy of this partition, for the follower of this number.
    pub fn new(alloc: Global, topic: &[u8], index: i32, id: i32) -> Result<Replica, NoMemory>
        requires topic { length topic.now ≤ MOST_NAME_BYTES }
        requires id { pos 1 ≤ℤ id }
        ensures { IfOk result (λ replica. replica ≡ record { topic = topic.now; index = index; id = id; log = []; end = 0; high = 0 }) }
    {
        Ok(Replica {
            alloc,
            topic: copied(alloc, topic)?,
            index,
            id,
            log: Bytes::new(alloc),
            end: 0,
            high: 0,
        })
    }

    /// The bytes that were copied: whole batches, one after the other, from offset 0 on.
    pub fn log(&self) -> &[u8]
        ensures bytes { result.now ≡ self.now.log }
        ensures batches { IsLog result.now self.now.end }
        ensures most { length result.now ≤ MOST_LOG_BYTES }
    {
        self.log.as_slice()
    }

    /// The offset after the last record that was copied.
    pub fn end(&self) -> u64
        ensures end { result ≡ self.now.end }
        ensures within { result ≤ length self.now.log }
    {
        self.end
    }

    /// The high watermark, as far as it was told and is within the copy.
    pub fn high(&self) -> u64
        ensures high { result ≡ self.now.high }
        ensures within { result ≤ self.now.end }
    {
        self.high
    }

    // The request with which it asks for what follows its end.
    fn request(&self, correlation: i32) -> Result<Request, NoMemory>
        ensures request { IfOk result (λ request. request ≡ request_of self.now correlation) }
        ensures fits { IsAskable self.now correlation }
    {
        let mut parts = List::new(self.alloc);
        parts.push(FetchPart {
            index: self.index,
            offset: self.end as i64,
            log_start: -1,
            most: MOST_ASKED,
        })?;
        let name = copied(self.alloc, self.topic.as_slice())?;
        let mut topics = List::new(self.alloc);
        topics.push(FetchTopic { name, parts })?;
        Ok(Request {
            correlation,
            client: None,
            ask: Ask::Fetch {
                version: ASKED_VERSION,
                replica: self.id,
                max_wait: LONGEST_WAIT,
                min_bytes: 1,
                max_bytes: MOST_ASKED,
                isolation: 0,
                topics,
            },
        })
    }

    /// The frame of a request for what follows its end, with this correlation id: the leader may wait half a second for a first byte, and
    /// is to send at most a mebibyte, but a whole batch.
    #[tactic(auto, unfolding(crate::specs::Asking::asked_frame))]
    pub fn ask(&self, correlation: i32) -> Result<Bytes, NoMemory>
        ensures { IfOk result (λ frame. frame ≡ asked_frame self.now correlation) }
    {
        let request = self.request(correlation)?;
        request_bytes(self.alloc, &request)
    }

    // What the body of a reply brings, or why nothing of it may be taken.
    fn examine<'a>(&self, correlation: i32, body: &'a [u8]) -> Result<Brought<'a>, TakeFault>
        ensures brought { IfOk result (λ b. HasTaken self.now correlation body.now b.count
            (record self.now { log = self.now.log ++ b.records.now; end = b.end; high = b.high })) }
        ensures kept { IfOk result (λ b. IsKept (record self.now { log = self.now.log ++ b.records.now; end = b.end; high = b.high })) }
        ensures refused { IfErr result (IsRefused self.now correlation body.now) }
    {
        let told = match read_told(correlation, self.topic.as_slice(), self.index, body) {
            Ok(told) => told,
            Err(at) => return Err(TakeFault::BadReply { at }),
        };
        if told.code != NONE {
            return Err(TakeFault::Refused { code: told.code });
        }
        let checked = match check_batches(told.records, self.end, body.len()) {
            Ok(checked) => checked,
            Err(fault) => return Err(fault),
        };
        if told.records.len() > MOST_LOG_BYTES - self.log.len() {
            return Err(TakeFault::ReplicaFull);
        }
        Ok(Brought {
            records: told.records,
            count: checked.count,
            end: checked.end,
            high: self.high.max(at_least_zero(told.high).min(checked.end)),
        })
    }

    /// Takes the batches of a reply, whose body this is, to the request with this correlation id, and answers how many there were. After a
    /// refusal the copy is as it was.
    pub fn take(&mut self, correlation: i32, body: &[u8]) -> Result<u32, TakeFault>
        ensures taken { IfOk result (λ count. HasTaken self.old correlation body.now count self.new) }
        ensures refused { (fault : TheFault) → fault ≢ OutOfMemory → (IsErrOf result fault ↔ IsRefused self.old correlation body.now fault) }
        ensures memory { IsErrOf result OutOfMemory → (count : ℕ) × (new : Copy) × HasTaken self.old correlation body.now count new }
        ensures unchanged { OnErr result (self.new ≡ self.old) }
    {
        let brought = match self.examine(correlation, body) {
            Ok(brought) => brought,
            Err(fault) => return Err(fault),
        };
        let Ok(()) = self.log.extend(brought.records) else {
            return Err(TakeFault::NoMemory);
        };
        self.end = brought.end;
        self.high = brought.high;
        Ok(brought.count)
    }
}

// A number, and 0 for one below 0.
fn at_least_zero(number: i64) -> u64
    ensures { result ≡ at_least_zero number }
{
    if number < 0 { 0 } else { number as u64 }
}
