//! The fetches of the load. The frame of the first is made as that of any request, and each other one is written over the last.

ghost use Rattle.std.specs.Prelude.{◌≡◌, ◌<◌, ◌^◌, pos, length, IfOk, OnOk};
ghost use Rattle.storm.specs.Formed.{IsFetchForm, fetch_with, frame_with};
ghost use Rattle.storm.specs.Requests.{fetch_of};
ghost use Rattle.storm.specs.Sendable.{IsSendable};

use crate::asking::{FETCH_VERSION, MOST_FETCHED, MOST_OF_PARTITION, TOPIC, Wish, partition_of};
use crate::frame::first_frame;
use crate::load::MOST_REQUESTS;
use crate::writing_over::{put_i32, put_i64};
use kbytes::{Bytes, List, NoMemory, copied};
use kwire::{Ask, FetchPart, FetchTopic};
use std::alloc::Global;
use std::marker::Model;

/// The bytes of each fetch's frame.
const FRAME: usize = 62;

// Where the fields stand in it that differ from fetch to fetch.
const CORRELATION: usize = 8;

const REPLICA: usize = 14;

const WAIT: usize = 18;

const LEAST: usize = 22;

const PART: usize = 46;

const OFFSET: usize = 50;

/// The frame of the last fetch.
#[derive(Drop)]
pub(crate) struct FetchForm {
    frame: Bytes,
}

impl Model for FetchForm {
    ghost use Rattle.std.specs.Prelude.{ℕ, List};
    ghost use Rattle.storm.specs.Formed.{IsFetchForm};

    ghost Value = { List ℕ };

    ghost view = { λ f. f.frame };

    ghost invariant = { λ f. IsFetchForm f.frame };
}

// Writes the fetch with this number over another one.
fn write_over(frame: &mut [u8], i: u32, wish: Wish)
    requires place { i < MOST_REQUESTS }
    requires wait { wish.wait < 2 ^ 31 }
    requires least { wish.least < 2 ^ 31 }
    requires size { length frame.old ≡ FRAME }
    requires form { IsFetchForm frame.old }
    ensures { frame.new ≡ frame_with i (fetch_of i wish) }
{
    put_i32(&mut *frame, CORRELATION, i as i32);
    put_i32(&mut *frame, REPLICA, wish.replica);
    put_i32(&mut *frame, WAIT, wish.wait as i32);
    put_i32(&mut *frame, LEAST, wish.least as i32);
    put_i32(&mut *frame, PART, partition_of(i));
    put_i64(frame, OFFSET, i64::from(wish.offset));
}

// A fetch of nothing.
fn first_ask(alloc: Global) -> Result<Ask, NoMemory>
    ensures is { IfOk result (λ ask. ask ≡ fetch_with 0 (pos 0) 0 0 0) }
    ensures sendable { OnOk result (IsSendable 0 (fetch_with 0 (pos 0) 0 0 0)) }
{
    let mut parts = List::new(alloc);
    parts.push(FetchPart {
        index: 0,
        offset: 0,
        log_start: -1,
        most: MOST_OF_PARTITION,
    })?;
    let mut topics = List::new(alloc);
    topics.push(FetchTopic {
        name: copied(alloc, TOPIC)?,
        parts,
    })?;
    Ok(Ask::Fetch {
        version: FETCH_VERSION,
        replica: 0,
        max_wait: 0,
        min_bytes: 0,
        max_bytes: MOST_FETCHED,
        isolation: 0,
        topics,
    })
}

impl FetchForm {
    /// The form before the first fetch.
    pub(crate) fn new(alloc: Global) -> Result<FetchForm, NoMemory> {
        Ok(FetchForm {
            frame: first_frame(alloc, first_ask(alloc)?)?,
        })
    }

    /// Writes the fetch with this number over the last one.
    pub(crate) fn write(&mut self, i: u32, wish: Wish)
        requires place { i < MOST_REQUESTS }
        requires wait { wish.wait < 2 ^ 31 }
        requires least { wish.least < 2 ^ 31 }
        ensures { self.new ≡ frame_with i (fetch_of i wish) }
    {
        write_over(self.frame.as_mut_slice(), i, wish);
    }

    /// The frame of the last fetch.
    pub(crate) fn frame(&self) -> &[u8]
        ensures { result.now ≡ self.now }
    {
        self.frame.as_slice()
    }
}
