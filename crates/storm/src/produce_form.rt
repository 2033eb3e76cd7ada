//! The produces of the load. The frame of the first is made as that of any request, and each other one is written over the last.

ghost use Rattle.std.specs.Prelude.{◌≡◌, ◌<◌, ◌+◌, ◌-◌, ◌^◌, ◌++◌, ℕ, [], ◌∷◌, List as Items, length, take, drop, pos, IfOk};
ghost use Rattle.kbatch.specs.Written.{written};
ghost use Rattle.storm.specs.Formed.{IsFormed, IsProduceForm, frame_with, produce_with};
ghost use Rattle.storm.specs.Requests.{value_of, record_of, produce_of};

use crate::asking::{DIGITS, PRODUCE_VERSION, TOPIC, partition_of};
use crate::frame::first_frame;
use crate::load::MOST_REQUESTS;
use crate::writing_over::{put_i16, put_i32, put_u32};
use itoa::Buffer;
use kbatch::{Record, crc32c, write_batch};
use kbytes::{Bytes, List, NoMemory, copied};
use kwire::{Ask, ProducePart, ProduceTopic};
use std::alloc::Global;
use std::marker::Model;
use std::slice;

/// The bytes of each produce's frame.
const FRAME: usize = 129;

// Where the fields stand in it that differ from produce to produce.
const CORRELATION: usize = 8;

const ACKS: usize = 16;

const TIMEOUT: usize = 18;

const PART: usize = 37;

/// Where the batch stands, which has the rest of the bytes.
const BATCH: usize = 45;

// Where the crc stands in a batch, where the bytes begin that it covers, and where the value of the one record stands.
const CRC: usize = 17;

const COVERED: usize = 21;

const VALUE: usize = 67;

const ZEROS: [u8; DIGITS] = [b'0'; DIGITS];

/// The frame of the last produce.
#[derive(Drop)]
pub(crate) struct ProduceForm {
    frame: Bytes,
}

impl Model for ProduceForm {
    ghost use Rattle.std.specs.Prelude.{ℕ, List};
    ghost use Rattle.storm.specs.Formed.{IsProduceForm};

    ghost Value = { List ℕ };

    ghost view = { λ f. f.frame };

    ghost invariant = { λ f. IsProduceForm f.frame };
}

// Writes the number's digits over a value, with zeros before them.
fn put_digits(value: &mut [u8], i: u32)
    requires { length value.old ≡ DIGITS }
    ensures { value.new ≡ value_of i }
{
    let mut buffer = Buffer::new();
    let digits = buffer.format(i).as_bytes();
    value.copy_from_slice(&ZEROS);
    value[DIGITS - digits.len()..].copy_from_slice(digits);
}

// Writes the value of the record with this number into a batch.
fn put_value(batch: &mut [u8], i: u32)
    requires { length batch.old ≡ FRAME - BATCH }
    ensures { batch.new ≡ take VALUE batch.old ++ (value_of i ++ drop (VALUE + DIGITS) batch.old) }
{
    put_digits(&mut batch[VALUE..VALUE + DIGITS], i);
}

// Makes the batch that of the record with this number.
fn write_batch_over(batch: &mut [u8], i: u32)
    requires place { i < MOST_REQUESTS }
    requires form { IsFormed batch.old }
    ensures { batch.new ≡ written (record_of i ∷ []) }
{
    put_value(&mut *batch, i);
    let (_, covered) = batch.split_at(COVERED);
    let crc = crc32c(covered);
    put_u32(batch, CRC, crc);
}

// Writes the produce with this number over another one.
fn write_over(frame: &mut [u8], i: u32, acks: i16, timeout: u32)
    requires place { i < MOST_REQUESTS }
    requires timeout { timeout < 2 ^ 31 }
    requires size { length frame.old ≡ FRAME }
    requires form { IsProduceForm frame.old }
    ensures { frame.new ≡ frame_with i (produce_of i acks timeout) }
{
    put_i32(&mut *frame, CORRELATION, i as i32);
    put_i16(&mut *frame, ACKS, acks);
    put_i32(&mut *frame, TIMEOUT, timeout as i32);
    put_i32(&mut *frame, PART, partition_of(i));
    write_batch_over(&mut frame[BATCH..FRAME], i);
}

// A batch that the first one is written over.
fn formed_batch(alloc: Global) -> Result<Bytes, NoMemory>
    ensures { IfOk result IsFormed }
{
    let record = Record {
        attributes: 0,
        time: 0,
        key: None,
        value: Some(copied(alloc, &ZEROS)?),
        headers: List::new(alloc),
    };
    match write_batch(alloc, slice::from_ref(&record)) {
        Ok(batch) => Ok(batch.into_bytes()),
        // One short record always fits a batch.
        Err(_) => Err(NoMemory),
    }
}

// A produce of such a batch.
fn first_ask(alloc: Global) -> Result<Ask, NoMemory>
    ensures { IfOk result (λ ask. (batch : Items ℕ) × IsFormed batch × (ask ≡ produce_with batch 0 (pos 0) 0)) }
{
    let mut parts = List::new(alloc);
    parts.push(ProducePart {
        index: 0,
        records: Some(formed_batch(alloc)?),
    })?;
    let mut topics = List::new(alloc);
    topics.push(ProduceTopic {
        name: copied(alloc, TOPIC)?,
        parts,
    })?;
    Ok(Ask::Produce {
        version: PRODUCE_VERSION,
        transactional: None,
        acks: 0,
        timeout: 0,
        topics,
    })
}

impl ProduceForm {
    /// The form before the first produce.
    pub(crate) fn new(alloc: Global) -> Result<ProduceForm, NoMemory> {
        Ok(ProduceForm {
            frame: first_frame(alloc, first_ask(alloc)?)?,
        })
    }

    /// Writes the produce with this number over the last one.
    pub(crate) fn write(&mut self, i: u32, acks: i16, timeout: u32)
        requires place { i < MOST_REQUESTS }
        requires timeout { timeout < 2 ^ 31 }
        ensures { self.new ≡ frame_with i (produce_of i acks timeout) }
    {
        write_over(self.frame.as_mut_slice(), i, acks, timeout);
    }

    /// The frame of the last produce.
    pub(crate) fn frame(&self) -> &[u8]
        ensures { result.now ≡ self.now }
    {
        self.frame.as_slice()
    }
}
