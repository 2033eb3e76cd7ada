//! The owned batch, for clients and tests. The broker works on a `BatchView` instead; `PartLog` takes either.

ghost use Rattle.std.specs.Prelude.{◌≡◌, ◌<◌, ◌≤◌, ◌^◌, List, length, IfOk};
ghost use Rattle.kbatch.specs.declared.record.Record.{Record};
ghost use Rattle.kbatch.specs.Head.{head_size};
ghost use Rattle.kbatch.specs.Batch.{IsBatch, most_bytes};
ghost use Rattle.kbatch.specs.Kept.{count_of};
ghost use Rattle.kbatch.specs.Stamp.{stamped};

use crate::decode::{Stop, records};
use crate::head::HEAD;
use crate::record::Record;
use crate::stamping::stamp;
use crate::view::BatchView;
use kbytes::{Bytes, List as Items, NoMemory};
use std::alloc::Global;
use std::marker::Model;

/// The bytes of a record batch, which were checked when they were read, or were written as one. A contract sees the bytes.
#[derive(Drop)]
pub struct Batch {
    bytes: Bytes,
}

impl Model for Batch {
    ghost use Rattle.std.specs.Prelude.{List, ℕ};
    ghost use Rattle.kbatch.specs.declared.record.Record.{Record};
    ghost use Rattle.kbatch.specs.Batch.{IsBatch};

    ghost Value = { List ℕ };

    ghost view = { λ b. b.bytes };

    ghost invariant = { λ b. (records : List Record) × IsBatch b.bytes records };
}

impl Batch {
    // The batch with these bytes.
    pub(crate) fn whole(bytes: Bytes) -> Batch
        requires { (records : List Record) × IsBatch bytes records }
        ensures { result ≡ bytes }
    {
        Batch { bytes }
    }

    /// The number of records.
    pub fn count(&self) -> u32
        ensures kept { result ≡ count_of self.now }
        ensures records { (records : List Record) → IsBatch self.now records → result ≡ length records }
        ensures some_record { 1 ≤ result }
        ensures below { result < length self.now }
    {
        self.view().count()
    }

    /// The same batch, borrowed.
    pub fn view(&self) -> BatchView<'_>
        ensures { result ≡ self.now }
    {
        BatchView::whole(self.bytes.as_slice())
    }

    /// The bytes of the batch.
    pub fn bytes(&self) -> &[u8]
        ensures bytes { result.now ≡ self.now }
        ensures batch { (records : List Record) × IsBatch self.now records }
        ensures least { head_size < length self.now }
        ensures most { length self.now ≤ most_bytes }
    {
        self.view().bytes()
    }

    /// The bytes of the batch, which aren't copied.
    pub fn into_bytes(self) -> Bytes
        ensures bytes { result ≡ self }
        ensures batch { (records : List Record) × IsBatch self records }
        ensures most { length self ≤ most_bytes }
    {
        let bytes = self.bytes;
        bytes
    }

    /// The records, each copied with all that it has. After `NoMemory` there are none.
    pub fn records(&self, alloc: Global) -> Result<Items<Record>, NoMemory>
        ensures records { IfOk result (λ records. IsBatch self.now records) }
        // The batch has no others.
        ensures only { (records : List Record) → IsBatch self.now records → IfOk result (λ found. found ≡ records) }
    {
        let (_, bytes) = self.bytes.as_slice().split_at(HEAD);
        match records(alloc, self.count(), bytes) {
            Ok(records) => Ok(records),
            Err(Stop::NoMemory) => Err(NoMemory),
            Err(Stop::Unread) => unreachable!(),
        }
    }

    /// A batch with the same bytes.
    pub fn copy(&self, alloc: Global) -> Result<Batch, NoMemory>
        ensures { IfOk result (λ batch. batch ≡ self.now) }
    {
        self.view().copy(alloc)
    }

    /// Writes the base offset, and the leader epoch 0. The crc doesn't cover them. It takes no memory.
    pub fn stamp(&mut self, base: u64)
        requires { base < 2 ^ 63 }
        ensures bytes { self.new ≡ stamped base self.old }
        ensures records { (records : List Record) → IsBatch self.old records → IsBatch self.new records }
    {
        stamp(self.bytes.as_mut_slice(), base);
    }
}
