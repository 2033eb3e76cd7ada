//! The borrowed batch: what `view_batch` gives, and what is appended to a log.

ghost use Rattle.std.specs.Prelude.{◌≡◌, ◌<◌, ◌≤◌, List, length, IfOk};
ghost use Rattle.kbatch.specs.declared.record.Record.{Record};
ghost use Rattle.kbatch.specs.Head.{head_size};
ghost use Rattle.kbatch.specs.Batch.{IsBatch, most_bytes};
ghost use Rattle.kbatch.specs.Kept.{count_of};

use crate::batch::Batch;
use crate::head::u32_at;
use kbytes::{NoMemory, copied};
use std::alloc::Global;
use std::marker::Model;

/// A record batch whose bytes are borrowed and were checked. A contract sees the bytes, as it does of a `Batch`.
#[derive(Drop)]
pub struct BatchView<'a> {
    bytes: &'a [u8],
}

impl<'a> Model for BatchView<'a> {
    ghost use Rattle.std.specs.Prelude.{List, ℕ};
    ghost use Rattle.kbatch.specs.declared.record.Record.{Record};
    ghost use Rattle.kbatch.specs.Batch.{IsBatch};

    ghost Value = { List ℕ };

    ghost view = { λ b. b.bytes.now };

    ghost invariant = { λ b. (records : List Record) × IsBatch b.bytes.now records };
}

#[tactic(auto, unfolding(crate::specs::Kept::count_of))]
fn count_in(bytes: &[u8]) -> u32
    requires { 61 ≤ length bytes.now }
    ensures { result ≡ count_of bytes.now }
{
    u32_at(bytes, 57)
}

impl<'a> BatchView<'a> {
    // The batch in these bytes.
    pub(crate) fn whole(bytes: &'a [u8]) -> BatchView<'a>
        requires { (records : List Record) × IsBatch bytes.now records }
        ensures { result ≡ bytes.now }
    {
        BatchView { bytes }
    }

    /// The number of records.
    pub fn count(&self) -> u32
        ensures kept { result ≡ count_of self.now }
        ensures records { (records : List Record) → IsBatch self.now records → result ≡ length records }
        ensures some_record { 1 ≤ result }
        ensures below { result < length self.now }
    {
        count_in(self.bytes)
    }

    /// The bytes of the batch.
    pub fn bytes(&self) -> &'a [u8]
        ensures bytes { result.now ≡ self.now }
        ensures batch { (records : List Record) × IsBatch self.now records }
        ensures least { head_size < length self.now }
        ensures most { length self.now ≤ most_bytes }
    {
        self.bytes
    }

    /// A batch with the same bytes, which are copied once.
    pub fn copy(&self, alloc: Global) -> Result<Batch, NoMemory>
        ensures { IfOk result (λ batch. batch ≡ self.now) }
    {
        Ok(Batch::whole(copied(alloc, self.bytes)?))
    }
}
