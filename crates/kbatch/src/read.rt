//! Reading bytes as a batch: all checks in order, those of the header from `head` and the records by `walk`.

ghost use Rattle.std.specs.Prelude.{◌≡◌, ◌≢◌, ◌<◌, ◌≤◌, ◌^◌, ◌↔◌, List, length, drop, OnOk, IfOk, IfErr, IsOk, IsErrOf};
ghost use Rattle.std.specs.List.{AllByRecursion};
ghost use Rattle.kbatch.specs.declared.fault.BatchFault.{BatchFault};
ghost use Rattle.kbatch.specs.declared.fault.BatchFault.TheVariants.{NoMemory};
ghost use Rattle.kbatch.specs.declared.record.Record.{Record};
ghost use Rattle.kbatch.specs.Record.{IsRecord, records_from};
ghost use Rattle.kbatch.specs.Batch.{IsBatch, most_bytes};
ghost use Rattle.kbatch.specs.Kept.{count_of};
ghost use Rattle.kbatch.specs.Fault.{NoneBefore, IsFirstFault};

use crate::batch::Batch;
use crate::fault::BatchFault;
use crate::head::{
    HEAD, check_attributes, check_count, check_crc, check_length, check_magic, check_size,
};
use crate::view::BatchView;
use crate::walk::after_record;
use std::alloc::Global;

// The bytes after the header are that many records and nothing more.
fn check_records(bytes: &[u8], count: u32) -> Result<(), BatchFault>
    requires most { length bytes.now ≤ most_bytes }
    requires least { 61 ≤ length bytes.now }
    requires count { count ≡ count_of bytes.now }
    requires count_fits { count < 2 ^ 31 }
    requires before { NoneBefore 9 bytes.now }
    ensures stands { OnOk result ((records : List Record) × AllByRecursion IsRecord records × (length records ≡ count) × (drop 61 bytes.now ≡ records_from 0 records)) }
    ensures fault { IfErr result (λ f. IsFirstFault bytes.now f) }
{
    let (_, records) = bytes.split_at(HEAD);
    let mut rest = records;
    for delta in 0..count {
        let Some(after) = after_record(delta, rest) else {
            return Err(BatchFault::Records {
                at: bytes.len() - rest.len(),
            });
        };
        rest = after;
    }
    if !rest.is_empty() {
        return Err(BatchFault::Records {
            at: bytes.len() - rest.len(),
        });
    }
    Ok(())
}

// All checks, in the order of the faults.
fn check(bytes: &[u8]) -> Result<(), BatchFault>
    ensures batch { OnOk result ((records : List Record) × IsBatch bytes.now records) }
    ensures fault { IfErr result (λ f. IsFirstFault bytes.now f) }
{
    check_size(bytes)?;
    check_length(bytes)?;
    check_magic(bytes)?;
    check_crc(bytes)?;
    check_attributes(bytes)?;
    let count = check_count(bytes)?;
    check_records(bytes, count)
}

/// These bytes as a batch, borrowed. The faults come in the order of `BatchFault`. It takes no memory and never answers
/// `NoMemory`.
pub fn view_batch(bytes: &[u8]) -> Result<BatchView<'_>, BatchFault>
    ensures bytes { IfOk result (λ batch. batch ≡ bytes.now) }
    // Whatever is read is a batch.
    ensures batch { OnOk result ((records : List Record) × IsBatch bytes.now records) }
    // A batch is never refused.
    ensures only { (records : List Record) → IsBatch bytes.now records → IsOk result }
    // Each fault comes exactly where it is the first.
    ensures fault { (f : BatchFault) → (IsErrOf result f ↔ IsFirstFault bytes.now f) }
    ensures memory { ¬ IsErrOf result NoMemory }
{
    check(bytes)?;
    Ok(BatchView::whole(bytes))
}

/// The batch with exactly these bytes, which are copied once. The faults come in the order of `BatchFault`, `NoMemory`
/// after all the others.
pub fn read_batch(alloc: Global, bytes: &[u8]) -> Result<Batch, BatchFault>
    ensures bytes { IfOk result (λ batch. batch ≡ bytes.now) }
    // Whatever is read is a batch.
    ensures batch { OnOk result ((records : List Record) × IsBatch bytes.now records) }
    // A batch is refused only for `NoMemory`.
    ensures only { (records : List Record) → IsBatch bytes.now records → IfErr result (λ f. f ≡ NoMemory) }
    // Each other fault comes exactly where it is the first.
    ensures fault { (f : BatchFault) → f ≢ NoMemory → (IsErrOf result f ↔ IsFirstFault bytes.now f) }
    // `NoMemory` comes after all the others.
    ensures memory { IsErrOf result NoMemory → (records : List Record) × IsBatch bytes.now records }
{
    let batch = view_batch(bytes)?;
    Ok(batch.copy(alloc)?)
}
