ghost use Rattle.std.specs.Prelude.{◌≡◌, ◌≢◌, ◌<◌, ℕ, List, Option, length, replicate, IfOk, IfSome, IfNone, slice_index, slice_index_or, slice_set};

use crate::numbers::ALL_BUCKETS;
use kbytes::NoMemory;
use std::alloc::Global;
use std::marker::Model;

/// Ids in linked buckets. A contract sees the bucket of each id.
#[derive(Drop)]
pub(crate) struct Buckets {
    homes: Vec<Option<u8>>,
    /// The nodes are the ids, and after them a head for each bucket: the buckets are rings, so no
    /// end is a case of its own.
    next: Vec<usize>,
    prev: Vec<usize>,
}

impl Model for Buckets {
    ghost use Rattle.std.specs.Prelude.{ℕ, List, Option};
    ghost use Rattle.timing_wheel.specs.Ring.{IsRings};

    ghost Value = { List (Option ℕ) };

    ghost view = { λ b. b.homes.items };

    ghost invariant = { λ b. IsRings b.homes.items b.next.items b.prev.items };
}

/// Each number below `count`, in order: what links every node to itself.
fn numbers_below(alloc: Global, count: usize) -> Result<Vec<usize>, NoMemory>
    ensures length { IfOk result (λ v. length v.items ≡ count) }
    ensures each { IfOk result (λ v. (k : ℕ) → k < count → slice_index v.items k ≡ k) }
{
    let mut numbers = Vec::with_capacity(alloc, count)?;
    for number in 0..count {
        numbers.push(number)?;
    }
    Ok(numbers)
}

impl Buckets {
    pub(crate) fn new(alloc: Global, ids: u32) -> Result<Buckets, NoMemory>
        ensures { IfOk result (λ b. b ≡ replicate ids None) }
    {
        let homes = vec![in alloc; None; ids as usize]?;
        let nodes = ids as usize + ALL_BUCKETS;
        let next = numbers_below(alloc, nodes)?;
        let prev = numbers_below(alloc, nodes)?;
        Ok(Buckets { homes, next, prev })
    }

    /// The id that has stood longest in a bucket.
    pub(crate) fn first(&self, bucket: u8) -> Option<u32>
        requires { bucket < ALL_BUCKETS }
        ensures within { IfSome result (λ id. id < length self.now) }
        ensures some { IfSome result (λ id. slice_index_or self.now id None ≡ Some bucket) }
        ensures none { IfNone result ((id : ℕ) → slice_index_or self.now id None ≢ Some bucket) }
    {
        let ids = self.homes.len();
        let node = self.next[ids + bucket as usize];
        if node < ids { Some(node as u32) } else { None }
    }

    /// Puts an id that is in no bucket at the end of one.
    pub(crate) fn put(&mut self, id: u32, bucket: u8)
        requires within { id < length self.old }
        requires bucket { bucket < ALL_BUCKETS }
        requires free { slice_index_or self.old id None ≡ None }
        ensures { self.new ≡ slice_set self.old id (Some bucket) }
    {
        let node = id as usize;
        let head = self.homes.len() + bucket as usize;
        let last = self.prev[head];
        self.next[last] = node;
        self.prev[node] = last;
        self.next[node] = head;
        self.prev[head] = node;
        self.homes[node] = Some(bucket);
    }

    /// Takes an id out of its bucket.
    pub(crate) fn take(&mut self, id: u32)
        requires within { id < length self.old }
        requires listed { slice_index_or self.old id None ≢ None }
        ensures { self.new ≡ slice_set self.old id None }
    {
        let node = id as usize;
        let before = self.prev[node];
        let after = self.next[node];
        self.next[before] = after;
        self.prev[after] = before;
        self.next[node] = node;
        self.prev[node] = node;
        self.homes[node] = None;
    }
}
