ghost use Rattle.std.specs.Prelude.{◌≡◌, ◌≢◌, ◌+◌, ◌^◌, ◌<◌, [], ◌∷◌, ◌++◌, All, length, OnOk, OnErr};
ghost use Rattle.opcond.specs.Operation.{IsValid};

use crate::need::Need;
use crate::numbers::{CAP_LIMIT, MOST_NEEDS};
use kbytes::{List, NoMemory};
use std::alloc::Global;
use std::marker::Model;

/// An operation: its needs, the least tally that satisfies it, and its deadline in milliseconds.
#[derive(Drop)]
pub struct Op {
    needs: List<Need>,
    min: u64,
    deadline: u64,
}

impl Model for Op {
    ghost use Rattle.opcond.specs.Operation.{Operation, IsValid};

    ghost Value = { Operation };

    ghost view = { λ o. record { needs = o.needs; least = o.min; deadline = o.deadline } };

    ghost invariant = { λ o. IsValid (record { needs = o.needs; least = o.min; deadline = o.deadline }) };
}

impl Op {
    /// An operation without needs.
    pub fn new(alloc: Global, min: u64, deadline: u64) -> Op
        requires { min < CAP_LIMIT }
        ensures { result ≡ record { needs = []; least = min; deadline = deadline } }
    {
        Op {
            needs: List::new(alloc),
            min,
            deadline,
        }
    }

    /// Puts a need at the end, of a gauge that no other need has. After `NoMemory` the operation is as it was.
    pub fn add(&mut self, need: Need) -> Result<(), NoMemory>
        requires few { length self.old.needs < MOST_NEEDS }
        requires other { All (λ n. n.gauge ≢ need.gauge) self.old.needs }
        requires cap { need.cap < CAP_LIMIT }
        ensures ok { OnOk result (self.new ≡ record {
          needs = self.old.needs ++ need ∷ [];
          least = self.old.least;
          deadline = self.old.deadline;
        }) }
        ensures err { OnErr result (self.new ≡ self.old) }
    {
        self.needs.push(need)
    }

    /// The needs, in order: at most `MOST_NEEDS`, of distinct gauges, with caps below `CAP_LIMIT`.
    pub fn needs(&self) -> &[Need]
        ensures items { result.now ≡ self.now.needs }
        ensures valid { IsValid self.now }
    {
        self.needs.as_slice()
    }

    pub fn min(&self) -> u64
        ensures { result ≡ self.now.least }
    {
        self.min
    }

    pub fn deadline(&self) -> u64
        ensures { result ≡ self.now.deadline }
    {
        self.deadline
    }
}
