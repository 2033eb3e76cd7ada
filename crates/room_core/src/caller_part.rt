//! What a pass knows as the owner of its operation, which no other thread sees. `CoreState` keeps one for each pass; asking,
//! relieving and peeking are here, the owner's other steps in `caller_steps`.
ghost use Rattle.std.specs.Prelude.{◌≡◌, ◌<◌, IfOk, replicate, false, nat_le, if◌then◌else◌};
ghost use Rattle.room_core.specs.Passes.{caller_peeks, peeked};
ghost use Rattle.room_core.specs.Scans.{caller_asks, caller_relieves};
ghost use Rattle.room_core.specs.CallerSize.{CallerIsSized};
ghost use Rattle.room_core.specs.CallerWhole.{CallerIsWhole};

use crate::description::DESCRIPTION_WORDS;
use crate::empty::nothing_read;
use crate::numbers::MARKS;
use crate::parts::{Phase, Prize, Stage, Taken};
use crate::shape::Shape;
use kbytes::NoMemory;
use std::alloc::Global;

/// A caller's part, with a table by number for each thing that it knows.
#[derive(Drop)]
pub(crate) struct CallerPart {
    pub(crate) shape: Shape,
    pub(crate) generation: u32,
    pub(crate) description: Vec<u64>,
    pub(crate) stage: Stage,
    pub(crate) seen: Vec<bool>,
    pub(crate) readings: Vec<Option<u64>>,
    pub(crate) greatest: Vec<u64>,
    pub(crate) owed: Vec<u64>,
    pub(crate) wins: Vec<Prize>,
    pub(crate) taken: Vec<Taken>,
    ghost sized: { CallerIsSized shape greatest owed },
    ghost whole: { CallerIsWhole shape description seen readings },
}

/// A table of marks that were not seen yet.
fn nothing_seen(alloc: Global) -> Result<Vec<bool>, NoMemory>
    ensures { IfOk result (λ v. v.items ≡ replicate MARKS false) }
{
    Ok(vec![in alloc; false; MARKS as usize]?)
}

impl CallerPart {
    ghost use Rattle.room_core.specs.CallerTables.{caller_of};
    ghost use Rattle.room_core.specs.Start.{idle_caller};

    pub(crate) fn idle(alloc: Global, shape: Shape) -> Result<CallerPart, NoMemory>
        ensures part { IfOk result (λ c. caller_of c ≡ idle_caller) }
        ensures shape { IfOk result (λ c. c.shape ≡ shape) }
    {
        let gauges = shape.gauges as usize;
        Ok(CallerPart {
            shape,
            generation: 0,
            description: vec![in alloc; 0; DESCRIPTION_WORDS as usize]?,
            stage: Stage::Idle,
            seen: nothing_seen(alloc)?,
            readings: nothing_read(alloc, gauges)?,
            greatest: vec![in alloc; 0; gauges]?,
            owed: vec![in alloc; 0; gauges]?,
            wins: Vec::new(alloc),
            taken: Vec::new(alloc),
        })
    }

    pub(crate) fn asks(&mut self, gauge: u32, value: u64)
        requires { gauge < self.old.shape.gauges }
        ensures part { caller_of self.new ≡ caller_asks (caller_of self.old) gauge value }
        ensures shape { self.new.shape ≡ self.old.shape }
    {
        let owed = self.owed[gauge as usize];
        self.owed[gauge as usize] = owed.max(value);
    }

    pub(crate) fn relieves(&mut self, gauge: u32, begun: u64)
        requires { gauge < self.old.shape.gauges }
        ensures part { caller_of self.new ≡ caller_relieves (caller_of self.old) gauge begun }
        ensures shape { self.new.shape ≡ self.old.shape }
    {
        let owed = still_owed(self.owed[gauge as usize], begun);
        self.owed[gauge as usize] = owed;
    }

    pub(crate) fn peeks(&mut self, phase: Phase)
        ensures part { caller_of self.new ≡ caller_peeks (caller_of self.old) phase }
        ensures shape { self.new.shape ≡ self.old.shape }
    {
        self.stage = peeked_stage(phase, self.stage);
    }
}

/// What is still owed after a scan was begun up to a value.
fn still_owed(owed: u64, begun: u64) -> u64
    ensures { result ≡ (if nat_le owed begun then 0 else owed) }
{
    if owed <= begun { 0 } else { owed }
}

/// The stage of an owner after it has seen its word in this phase.
#[tactic(auto, unfolding(crate::specs::Passes::peeked))]
pub(crate) fn peeked_stage(phase: Phase, stage: Stage) -> Stage
    ensures { result ≡ peeked phase stage }
{
    match phase {
        Phase::Won { how, by } => Stage::Over { how, by },
        Phase::Idle | Phase::Open => stage,
    }
}
