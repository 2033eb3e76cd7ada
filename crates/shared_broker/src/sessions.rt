//! What a session or a worker calls beside `handle` and `collect`: `begin` and `finish` of a transcript, `tick` of the clock, and `wait`.
ghost use Rattle.std.specs.Prelude.{◌≡◌, ◌≤◌, IfOk, IsSome, None, OnErr, OnOk};
ghost use Rattle.partlog.specs.declared.clock_event.TheConstants.{MOST_MOMENT};
ghost use Rattle.shared_broker.specs.Moved.{HasFewCalls, HasMoved};
ghost use Rattle.shared_broker.specs.Passes.{made_with};
ghost use Rattle.shared_broker.specs.Standing.{Stands};
ghost use Rattle.shared_broker.specs.Sessions.{HasEnded, HasPartlyToldClock, HasToldClock, MayEnd, with_begun};

use crate::broker::Broker;
use crate::pass::Pass;
use audit::{SessionEnd, Transcript};
use kbytes::{List, NoMemory};
use std::alloc::Global;
use std::sync::Wait;
use std::time::Duration;

impl Broker {
    /// Begins the transcript of a session of this number. It needs no memory.
    pub fn begin(&self, pass: &mut Pass, number: u64)
        requires made { made_with pass.old ≡ self.now }
        requires none { pass.old.going ≡ None }
        ensures { pass.new ≡ with_begun pass.old number }
    {
        pass.going = Some(Transcript {
            number,
            first: pass.first,
            calls: List::new(self.alloc),
            end: None,
        });
    }

    /// Ends the open transcript. Its request, if one waited, has been collected; and if its last call ran out of memory, that is how it ends. If
    /// memory runs out now, the transcript stays open.
    pub fn finish(&self, pass: &mut Pass, end: SessionEnd) -> Result<(), NoMemory>
        requires made { made_with pass.old ≡ self.now }
        requires begun { IsSome pass.old.going }
        requires none { pass.old.waits ≡ None }
        requires cut { MayEnd pass.old.going end }
        ensures ended { OnOk result (HasEnded end pass.old pass.new) }
        ensures refused { OnErr result (pass.new ≡ pass.old) }
    {
        let calls = end_going(self.alloc, &mut pass.ended, &mut pass.going, end)?;
        pass.first += calls;
        Ok(())
    }

    /// Moves the clock to a moment in milliseconds, if that is later than the clock's. Then in each partition every follower that lags at this moment
    /// leaves the in-sync set, and every request that this satisfies, or whose deadline has passed, is won. A request of the pass itself may wait
    /// meanwhile. If memory runs out, the clock may have moved, and some of the followers may have left.
    pub fn tick(&self, rt: &impl Wait, pass: &mut Pass, t: u64) -> Result<(), NoMemory>
        requires made { made_with pass.old ≡ self.now }
        requires limit { t ≤ MOST_MOMENT }
        ensures stood { Stands pass.old }
        ensures told { OnOk result (HasToldClock t pass.old pass.new) }
        ensures refused { OnErr result (HasPartlyToldClock t pass.old pass.new) }
    {
        let told = self.logs.tick(rt, &mut pass.logs, t);
        self.logs.settle(rt, &mut pass.logs);
        told
    }

    /// Sleeps while the pass's request waits, for no longer than `most`. It may also return early for no reason: ask `collect`.
    pub fn wait(&self, rt: &impl Wait, pass: &Pass, most: Duration)
        requires { made_with pass.now ≡ self.now }
    {
        self.logs.wait(rt, &pass.logs, most);
    }
}

// Ends the open transcript and puts it after the others. Answers how many calls it has. If memory runs out, both are as they were.
fn end_going(
    alloc: Global,
    ended: &mut List<Transcript>,
    going: &mut Option<Transcript>,
    end: SessionEnd,
) -> Result<u32, NoMemory>
    requires begun { IsSome going.old }
    requires few { HasFewCalls going.old }
    ensures moved { IfOk result (λ calls. HasMoved end calls ended.old going.old ended.new going.new) }
    ensures refused { OnErr result ((ended.new ≡ ended.old) × (going.new ≡ going.old)) }
{
    ended.push(Transcript {
        number: 0,
        first: 0,
        calls: List::new(alloc),
        end: None,
    })?;
    let Some(mut transcript) = going.take() else {
        unreachable!()
    };
    let calls = transcript.calls.len() as u32;
    transcript.end = Some(end);
    let last = ended.len() - 1;
    ended.as_mut_slice()[last] = transcript;
    Ok(calls)
}
