//! `SharedLogs`' calls on the clock: a turn of its lock by `clock_turns`, with what the pass keeps of the clock. Where the clock rose, a turn of
//! each partition's lock follows, in which those leave who lag.
ghost use Rattle.std.specs.Prelude.{◌≡◌, ◌<◌, ◌≤◌, ◌↔◌, IfOk, IsTrue, OnErr, OnOk};
ghost use Rattle.partlog.specs.declared.clock_event.TheConstants.{MOST_MOMENT};
ghost use Rattle.partlog.specs.Moment.{moment_of};
ghost use Rattle.shared_logs.specs.Asked.{HasLookedAtClock, HasTicked};
ghost use Rattle.shared_logs.specs.Coming.{HasCaughtUp};
ghost use Rattle.shared_logs.specs.Seen.{HasSeen};
ghost use Rattle.shared_logs.specs.Shrinking.{HasPartlyTold, HasShrunk, HasTold, NoPartLags};

use crate::Tick;
use crate::clock_turns::{look_up, tick_to};
use crate::logs::SharedLogs;
use crate::pass::LogPass;
use kbytes::NoMemory;
use partlog::Who;
use std::sync::Wait;

impl SharedLogs {
    // Gives the clock a moment, and answers whether that was above the clock's: then the pass has added a tick. A moment that the pass has
    // already seen passed takes no turn. If memory runs out, it has left nothing.
    fn tell_clock(&self, rt: &impl Wait, pass: &mut LogPass, t: u64) -> Result<bool, NoMemory>
        requires made { pass.old.made ≡ self.now }
        requires limit { t ≤ MOST_MOMENT }
        ensures made { pass.new.made ≡ self.now }
        ensures seen { HasSeen pass.old × HasSeen pass.new }
        ensures told { IfOk result (λ rose. (told : HasTicked t pass.old pass.new) × (IsTrue rose ↔ (moment_of told.found < t))) }
        ensures refused { OnErr result (HasCaughtUp pass.old pass.new) }
    {
        if t <= pass.moment {
            return Ok(false);
        }
        let tick = Tick {
            by: pass.number,
            moment: t,
        };
        let (rose, moment) = tick_to(
            rt,
            &self.room,
            &self.clock,
            &mut pass.clock,
            &mut pass.room,
            tick,
        );
        pass.moment = moment;
        if rose? {
            pass.ticked = t;
            Ok(true)
        } else {
            Ok(false)
        }
    }

    // Takes out of each partition's in-sync set, one after the other, every follower that lags at this moment. If memory runs out, some of them
    // may have left.
    fn shrink_parts(&self, rt: &impl Wait, pass: &mut LogPass, t: u64) -> Result<(), NoMemory>
        requires made { pass.old.made ≡ self.now }
        ensures made { pass.new.made ≡ self.now }
        ensures seen { HasSeen pass.new }
        ensures shrunk { HasShrunk t pass.old pass.new }
        ensures none_lags { OnOk result (NoPartLags t pass.new.parts) }
    {
        for at in 0..self.parts.len() {
            self.shrink(rt, pass, at, t)?;
        }
        pass.keeps();
        Ok(())
    }

    /// Gives the clock a moment in milliseconds. Where that is above the clock's, the pass adds a tick, and then takes out of each partition's
    /// in-sync set every follower that lags at this moment; it may then owe scans. A moment that the pass has already seen passed takes no
    /// turn. If memory runs out, it has left nothing, or the tick and some of those.
    pub fn tick(&self, rt: &impl Wait, pass: &mut LogPass, t: u64) -> Result<(), NoMemory>
        requires made { pass.old.made ≡ self.now }
        requires limit { t ≤ MOST_MOMENT }
        ensures made { pass.new.made ≡ self.now }
        ensures seen { HasSeen pass.old × HasSeen pass.new }
        ensures told { OnOk result (HasTold t pass.old pass.new) }
        ensures refused { OnErr result (HasPartlyTold t pass.old pass.new) }
    {
        if self.tell_clock(rt, pass, t)? {
            self.shrink_parts(rt, pass, t)?;
        }
        Ok(())
    }

    /// Looks at the clock for a call of the pass, in a turn in which its moment is no less than `least`, and answers the place of the look
    /// and that moment. While it is less, the turn is taken again and leaves nothing. If memory runs out, no look was left.
    pub(crate) fn look_at_clock(
        &self,
        rt: &impl Wait,
        pass: &mut LogPass,
        who: Who,
        least: u64,
    ) -> Result<(u64, u64), NoMemory>
        requires made { pass.old.made ≡ self.now }
        requires who { who.by ≡ pass.old.number }
        ensures made { pass.new.made ≡ self.now }
        ensures seen { HasSeen pass.new }
        ensures looked { IfOk result (λ looked. HasLookedAtClock who.seq least pass.old pass.new looked.0 looked.1) }
        ensures refused { OnErr result (HasCaughtUp pass.old pass.new) }
    {
        let (place, moment) = look_up(rt, &self.clock, &mut pass.clock, least, who);
        pass.moment = moment;
        Ok((place?, moment))
    }
}
