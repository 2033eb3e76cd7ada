//! The clock. A broker ticks it for each line of time in a trace, and looks at it when it accepts or completes a request.

ghost use Rattle.std.specs.Prelude.{◌≡◌, ◌↔◌, ◌<◌, ◌≤◌, [], ◌∷◌, ◌++◌, length, IfOk, OnOk, OnErr, IsTrue};
ghost use Rattle.partlog.specs.declared.clock_event.TheConstants.{MOST_MOMENT};

use crate::clock_event::ClockEvent;
use crate::who::Who;
use kbytes::{List, NoMemory};
use std::alloc::Global;
use std::marker::Model;

/// The clock's history. It begins at the moment 0, and its moment never falls.
#[derive(Drop)]
pub struct ClockLog {
    events: List<ClockEvent>,
    moment: u64,
}

impl Model for ClockLog {
    ghost use Rattle.std.specs.Prelude.{List as Items};
    ghost use Rattle.partlog.specs.declared.clock_event.ClockEvent.{ClockEvent};

    ghost Value = { Items ClockEvent };

    ghost use Rattle.partlog.specs.Timed.{IsTimed};

    ghost view = { λ c. c.events };

    ghost invariant = { λ c. IsTimed c.events c.moment };
}

impl ClockLog {
    ghost use Rattle.partlog.specs.declared.clock_event.ClockEvent.TheVariants.{Look};
    ghost use Rattle.partlog.specs.Moment.{moment_of};
    ghost use Rattle.partlog.specs.Ticked.{ticked};

    /// A clock at the moment 0, without entries. It takes no memory.
    pub fn new(alloc: Global) -> ClockLog
        ensures { result ≡ [] }
    {
        ClockLog {
            events: List::new(alloc),
            moment: 0,
        }
    }

    /// Raises the clock's moment to this one, in milliseconds, and enters that. A moment that isn't above the clock's
    /// changes nothing. The answer is whether the moment rose. After a refusal the history is as it was.
    pub fn tick(&mut self, t: u64) -> Result<bool, NoMemory>
        requires { t ≤ MOST_MOMENT }
        ensures ticked { OnOk result (self.new ≡ ticked self.old t) }
        ensures rose { IfOk result (λ rose. IsTrue rose ↔ (moment_of self.old < t)) }
        ensures refused { OnErr result ((self.new ≡ self.old) × (moment_of self.old < t)) }
    {
        if t <= self.moment {
            return Ok(false);
        }
        self.events.push(ClockEvent::Tick { t })?;
        self.moment = t;
        Ok(true)
    }

    /// Enters that the moment was looked at, and answers the place of the entry. After a refusal the history is as it was.
    pub fn look(&mut self, who: Who) -> Result<u64, NoMemory>
        ensures looked { OnOk result (self.new ≡ self.old ++ Look who.by who.seq ∷ []) }
        ensures moment { OnOk result (moment_of self.new ≡ moment_of self.old) }
        ensures place { IfOk result (λ place. place ≡ length self.old) }
        ensures refused { OnErr result (self.new ≡ self.old) }
    {
        let place = self.events.len() as u64;
        self.events.push(ClockEvent::Look {
            by: who.by,
            seq: who.seq,
        })?;
        Ok(place)
    }

    /// The clock's moment: the greatest of its ticks, or 0. It takes no memory.
    pub fn now(&self) -> u64
        ensures moment { result ≡ moment_of self.now }
        ensures limit { result ≤ MOST_MOMENT }
    {
        self.moment
    }

    /// The history.
    pub fn events(&self) -> &[ClockEvent]
        ensures { result.now ≡ self.now }
    {
        self.events.as_slice()
    }

    /// Gives the history away as it is. It takes no memory.
    pub fn into_events(self) -> List<ClockEvent>
        ensures events { result ≡ self }
        ensures limit { moment_of result ≤ MOST_MOMENT }
    {
        self.events
    }
}
