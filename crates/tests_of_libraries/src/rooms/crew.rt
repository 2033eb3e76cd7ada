//! Passes and sources, each with what a test knows of it, so that a test can ask for any call at any time.
ghost use Rattle.std.specs.Prelude.{◌≡◌, ◌<◌, ◌≤◌, All, IfOk, IsTrue};
ghost use Rattle.room_core.specs.Gauges.{clock_of};
ghost use Rattle.room_core.specs.Numbers.{most_gauges, most_passes};
ghost use Rattle.tests_of_libraries.specs.Crews.{IsCrewOf, IsNewPass};
ghost use Rattle.purgatory.specs.Rooms.{IsOfRoom, IsSourceOf};

use kbytes::{List, NoMemory};
use opcond::Op;
use purgatory::{Done, Registered, Room, RoomPass, Source};
use std::alloc::Global;
use std::marker::Model;
use std::sync::Wait;
use std::time::Duration;

// A pass, and whether its operation waits.
#[derive(Drop)]
pub(super) struct Hand {
    pass: RoomPass,
    waits: bool,
}

impl Model for Hand {
    ghost use Rattle.tests_of_libraries.specs.Crews.{IsInHand};
    ghost use Rattle.purgatory.specs.Rooms.{PassView};

    ghost Value = { PassView };

    ghost view = { λ h. h.pass };

    ghost invariant = { λ h. IsInHand h.waits h.pass };
}

// Whether all needs are of the room's gauges before the clock.
fn fits(room: &Room, op: &Op) -> bool
    ensures { IsTrue result → All (λ need. need.gauge < clock_of room.now.table.shape) op.now.needs }
{
    let clock = room.clock();
    op.needs().iter().all(|need| need.gauge < clock)
}

impl Hand {
    // Raises a gauge to this value, if it isn't past it, and settles.
    fn raise(&mut self, rt: &impl Wait, room: &Room, source: &mut Source, value: u64)
        requires made { IsOfRoom room.now self.old × IsSourceOf room.now source.old }
        ensures made { IsOfRoom room.now self.new × IsSourceOf room.now source.new }
    {
        let value = value.max(source.value());
        room.raise(rt, source, &mut self.pass, value);
        room.settle(rt, &mut self.pass);
    }

    // Registers an operation, where the pass has none.
    fn register(&mut self, rt: &impl Wait, room: &Room, op: Op) -> Option<Registered>
        requires made { IsOfRoom room.now self.old }
        ensures made { IsOfRoom room.now self.new }
    {
        if self.waits || self.pass.generation() == u32::MAX || !fits(room, &op) {
            return None;
        }
        let Registered::Won(done) = room.register(rt, &mut self.pass, &op) else {
            self.waits = true;
            return Some(Registered::Parked);
        };
        Some(Registered::Won(done))
    }

    // How the operation ended that waited.
    fn poll(&mut self, room: &Room) -> Option<Done>
        requires made { IsOfRoom room.now self.old }
        ensures made { IsOfRoom room.now self.new }
    {
        if !self.waits {
            return None;
        }
        let done = room.poll(&mut self.pass)?;
        self.waits = false;
        Some(done)
    }

    // Sleeps until its operation is won, and no longer than this.
    fn wait(&self, rt: &impl Wait, room: &Room, most: Duration)
        requires made { IsOfRoom room.now self.now }
    {
        room.wait(rt, &self.pass, most);
    }
}

// A gauge is to rise to this value, by the source at this place.
#[derive(Clone, Copy)]
pub(super) struct Rise {
    source: usize,
    value: u64,
}

impl Rise {
    pub(super) fn of(source: usize, value: u64) -> Rise {
        Rise { source, value }
    }
}

// Passes and sources of one room, by their places.
#[derive(Drop)]
pub(super) struct Crew {
    hands: Vec<Hand>,
    sources: Vec<Source>,
}

impl Model for Crew {
    ghost use Rattle.tests_of_libraries.specs.Crews.{CrewView};

    ghost Value = { CrewView };

    ghost view = { λ c. record { passes = c.hands.items; sources = c.sources.items } };
}

fn hands(alloc: Global, room: &Room, passes: List<RoomPass>) -> Result<Vec<Hand>, NoMemory>
    requires { All (IsNewPass room.now) passes }
    ensures { IfOk result (λ hands. All (IsOfRoom room.now) hands.items) }
{
    let mut hands = Vec::new(alloc);
    for pass in passes.into_vec() {
        hands.push(Hand { pass, waits: false })?;
    }
    Ok(hands)
}

// A room, its passes and its sources.
pub(super) fn start(alloc: Global, gauges: u32, passes: u32) -> Result<(Room, Crew), NoMemory>
    requires gauges { (1 ≤ gauges) × (gauges ≤ most_gauges) }
    requires passes { (1 ≤ passes) × (passes ≤ most_passes) }
    ensures { IfOk result (λ made. IsCrewOf made.0 made.1) }
{
    let parts = Room::make(alloc, gauges, passes)?;
    let room = parts.room;
    let hands = hands(alloc, &room, parts.passes)?;
    let sources = parts.sources.into_vec();
    Ok((room, Crew { hands, sources }))
}

// The first half of the passes and sources, and the others.
pub(super) fn halves(room: &Room, crew: Crew) -> Result<(Crew, Crew), NoMemory>
    requires { IsCrewOf room.now crew }
    ensures { IfOk result (λ both. IsCrewOf room.now both.0 × IsCrewOf room.now both.1) }
{
    let Crew {
        mut hands,
        mut sources,
    } = crew;
    let half = hands.len() / 2;
    let others = hands.split_off(half)?;
    let middle = sources.len() / 2;
    let rest = sources.split_off(middle)?;
    let other = Crew {
        hands: others,
        sources: rest,
    };
    Ok((Crew { hands, sources }, other))
}

impl Crew {
    // How many passes it has.
    pub(super) fn size(&self) -> usize {
        self.hands.len()
    }

    // The number of the gauge of its first source.
    pub(super) fn first_gauge(&self) -> Option<u32> {
        match self.sources.first() {
            Some(source) => Some(source.gauge()),
            None => None,
        }
    }

    // A pass raises a gauge to this value, if it isn't past it, and settles.
    pub(super) fn raise(&mut self, rt: &impl Wait, room: &Room, hand: usize, rise: Rise)
        requires { IsCrewOf room.now self.old }
        ensures { IsCrewOf room.now self.new }
    {
        let Rise { source, value } = rise;
        if hand >= self.hands.len() || source >= self.sources.len() {
            return;
        }
        self.hands[hand].raise(rt, room, &mut self.sources[source], value);
    }

    // A pass registers an operation. None where it has one that waits.
    pub(super) fn register(
        &mut self,
        rt: &impl Wait,
        room: &Room,
        hand: usize,
        op: Op,
    ) -> Option<Registered>
        requires { IsCrewOf room.now self.old }
        ensures { IsCrewOf room.now self.new }
    {
        if hand >= self.hands.len() {
            return None;
        }
        self.hands[hand].register(rt, room, op)
    }

    // How a pass's operation ended that waited.
    pub(super) fn poll(&mut self, room: &Room, hand: usize) -> Option<Done>
        requires { IsCrewOf room.now self.old }
        ensures { IsCrewOf room.now self.new }
    {
        if hand >= self.hands.len() {
            return None;
        }
        self.hands[hand].poll(room)
    }

    // A pass sleeps until its operation is won, and no longer than this.
    pub(super) fn wait(&self, rt: &impl Wait, room: &Room, hand: usize, most: Duration)
        requires { IsCrewOf room.now self.now }
    {
        if hand < self.hands.len() {
            self.hands[hand].wait(rt, room, most);
        }
    }
}
