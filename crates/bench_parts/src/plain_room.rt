//! A plain room of std, the baseline of the room: one `Mutex` around the gauges' values and a list of the operations that wait.
use crate::operation::waits_past;
use crate::waiter::Waiter;
use kbytes::NoMemory;
use opcond::Op;
use std::alloc::Global;
use std::sync::{Condvar, Mutex, Wait};

#[derive(Drop)]
struct Waiting {
    number: u32,
    op: Op,
}

/// What the `Mutex` guards.
#[derive(Drop)]
struct Inside {
    /// By gauge. The last is the clock's.
    values: Vec<u64>,
    waiting: Vec<Waiting>,
}

#[derive(Drop)]
pub struct PlainRoom {
    inside: Mutex<Inside>,
    answered: Condvar,
}

/// What one thread has of the plain room.
#[derive(Drop)]
pub struct PlainSeat<'a> {
    alloc: Global,
    room: &'a PlainRoom,
    number: u32,
    raised: u64,
}

// Whether the operation is satisfied, or its deadline has come.
fn is_answerable(values: &[u64], op: &Op) -> bool {
    let mut tally: u64 = 0;
    for need in op.needs() {
        let value = values.get(need.gauge as usize).map_or(0, |value| *value);
        tally = tally.saturating_add(value.saturating_sub(need.start).min(need.cap));
    }
    op.min() <= tally || values.last().is_some_and(|moment| op.deadline() <= *moment)
}

impl Inside {
    // Whether it waits.
    fn register(&mut self, number: u32, op: Op) -> bool {
        !is_answerable(self.values.as_slice(), &op)
            && self.waiting.push(Waiting { number, op }).is_ok()
    }

    fn raise(&mut self, gauge: u32, value: u64) {
        if let Some(place) = self.values.get_mut(gauge as usize) {
            *place = value;
        }
        let values = self.values.as_slice();
        self.waiting.retain(|one| !is_answerable(values, &one.op));
    }

    fn waits(&self, number: u32) -> bool {
        self.waiting.iter().any(|one| one.number == number)
    }
}

impl PlainRoom {
    pub fn make(alloc: Global, gauges: u32) -> Result<PlainRoom, NoMemory> {
        Ok(PlainRoom {
            inside: Mutex::new(Inside {
                values: vec![in alloc; 0u64; gauges as usize]?,
                waiting: Vec::new(alloc),
            }),
            answered: Condvar::new(),
        })
    }

    /// That many seats, by number. The seat of a number raises the gauge of that number.
    pub fn seats(&self, alloc: Global, count: u32) -> Result<Vec<PlainSeat<'_>>, NoMemory> {
        let mut seats = Vec::new(alloc);
        for number in 0..count {
            seats.push(PlainSeat {
                alloc,
                room: self,
                number,
                raised: 0,
            })?;
        }
        Ok(seats)
    }
}

impl Waiter for PlainSeat<'_> {
    fn gauge(&self) -> u32 {
        self.number
    }

    fn register<R: Wait>(&mut self, rt: &R, gauge: u32, past: u64) -> bool {
        match waits_past(self.alloc, gauge, past) {
            Ok(op) => self.room.inside.lock(rt).register(self.number, op),
            Err(_) => false,
        }
    }

    fn raise<R: Wait>(&mut self, rt: &R) {
        self.raised = self.raised.saturating_add(1);
        self.room.inside.lock(rt).raise(self.number, self.raised);
        self.room.answered.notify_all();
    }

    fn is_answered<R: Wait>(&mut self, rt: &R) -> bool {
        !self.room.inside.lock(rt).waits(self.number)
    }

    fn sleep<R: Wait>(&mut self, rt: &R) {
        let number = self.number;
        let inside = self.room.inside.lock(rt);
        self.room
            .answered
            .wait_while(rt, inside, |inside| inside.waits(number));
    }
}
