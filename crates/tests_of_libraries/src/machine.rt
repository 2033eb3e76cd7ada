//! `room_core`: runs of the machine, event by event, and events that it refuses.
use room_core::CoreEvent::{
    Ask, Begin, Describe, Hear, Hush, Idle, Learn, Leave, Mark, Marked, Meet, Open, Part, Peek,
    Read, Relieve, Store, Win,
};
use room_core::{CLOCK_MARK, CLOCK_SCANNER, CoreEvent, CoreState, How, Party, Shape, run_events};
use std::test::*;

// Three gauges of a partition and the clock.
const PARTITION: Shape = Shape {
    gauges: 4,
    passes: 3,
    scanners: 2,
};

const CLOCK: u32 = 3;

// One event, or some in a row.
#[derive(Drop)]
enum Step {
    One(CoreEvent),
    // an event that isn't allowed
    Not(CoreEvent),
    // a pass raises a gauge to a value
    Raises(u32, u32, u64),
    // a scanner begins with a gauge
    Begins(u32, u32),
    // what a pass owes for a gauge is paid by a scanner
    Scans(u32, u32, u32),
    // a pass opens the operation of these words; it is listed under its first need and under the clock
    Opens(u32, &'static [u64]),
    // a scanner meets a pass and learns these words
    Learns(u32, u32, &'static [u32]),
    // a scanner lists a pass under a need
    Lists(u32, u32, u32),
    // a pass reads a gauge, and leaves its check
    Checks(u32, u32),
    // a scanner leaves its check of a pass at a gauge, and wins
    Wins(u32, u32, u32, How),
}

// Whether each of these events is made, in turn.
fn makes(room: &mut CoreState, events: &[CoreEvent]) -> bool {
    for event in events {
        if !matches!(room.step(*event), Ok(true)) {
            return false;
        }
    }
    true
}

fn learns(room: &mut CoreState, scanner: u32, pass: u32, words: &[u32]) -> bool {
    for at in words {
        let at = *at;
        if !makes(room, &[Learn { scanner, pass, at }]) {
            return false;
        }
    }
    true
}

fn describes(room: &mut CoreState, pass: u32, words: &[u64]) -> bool {
    for (place, word) in words.iter().enumerate() {
        let Ok(at) = u32::try_from(place) else {
            return false;
        };
        let word = *word;
        if !makes(room, &[Describe { pass, at, word }]) {
            return false;
        }
    }
    true
}

fn opens(room: &mut CoreState, pass: u32) -> bool {
    let (first, clock) = (0, CLOCK_SCANNER);
    let listed = [
        Open { pass },
        Meet {
            scanner: first,
            pass,
        },
        Learn {
            scanner: first,
            pass,
            at: 2,
        },
        Learn {
            scanner: first,
            pass,
            at: 3,
        },
        Mark {
            scanner: first,
            pass,
            at: 0,
        },
        Marked { pass, at: 0 },
        Meet {
            scanner: clock,
            pass,
        },
        Learn {
            scanner: clock,
            pass,
            at: 1,
        },
        Mark {
            scanner: clock,
            pass,
            at: CLOCK_MARK,
        },
        Marked {
            pass,
            at: CLOCK_MARK,
        },
    ];
    makes(room, &listed)
}

// Whether a step is made, or refused where it is to be.
fn is_right(room: &mut CoreState, step: &Step) -> bool {
    match *step {
        Step::One(event) => makes(room, &[event]),
        Step::Not(event) => matches!(room.step(event), Ok(false)),
        Step::Raises(pass, gauge, value) => {
            let who = Party::Pass(pass);
            let ask = Ask { pass, gauge, value };
            makes(
                room,
                &[
                    Store { gauge, value },
                    Read { who, gauge },
                    ask,
                    Hush { gauge },
                ],
            )
        }
        Step::Begins(scanner, gauge) => {
            makes(room, &[Hear { scanner, gauge }, Begin { scanner, gauge }])
        }
        Step::Scans(pass, scanner, gauge) => {
            let relieve = Relieve { pass, gauge };
            makes(
                room,
                &[Hear { scanner, gauge }, Begin { scanner, gauge }, relieve],
            )
        }
        Step::Opens(pass, words) => describes(room, pass, words) && opens(room, pass),
        Step::Learns(scanner, pass, words) => {
            makes(room, &[Meet { scanner, pass }]) && learns(room, scanner, pass, words)
        }
        Step::Lists(scanner, pass, at) => {
            makes(room, &[Mark { scanner, pass, at }, Marked { pass, at }])
        }
        Step::Checks(pass, gauge) => {
            let who = Party::Pass(pass);
            let leave = Leave {
                who,
                pass,
                gauge: CLOCK,
            };
            makes(room, &[Read { who, gauge }, leave])
        }
        Step::Wins(scanner, pass, gauge, how) => {
            let who = Party::Scanner(scanner);
            makes(room, &[Leave { who, pass, gauge }, Win { who, pass, how }])
        }
    }
}

const WHOLE: &[Step] = &[
    // a produce is parked
    Step::Raises(0, 0, 0),
    Step::Raises(0, 1, 0),
    Step::Raises(0, 2, 69),
    Step::Scans(0, 0, 2),
    Step::Opens(0, &[1, 1000, 1, 0, 0, 1]),
    Step::Checks(0, 0),
    // a follower reaches it
    Step::Raises(1, 0, 0),
    Step::Raises(1, 1, 0),
    Step::Raises(1, 2, 69),
    Step::Scans(1, 0, 2),
    Step::Raises(1, 0, 1),
    Step::Raises(1, 1, 69),
    Step::Raises(1, 2, 69),
    // the produce is won
    Step::Begins(0, 0),
    Step::Learns(0, 0, &[0, 1, 2, 3, 4, 5]),
    Step::Wins(0, 0, 0, How::Satisfied),
    Step::One(Relieve { pass: 1, gauge: 0 }),
    Step::Scans(1, 0, 1),
    Step::Scans(1, 0, 2),
    // the follower's own fetch is parked
    Step::Opens(1, &[1, 500, 1, 2, 69, 1048576]),
    Step::Checks(1, 2),
    Step::One(Peek { pass: 0 }),
    Step::One(Idle { pass: 0 }),
    Step::One(Peek { pass: 1 }),
    // the clock is raised below its deadline
    Step::Raises(2, CLOCK, 499),
    Step::Scans(2, CLOCK_SCANNER, CLOCK),
    Step::One(Peek { pass: 1 }),
    // its deadline comes
    Step::Raises(2, CLOCK, 500),
    Step::Begins(CLOCK_SCANNER, CLOCK),
    Step::Learns(CLOCK_SCANNER, 1, &[0, 1, 2, 3, 4, 5]),
    Step::Wins(CLOCK_SCANNER, 1, CLOCK, How::Expired),
    Step::One(Relieve {
        pass: 2,
        gauge: CLOCK,
    }),
    Step::One(Peek { pass: 1 }),
    Step::One(Idle { pass: 1 }),
    // both operations are over
    Step::One(Part),
    Step::Not(Peek { pass: 1 }),
    Step::Not(Idle { pass: 1 }),
];

const TWO_NEEDS: &[u64] = &[2, 1000, 2, 0, 0, 1, 1, 0, 1];

// A check with a gauge unread isn't left.
const UNREAD_BY_THE_PASS: &[Step] = &[
    Step::Opens(0, TWO_NEEDS),
    Step::Learns(0, 0, &[2, 6]),
    Step::Lists(0, 0, 1),
    Step::One(Read {
        who: Party::Pass(0),
        gauge: 0,
    }),
    Step::Not(Leave {
        who: Party::Pass(0),
        pass: 0,
        gauge: CLOCK,
    }),
    Step::Checks(0, 1),
];

const UNREAD_BY_THE_SCANNER: &[Step] = &[
    Step::Opens(0, TWO_NEEDS),
    Step::Raises(1, 0, 1),
    Step::Begins(0, 0),
    Step::Learns(0, 0, &[0, 1, 2, 3, 4, 5, 6, 7, 8]),
    Step::Not(Leave {
        who: Party::Scanner(0),
        pass: 0,
        gauge: 0,
    }),
    Step::One(Read {
        who: Party::Scanner(0),
        gauge: 1,
    }),
    Step::One(Leave {
        who: Party::Scanner(0),
        pass: 0,
        gauge: 0,
    }),
];

// The scanner and the owner both win a generation once.
const WON_BEFORE: &[Step] = &[
    Step::Opens(0, &[1, 1000, 1, 0, 0, 1]),
    Step::Raises(1, 0, 1),
    Step::One(Read {
        who: Party::Pass(0),
        gauge: 0,
    }),
    Step::Begins(0, 0),
    Step::Learns(0, 0, &[0, 1, 2, 3, 4, 5]),
    Step::Wins(0, 0, 0, How::Satisfied),
    Step::Not(Win {
        who: Party::Scanner(0),
        pass: 0,
        how: How::Satisfied,
    }),
    // the owner tries too, and sees that it was won
    Step::One(Win {
        who: Party::Pass(0),
        pass: 0,
        how: How::Satisfied,
    }),
    Step::Not(Win {
        who: Party::Pass(0),
        pass: 0,
        how: How::Satisfied,
    }),
];

#[test]
fn runs_event_by_event(rt: HostRuntime) {
    for run in [WHOLE, UNREAD_BY_THE_PASS, UNREAD_BY_THE_SCANNER, WON_BEFORE] {
        let mut room = CoreState::start(rt.alloc(), PARTITION).expect(&rt, "memory");
        for step in run {
            assert!(rt; is_right(&mut room, step));
        }
    }
}

#[test]
fn a_gauge_is_loud_until_it_is_hushed(rt: HostRuntime) {
    let (low, high) = (Store { gauge: 0, value: 5 }, Store { gauge: 0, value: 6 });
    let mut room = run_events(rt.alloc(), PARTITION, &[low]).expect(&rt, "memory");
    assert!(rt; is_right(&mut room, &Step::Not(high)));
}
