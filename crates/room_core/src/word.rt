//! The words that all threads see, and the number that a session word is in memory. The layer above lays its table out by `Word`,
//! and reads and writes sessions by `packed` and `unpacked`.
ghost use Rattle.std.specs.Prelude.{◌≡◌, ◌<◌, ◌^◌};
ghost use Rattle.room_core.specs.Packing.{packed, phase_number, unpacked, winner_number};

use crate::event::How;
use crate::numbers::PHASES;
use crate::parts::{Phase, Session};

// A session word has this for each generation, and `PHASES` for each number below the winner's: there are fewer than 256 winners.
const WINNERS: u64 = 1024;

/// One of the room's words, all of which every thread sees.
#[derive(Clone, Copy)]
pub enum Word {
    /// The value of a gauge, as its source stored it.
    Value { gauge: u32 },
    /// The value up to which a scan of a gauge is asked for.
    Asked { gauge: u32 },
    /// The value up to which a scan of a gauge was begun.
    Begun { gauge: u32 },
    /// The session word of a pass.
    Session { pass: u32 },
    /// A word of a pass's description: 0 the least tally, 1 the deadline, 2 the number of needs, and from 3 on the gauge, start
    /// and cap of each need.
    Description { pass: u32, at: u32 },
    /// The mark of a need, or, at 64, of the clock's listing.
    Mark { pass: u32, at: u32 },
}

/// The number of a phase, with the way in which the operation was won.
fn phase_number(phase: Phase) -> u64
    ensures { result ≡ phase_number phase }
{
    match phase {
        Phase::Idle => 0,
        Phase::Open => 1,
        Phase::Won { how, by: _ } => match how {
            How::Satisfied => 2,
            How::Expired => 3,
        },
    }
}

/// The winner's number, or 0 where nobody won.
fn winner_number(phase: Phase) -> u32
    ensures { result ≡ winner_number phase }
{
    match phase {
        Phase::Won { how: _, by } => by,
        Phase::Idle | Phase::Open => 0,
    }
}

impl Session {
    /// The session word as a number: 1024 for each generation, 4 for each number below the winner's, and the phase: 0 idle,
    /// 1 open, 2 satisfied, 3 expired.
    #[tactic(auto, unfolding(crate::specs::Packing::packed))]
    pub fn packed(self) -> u64
        ensures { result ≡ packed self }
    {
        u64::from(self.generation) * WINNERS
            + u64::from(winner_number(self.phase)) * PHASES
            + phase_number(self.phase)
    }

    /// The session word of a number whose generation is below 2^32.
    #[tactic(auto, unfolding(crate::specs::Packing::unpacked))]
    pub fn unpacked(word: u64) -> Session
        requires { word < 2 ^ 42 }
        ensures { result ≡ unpacked word }
    {
        let by = (word / PHASES % (WINNERS / PHASES)) as u32;
        let phase = match word % PHASES {
            0 => Phase::Idle,
            1 => Phase::Open,
            2 => Phase::Won {
                how: How::Satisfied,
                by,
            },
            _ => Phase::Won {
                how: How::Expired,
                by,
            },
        };
        Session {
            generation: (word / WINNERS) as u32,
            phase,
        }
    }
}
