//! The sums over all sessions that a storm prints.

ghost use Rattle.std.specs.Prelude.{◌≡◌, ◌+◌, ◌∷◌, ◌++◌, [], List as Items, IfOk, OnOk};
ghost use Rattle.std.specs.List.{flat_map};
ghost use Rattle.audit.specs.Totals.{AreTotals};
ghost use Rattle.audit.specs.declared.account.Transcript.{Transcript as TheTranscript};

use crate::account::Transcript;
use crate::tally::{parked_count, reply_count};
use kbytes::{List, NoMemory};

/// The number of sessions, and of their calls, of those that have a reply, and of those that are parked.
#[derive(Drop)]
pub struct Totals {
    pub sessions: u64,
    pub calls: u64,
    pub replies: u64,
    pub parked: u64,
}

// No memory holds more than 2^64 calls.
fn sum(count: u64, more: usize) -> Result<u64, NoMemory>
    ensures { IfOk result (λ sum. sum ≡ count + more) }
{
    count.checked_add(more as u64).ok_or(NoMemory)
}

impl Totals {
    fn add(&mut self, transcript: &Transcript) -> Result<(), NoMemory>
        ensures { OnOk result ((before : Items TheTranscript) → AreTotals before self.old → AreTotals (before ++ transcript.now ∷ []) self.new) }
    {
        let calls = transcript.calls.as_slice();
        self.sessions = sum(self.sessions, 1)?;
        self.calls = sum(self.calls, calls.len())?;
        self.replies = sum(self.replies, reply_count(calls))?;
        self.parked = sum(self.parked, parked_count(calls))?;
        Ok(())
    }

    fn add_pass(&mut self, transcripts: &[Transcript]) -> Result<(), NoMemory>
        ensures { OnOk result ((before : Items TheTranscript) → AreTotals before self.old → AreTotals (before ++ transcripts.now) self.new) }
    {
        for transcript in transcripts {
            self.add(transcript)?;
        }
        Ok(())
    }

    /// The sums over all sessions of these passes.
    pub fn of(passes: &[List<Transcript>]) -> Result<Totals, NoMemory>
        ensures { IfOk result (AreTotals (flat_map (λ transcripts. transcripts) passes.now)) }
    {
        let mut totals = Totals {
            sessions: 0,
            calls: 0,
            replies: 0,
            parked: 0,
        };
        for transcripts in passes {
            totals.add_pass(transcripts.as_slice())?;
        }
        Ok(totals)
    }
}
