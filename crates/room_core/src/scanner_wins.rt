//! How a scanner's check ends with an exchange: the prize is kept if the word was still open, and the entry and the duty go
//! either way. `scan_steps` calls this.
ghost use Rattle.std.specs.Prelude.{◌≡◌, ◌<◌, ◌↔◌, IsTrue, OnErr, OnOk};
ghost use Rattle.room_core.specs.Checks.{IsOnCheck, IsWon, MayWin, gauge_of_duty, other_entry, scanner_wins};
ghost use Rattle.room_core.specs.Gauges.{IsShape};
ghost use Rattle.room_core.specs.Meetings.{words_of};
ghost use Rattle.room_core.specs.Put.{put};

use crate::event::How;
use crate::gauges::clock;
use crate::numbers::CLOCK_SCANNER;
use crate::parts::{Entry, Prize, Session};
use crate::scanner_part::ScannerPart;
use crate::session_word::keep_prize;
use kbytes::NoMemory;

/// An entry, if it isn't of this generation.
#[tactic(auto, unfolding(crate::specs::Checks::other_entry))]
fn entry_of_other(entry: Option<Entry>, generation: u32) -> Option<Entry>
    ensures { result ≡ other_entry entry generation }
{
    match entry {
        None => None,
        Some(entry) => {
            if entry.generation == generation {
                None
            } else {
                Some(entry)
            }
        }
    }
}

impl ScannerPart {
    ghost use Rattle.room_core.specs.ScannerTables.{scanner_of};

    /// Whether a check has found the operation of this pass answerable in this way.
    pub(crate) fn may_win(&self, scanner: u32, pass: u32, how: How) -> bool
        requires pass_in { pass < self.now.shape.passes }
        requires shape { IsShape self.now.shape }
        ensures { IsTrue result ↔ (IsOnCheck (scanner_of self.now) pass × MayWin scanner how × IsWon self.now.shape how (words_of (scanner_of self.now)) (scanner_of self.now).readings) }
    {
        if !self.is_on_check(pass) {
            return false;
        }
        match how {
            How::Satisfied => scanner != CLOCK_SCANNER && self.is_satisfied(),
            How::Expired => {
                scanner == 16 && self.has_read(u64::from(clock(self.shape))) && self.is_overdue()
            }
        }
    }

    /// Drops the entry of a gauge and a pass, if it is of this generation.
    fn drops_entry(&mut self, gauge: u32, pass: u32, generation: u32)
        requires { pass < self.old.shape.passes }
        ensures part { scanner_of self.new ≡ record (scanner_of self.old) { listing = put (scanner_of self.old).listing gauge (put ((scanner_of self.old).listing gauge) pass (other_entry ((scanner_of self.old).listing gauge pass) generation)) } }
        ensures shape { self.new.shape ≡ self.old.shape }
    {
        if gauge >= self.shape.gauges {
            return;
        }
        let entry = entry_of_other(self.listing[gauge as usize][pass as usize], generation);
        self.lists(u64::from(gauge), pass, entry);
    }

    fn duty_gauge(&self, pass: u32) -> u32
        requires { pass < self.now.shape.passes }
        ensures { result ≡ gauge_of_duty ((scanner_of self.now).duties pass) }
    {
        match self.duties[pass as usize] {
            Some(duty) => duty.gauge,
            None => 0,
        }
    }

    pub(crate) fn wins_by(&mut self, pass: u32, how: How, session: Session) -> Result<(), NoMemory>
        requires { pass < self.old.shape.passes }
        ensures part { OnOk result (scanner_of self.new ≡ scanner_wins (scanner_of self.old) pass how session) }
        ensures same { OnErr result (scanner_of self.new ≡ scanner_of self.old) }
        ensures shape { self.new.shape ≡ self.old.shape }
    {
        let generation = self.generation();
        let gauge = self.duty_gauge(pass);
        keep_prize(
            &mut self.wins,
            session,
            Prize {
                pass,
                generation,
                how,
            },
        )?;
        self.drops_entry(gauge, pass, generation);
        self.lets_go(pass);
        Ok(())
    }
}
