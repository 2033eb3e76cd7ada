//! What a scanner still has of a pass once it has looked at its session word: a meeting, live entries, a live duty.
//! `ScannerPart::meets` puts these together.
ghost use Rattle.std.specs.Prelude.{◌≡◌, ◌<◌, ◌↔◌, ℕ, All, IsTrue, None, length, slice_get};
ghost use Rattle.room_core.specs.CallerTables.{table};
ghost use Rattle.room_core.specs.Meetings.{IsMet, live_duty, live_entry, met};
ghost use Rattle.room_core.specs.Put.{put};
ghost use Rattle.room_core.specs.ScannerTables.{row};

use crate::parts::{Duty, Entry, Meeting, Phase, Session};
use crate::session_word::is_live;
use crate::shape::Shape;

/// Whether there is a meeting with this pass.
pub(crate) fn is_met(meeting: Option<Meeting>, pass: u32) -> bool
    ensures { IsTrue result ↔ IsMet meeting pass }
{
    match meeting {
        Some(meeting) => meeting.pass == pass,
        None => false,
    }
}

/// The meeting with a pass, if its word is open.
#[tactic(auto, unfolding(crate::specs::Meetings::met))]
pub(crate) fn meeting_with(session: Session, pass: u32) -> Option<Meeting>
    ensures { result ≡ met session pass }
{
    match session.phase {
        Phase::Open => Some(Meeting {
            pass,
            generation: session.generation,
        }),
        Phase::Idle | Phase::Won { .. } => None,
    }
}

/// An entry, if the word is open at its generation.
#[tactic(auto, unfolding(crate::specs::Meetings::live_entry))]
fn still_listed(session: Session, entry: Option<Entry>) -> Option<Entry>
    ensures { result ≡ live_entry session entry }
{
    match entry {
        None => None,
        Some(entry) => {
            if is_live(session, entry.generation) {
                Some(entry)
            } else {
                None
            }
        }
    }
}

/// A duty, if the word is open at its generation.
#[tactic(auto, unfolding(crate::specs::Meetings::live_duty))]
pub(crate) fn still_due(session: Session, duty: Option<Duty>) -> Option<Duty>
    ensures { result ≡ live_duty session duty }
{
    match duty {
        None => None,
        Some(duty) => {
            if is_live(session, duty.generation) {
                Some(duty)
            } else {
                None
            }
        }
    }
}

fn drop_dead_entry(row: &mut Vec<Option<Entry>>, pass: u32, session: Session)
    requires { pass < length row.old.items }
    ensures size { length row.new.items ≡ length row.old.items }
    ensures kept { table row.new.items None ≡ put (table row.old.items None) pass (live_entry session (table row.old.items None pass)) }
{
    let entry = still_listed(session, row[pass as usize]);
    row[pass as usize] = entry;
}

/// Drops each entry of a pass whose generation isn't the one at which its word is open.
pub(crate) fn drop_dead(
    listing: &mut Vec<Vec<Option<Entry>>>,
    shape: Shape,
    pass: u32,
    session: Session,
)
    requires pass_in { pass < shape.passes }
    requires rows { All (λ row. length row.items ≡ shape.passes) listing.old.items }
    ensures size { length listing.new.items ≡ length listing.old.items }
    ensures rows { All (λ row. length row.items ≡ shape.passes) listing.new.items }
    ensures kept { (gauge other : ℕ) → row (slice_get listing.new.items gauge) None other ≡ put (row (slice_get listing.old.items gauge) None) pass (live_entry session (row (slice_get listing.old.items gauge) None pass)) other }
{
    for gauge in 0..listing.len() {
        let row = &mut listing[gauge];
        drop_dead_entry(row, pass, session);
    }
}
