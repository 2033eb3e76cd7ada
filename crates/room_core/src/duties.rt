//! The duties of a scan. `ScannerPart::begins` makes them from a row of its listing; `CoreState` asks whether any is left before
//! it lets the scanner hear or begin again.
ghost use Rattle.std.specs.Prelude.{◌≡◌, ◌↔◌, ◌<◌, ℕ, IsTrue, None, length, slice_index_or};
ghost use Rattle.room_core.specs.Scans.{duty_of, is_due};

use crate::parts::{Duty, Entry};
use crate::shape::Shape;

/// Whether no pass has a duty.
pub(crate) fn is_free(duties: &[Option<Duty>]) -> bool
    ensures { IsTrue result ↔ ((pass : ℕ) → slice_index_or duties.now pass None ≡ None) }
{
    for pass in 0..duties.len() {
        if duties[pass].is_some() {
            return false;
        }
    }
    true
}

/// Whether an entry is due in a scan of its gauge. Every entry is, but in the clock's only those whose deadline has come since the
/// last scan.
fn is_due(shape: Shape, gauge: u32, begun: u64, heard: u64, entry: Entry) -> bool
    requires { 0 < shape.gauges }
    ensures { result ≡ is_due shape gauge begun heard entry }
{
    gauge != shape.gauges - 1 || (begun < entry.deadline && entry.deadline <= heard)
}

/// The duty that a scan makes of one place in the listing.
#[tactic(auto, unfolding(crate::specs::Scans::duty_of))]
fn duty_of(shape: Shape, gauge: u32, begun: u64, heard: u64, entry: Option<Entry>) -> Option<Duty>
    requires { 0 < shape.gauges }
    ensures { result ≡ duty_of shape gauge begun heard entry }
{
    match entry {
        Some(entry) => {
            if is_due(shape, gauge, begun, heard, entry) {
                Some(Duty {
                    gauge,
                    generation: entry.generation,
                })
            } else {
                None
            }
        }
        None => None,
    }
}

/// Makes the duties of a scan of the gauge with this row of the listing.
pub(crate) fn make_duties(
    duties: &mut Vec<Option<Duty>>,
    row: &[Option<Entry>],
    shape: Shape,
    gauge: u32,
    begun: u64,
    heard: u64,
)
    requires some { 0 < shape.gauges }
    requires size { length duties.old.items ≡ length row.now }
    ensures size { length duties.new.items ≡ length duties.old.items }
    ensures duties { (pass : ℕ) → slice_index_or duties.new.items pass None ≡ duty_of shape gauge begun heard (slice_index_or row.now pass None) }
{
    for pass in 0..row.len() {
        duties[pass] = duty_of(shape, gauge, begun, heard, row[pass]);
    }
}
