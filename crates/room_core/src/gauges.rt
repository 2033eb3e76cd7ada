//! Which gauge is the clock, and which scanner scans a gauge. The steps ask this before they look into a table.
ghost use Rattle.std.specs.Prelude.{◌≡◌, ◌↔◌, ◌<◌, IsTrue};
ghost use Rattle.room_core.specs.Gauges.{IsGaugeOf, IsScanner, IsShape, clock_of, scanner_of};

use crate::numbers::CLOCK_SCANNER;
use crate::shape::Shape;

/// Whether one of the room's scanners has this number.
pub(crate) fn is_scanner(shape: Shape, scanner: u32) -> bool
    ensures { IsTrue result ↔ IsScanner shape scanner }
{
    scanner == CLOCK_SCANNER || scanner < shape.scanners.saturating_sub(1)
}

/// The clock, the last gauge.
pub(crate) fn clock(shape: Shape) -> u32
    ensures { result ≡ clock_of shape }
{
    shape.gauges.saturating_sub(1)
}

/// The scanner that scans a gauge.
#[tactic(auto, unfolding(crate::specs::Gauges::scanner_of))]
pub(crate) fn scanner_of(shape: Shape, gauge: u32) -> u32
    requires { IsShape shape }
    ensures { result ≡ scanner_of shape gauge }
{
    if gauge == shape.gauges - 1 {
        CLOCK_SCANNER
    } else {
        gauge % (shape.scanners - 1)
    }
}

/// Whether there is such a gauge, and the scanner with this number scans it.
#[tactic(auto, unfolding(crate::specs::Gauges::scanner_of))]
pub(crate) fn is_gauge_of(shape: Shape, scanner: u32, gauge: u64) -> bool
    requires { IsShape shape }
    ensures { IsTrue result ↔ IsGaugeOf shape scanner gauge }
{
    if gauge >= u64::from(shape.gauges) {
        return false;
    }
    if gauge == u64::from(clock(shape)) {
        scanner == CLOCK_SCANNER
    } else {
        gauge % u64::from(shape.scanners - 1) == u64::from(scanner)
    }
}
