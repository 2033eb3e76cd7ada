//! The table starts with one seat for the whole room. `RoomTable::make` has it split here into lists of seats, one for each part,
//! and `RoomTable::close` hands such lists to a `Closing`.
ghost use Rattle.std.specs.Prelude.{◌≡◌, ◌<◌, ◌++◌, [], All, IfOk};
ghost use Rattle.room_core.specs.Gauges.{IsShape};
ghost use Rattle.room_table.specs.Fresh.{all_callers, all_parts, all_scanners};
ghost use Rattle.room_table.specs.Handed.{fresh_callers, fresh_scanners, fresh_sources};
ghost use Rattle.room_table.specs.Seats.{HasScanner, scan_view, table_view};
ghost use Rattle.room_table.specs.Tells.{scanner_steps};

use crate::closing::Closing;
use crate::layout::pass_place;
use crate::plays::HandOut;
use crate::rule::{Place, Top};
use crate::seats::{CallerSeat, ScanSeat, SourceSeat};
use kbytes::{List, NoMemory};
use room_core::{CLOCK_SCANNER, Shape};
use std::alloc::Global;

pub(crate) fn hand_sources(
    alloc: Global,
    top: &Top,
    shape: Shape,
    seat: &mut Place,
) -> Result<List<SourceSeat>, NoMemory>
    requires table { (seat.old.table_id ≡ top.now.table_id) × (0 < top.now.table_id.words) }
    requires parts { seat.old.me ≡ (all_parts shape, []) }
    ensures seats { IfOk result (λ all. all ≡ fresh_sources (table_view top.now.table_id shape)) }
    ensures table { IfOk result (λ all. seat.new.table_id ≡ seat.old.table_id) }
    ensures parts { IfOk result (λ all. seat.new.me ≡ (all_callers shape, [])) }
{
    let mut all = List::new(alloc);
    for gauge in 0..shape.gauges {
        let seat = top.split_seat::<HandOut>(seat);
        all.push(SourceSeat { seat, gauge })?;
    }
    Ok(all)
}

pub(crate) fn hand_callers(
    alloc: Global,
    top: &Top,
    shape: Shape,
    seat: &mut Place,
) -> Result<List<CallerSeat>, NoMemory>
    requires shape { IsShape shape }
    requires table { (seat.old.table_id ≡ top.now.table_id) × (0 < top.now.table_id.words) }
    requires parts { seat.old.me ≡ (all_callers shape, []) }
    ensures seats { IfOk result (λ all. all ≡ fresh_callers (table_view top.now.table_id shape)) }
    ensures table { IfOk result (λ all. seat.new.table_id ≡ seat.old.table_id) }
    ensures parts { IfOk result (λ all. seat.new.me ≡ (all_scanners shape, [])) }
{
    let mut all = List::new(alloc);
    for pass in 0..shape.passes {
        let seat = top.split_seat::<HandOut>(seat);
        all.push(CallerSeat {
            seat,
            pass,
            generation: 0,
            first: pass_place(shape, pass),
        })?;
    }
    Ok(all)
}

fn fresh_scan(seat: Place, scanner: u32) -> ScanSeat
    requires { HasScanner scanner seat.me × (scanner_steps seat.me.0 ≡ []) }
    ensures { result ≡ scan_view seat.table_id scanner seat.me.0 }
{
    ScanSeat {
        seat,
        scanner,
        heard: 0,
        met: 0,
        first: 0,
    }
}

/// The seats of the shards' scanners; what is left of the whole is then the seat of the clock's.
pub(crate) fn hand_scanners(
    alloc: Global,
    top: &Top,
    shape: Shape,
    mut seat: Place,
) -> Result<List<ScanSeat>, NoMemory>
    requires shape { IsShape shape }
    requires table { (seat.table_id ≡ top.now.table_id) × (0 < top.now.table_id.words) }
    requires parts { seat.me ≡ (all_scanners shape, []) }
    ensures { IfOk result (λ all. all ≡ fresh_scanners (table_view top.now.table_id shape)) }
{
    let mut all = List::new(alloc);
    for scanner in 0..shape.scanners - 1 {
        let one = top.split_seat::<HandOut>(&mut seat);
        all.push(fresh_scan(one, scanner))?;
    }
    all.push(fresh_scan(seat, CLOCK_SCANNER))?;
    Ok(all)
}

pub(crate) fn take_sources(closing: &mut Closing, mut sources: List<SourceSeat>)
    requires { All (λ s. s.table ≡ closing.old.table) sources }
    ensures { closing.new ≡ record closing.old { sources = sources ++ closing.old.sources } }
{
    while let Some(source) = sources.pop() {
        closing.take_source(source);
    }
}

pub(crate) fn take_callers(closing: &mut Closing, mut callers: List<CallerSeat>)
    requires { All (λ s. s.table ≡ closing.old.table) callers }
    ensures { closing.new ≡ record closing.old { callers = callers ++ closing.old.callers } }
{
    while let Some(caller) = callers.pop() {
        closing.take_caller(caller);
    }
}

pub(crate) fn take_scanners(closing: &mut Closing, mut scanners: List<ScanSeat>)
    requires { All (λ s. s.table ≡ closing.old.table) scanners }
    ensures { closing.new ≡ record closing.old { scanners = scanners ++ closing.old.scanners } }
{
    while let Some(scan) = scanners.pop() {
        closing.take_scanner(scan);
    }
}
