//! What a turn does at a partition's desk, for `part_turns`: it leaves an entry, and hands on what the call gets of that.
ghost use Rattle.std.specs.Prelude.{◌≡◌, ◌≤◌, ◌/◌, IfOk, OnErr, OnOk, length};
ghost use Rattle.kanswer.specs.declared.accepted.Accepted.TheVariants.{Seen};
ghost use Rattle.kanswer.specs.Decisions.{fetch_outcome};
ghost use Rattle.kanswer.specs.Sent.{sent_outcome};
ghost use Rattle.partlog.specs.declared.part_log.TheConstants.{MOST_LOG_BYTES};
ghost use Rattle.partlog.specs.Gauges.{numbers_of};
ghost use Rattle.partlog.specs.Kept.{IsKept};
ghost use Rattle.partlog.specs.Looked.{looked};
ghost use Rattle.partlog.specs.State.{state_of};
ghost use Rattle.kanswer.specs.Entered.{HasEntered};
ghost use Rattle.room_table.specs.Seats.{caller_now};
ghost use Rattle.turn_lock.specs.AddedBy.{AddedBy};
ghost use Rattle.purgatory.specs.Going.{GoesOn, KeepsOperation};
ghost use Rattle.purgatory.specs.Rooms.{IsOfRoom, IsSourceOf};
ghost use Rattle.shared_logs.specs.Desks.{part_name};
ghost use Rattle.shared_logs.specs.Entries.{entry_by, log_entries};
ghost use Rattle.shared_logs.specs.Asked.{HasRead};
ghost use Rattle.shared_logs.specs.Sought.{HasSought};

use crate::PartDesk;
use crate::turns::{Fetched, Looked, Put, Read};
use crate::visit::Visit;
use crate::wanted::{Rest, Wanted};
use kanswer::{Accepted, Budget, SentBatch, read_asked};
use kbytes::{Bytes, NoMemory};
use kwire::FetchPart;
use partlog::{PartLog, Who};
use purgatory::RoomPass;
use std::alloc::Global;
use std::sync::Wait;

// What the reply to a fetch takes of a log, where this became of the partition.
fn records_of(
    alloc: Global,
    replica: i32,
    asked: &FetchPart,
    became: &Accepted,
    log: &PartLog,
    budget: &mut Budget,
) -> Result<Bytes, NoMemory>
    ensures { IfOk result (λ records.
        HasRead replica asked.now became.now (state_of log.now) (numbers_of (state_of log.now)) records budget.old budget.new) }
{
    match became {
        Accepted::Seen { start, .. } => {
            let reading = read_asked(alloc, replica, asked, *start, log, budget)?;
            Ok(reading.records)
        }
        Accepted::Refused { .. } | Accepted::Appended { .. } => Ok(Bytes::new(alloc)),
    }
}

/// Puts a batch into the log, and hands on its numbers then.
pub(crate) fn put_at(
    visit: &Visit<'_, '_, impl Wait>,
    desk: &mut PartDesk,
    pass: &mut RoomPass,
    sent: &SentBatch<'_>,
) -> Result<Put, NoMemory>
    requires pass { IsOfRoom visit.now.room.now pass.old }
    requires desk { IsSourceOf visit.now.room.now desk.old.sources.high }
    ensures entered { IfOk result (λ put. HasEntered visit.now.visitor.who.by visit.now.visitor.who.seq visit.now.visitor.moment (sent_outcome desk.old.part sent.now)
        desk.old.history desk.new.history put.entered) }
    ensures numbers { IfOk result (λ put. put.numbers ≡ numbers_of (state_of desk.new.history)) }
    ensures refused { OnErr result (desk.new ≡ desk.old) }
    ensures name { part_name desk.new ≡ part_name desk.old }
    ensures added { AddedBy entry_by visit.now.visitor.who.by (log_entries desk.old.history) (log_entries desk.new.history) }
    ensures whole { IsKept desk.new.history.log desk.new.history.events }
    ensures made { IsOfRoom visit.now.room.now pass.new }
    ensures went { GoesOn pass.old.seat pass.new.seat }
    ensures kept { KeepsOperation (caller_now pass.old.seat) (caller_now pass.new.seat) }
{
    let entered = desk.put(visit, pass, sent);
    let numbers = desk.log().numbers();
    Ok(Put {
        entered: entered?,
        numbers,
    })
}

/// Enters what a fetch asks, hands on the log's numbers then, and reads what the reply takes of it.
pub(crate) fn fetch_at(
    visit: &Visit<'_, '_, impl Wait>,
    desk: &mut PartDesk,
    pass: &mut RoomPass,
    wanted: &Wanted<'_>,
    budget: &mut Budget,
) -> Result<Fetched, NoMemory>
    requires pass { IsOfRoom visit.now.room.now pass.old }
    requires desk { IsSourceOf visit.now.room.now desk.old.sources.high }
    ensures entered { IfOk result (λ fetched. HasEntered visit.now.visitor.who.by visit.now.visitor.who.seq visit.now.visitor.moment
        (fetch_outcome desk.old.history.followers wanted.now.replica wanted.now.asked.now desk.old.part) desk.old.history desk.new.history fetched.entered) }
    ensures numbers { IfOk result (λ fetched. fetched.numbers ≡ numbers_of (state_of desk.new.history)) }
    ensures bounded { IfOk result (λ fetched. fetched.numbers.high ≤ MOST_LOG_BYTES) }
    ensures read { IfOk result (λ fetched. IfOk fetched.records (λ records.
        HasRead wanted.now.replica wanted.now.asked.now fetched.entered.became (state_of desk.new.history) fetched.numbers records budget.old budget.new)) }
    ensures refused { OnErr result (desk.new ≡ desk.old) }
    ensures name { part_name desk.new ≡ part_name desk.old }
    ensures added { AddedBy entry_by visit.now.visitor.who.by (log_entries desk.old.history) (log_entries desk.new.history) }
    ensures whole { IsKept desk.new.history.log desk.new.history.events }
    ensures made { IsOfRoom visit.now.room.now pass.new }
    ensures went { GoesOn pass.old.seat pass.new.seat }
    ensures kept { KeepsOperation (caller_now pass.old.seat) (caller_now pass.new.seat) }
{
    let entered = desk.fetch(visit, pass, wanted);
    let log = desk.log();
    let numbers = log.numbers();
    let entered = entered?;
    let Wanted {
        replica,
        asked,
        part: _,
    } = *wanted;
    let records = records_of(visit.alloc, replica, asked, &entered.became, log, budget);
    Ok(Fetched {
        entered,
        numbers,
        records,
    })
}

/// Looks at the log, and hands on the place of the look and the log's numbers.
pub(crate) fn look_at(desk: &mut PartDesk, who: Who) -> Result<Looked, NoMemory>
    ensures looked { OnOk result (desk.new.history ≡ looked desk.old.history who.by who.seq) }
    ensures place { IfOk result (λ at. at.place ≡ length desk.old.history.events) }
    ensures numbers { IfOk result (λ at. at.numbers ≡ numbers_of (state_of desk.old.history)) }
    ensures state { state_of desk.new.history ≡ state_of desk.old.history }
    ensures bounded { IfOk result (λ at. at.numbers.high ≤ MOST_LOG_BYTES) }
    ensures refused { OnErr result (desk.new ≡ desk.old) }
    ensures name { part_name desk.new ≡ part_name desk.old }
    ensures added { AddedBy entry_by who.by (log_entries desk.old.history) (log_entries desk.new.history) }
    ensures whole { IsKept desk.new.history.log desk.new.history.events }
{
    let place = desk.look(who);
    let numbers = desk.log().numbers();
    Ok(Looked {
        place: place?,
        numbers,
    })
}

/// The same, and reads what the reply to a fetch takes.
pub(crate) fn read_at(
    alloc: Global,
    desk: &mut PartDesk,
    who: Who,
    rest: &Rest<'_>,
    budget: &mut Budget,
) -> Result<Read, NoMemory>
    ensures looked { OnOk result (desk.new.history ≡ looked desk.old.history who.by who.seq) }
    ensures place { IfOk result (λ read. read.looked.place ≡ length desk.old.history.events) }
    ensures numbers { IfOk result (λ read. read.looked.numbers ≡ numbers_of (state_of desk.old.history)) }
    ensures bounded { IfOk result (λ read. read.looked.numbers.high ≤ MOST_LOG_BYTES) }
    ensures read { IfOk result (λ read. IfOk read.records (λ records.
        HasRead rest.now.replica rest.now.asked.now (Seen (rest.now.late.gauge / 3) rest.now.start) (state_of desk.new.history) read.looked.numbers
        records budget.old budget.new)) }
    ensures refused { OnErr result (desk.new ≡ desk.old) }
    ensures name { part_name desk.new ≡ part_name desk.old }
    ensures added { AddedBy entry_by who.by (log_entries desk.old.history) (log_entries desk.new.history) }
    ensures whole { IsKept desk.new.history.log desk.new.history.events }
{
    let looked = look_at(desk, who)?;
    let became = Accepted::Seen {
        part: rest.late.gauge / 3,
        start: rest.start,
    };
    let records = records_of(alloc, rest.replica, rest.asked, &became, desk.log(), budget);
    Ok(Read { looked, records })
}

/// Where these bytes stand in the log, if they do from the batch on that has this offset.
pub(crate) fn place_in(log: &PartLog, offset: u64, bytes: &[u8]) -> Option<u64>
    ensures { HasSought offset bytes.now log.now result }
{
    let start = log.locate(offset);
    let rest = &log.log()[start as usize..];
    if !rest.starts_with(bytes) {
        return None;
    }
    Some(start)
}
