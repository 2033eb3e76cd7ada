//! What is behind a partition's lock: `desk_calls` enters batches, fetches and looks here, in a turn, `part_turns` takes out who lags, and the
//! gauges rise with the log.
ghost use Rattle.std.specs.Prelude.{◌≡◌, ◌+◌, [], IfOk, OnOk, OnErr, length};
ghost use Rattle.kanswer.specs.Decisions.{fetch_outcome};
ghost use Rattle.kanswer.specs.Sent.{sent_outcome};
ghost use Rattle.partlog.specs.Gauges.{numbers_of};
ghost use Rattle.partlog.specs.Kept.{IsKept};
ghost use Rattle.partlog.specs.Lagging.{LeftLate, NoneLags};
ghost use Rattle.partlog.specs.Looked.{looked};
ghost use Rattle.partlog.specs.Shrunk.{all_shrunk};
ghost use Rattle.partlog.specs.State.{state_of};
ghost use Rattle.kanswer.specs.Entered.{HasEntered};
ghost use Rattle.turn_lock.specs.AddedBy.{AddedBy};
ghost use Rattle.room_table.specs.Seats.{caller_now};
ghost use Rattle.purgatory.specs.Going.{GoesOn, KeepsOperation};
ghost use Rattle.purgatory.specs.Rooms.{IsOfRoom, IsSourceOf};
ghost use Rattle.shared_logs.specs.Desks.{part_name};
ghost use Rattle.shared_logs.specs.Entries.{entry_by, log_entries};
ghost use Rattle.shared_logs.specs.Keeps.{AreAt, AreOfPart, AreStill, PartKeeps};
ghost use Rattle.shared_logs.specs.Shrunk.{HasShrunkSome};

use crate::sources::PartSources;
use crate::visit::Visit;
use crate::wanted::Wanted;
use kanswer::{Entered, SentBatch, enter_batch, enter_fetch};
use kbytes::NoMemory;
use partlog::{Numbers, PartLog, Who, numbers_never_fall};
use purgatory::RoomPass;
use std::alloc::Global;
use std::marker::Model;
use std::sync::Wait;

/// A partition's log, and the sources of its gauges. Between any two calls the gauges are at the numbers of the log's history, and each
/// call leaves the desk's name as it was.
#[derive(Drop)]
pub struct PartDesk {
    // in boxes, since a turn moves the desk out of its lock and back
    log: Box<PartLog>,
    part: u32,
    sources: Box<PartSources>,
}

impl Model for PartDesk {
    ghost use Rattle.shared_logs.specs.Desks.{PartView};

    ghost Value = { PartView };

    ghost use Rattle.shared_logs.specs.Keeps.{PartKeeps};

    ghost view = { λ d. record { history = d.log.value; part = d.part; sources = d.sources.value } };

    ghost invariant = { λ d. PartKeeps (record { history = d.log.value; part = d.part; sources = d.sources.value }) };
}

impl PartDesk {
    /// The desk of the partition of this number, with that many followers and an empty log, from the sources of its gauges as the room
    /// hands them out. It is refused where no memory is left.
    pub fn make(
        alloc: Global,
        part: u32,
        followers: u32,
        sources: PartSources,
    ) -> Result<PartDesk, NoMemory>
        requires whose { AreOfPart part sources }
        requires fresh { AreAt (record { end = 0; high = 0; visible = 0; bytes = 0; insync = followers + 1 }) sources }
        ensures { IfOk result (λ desk. desk ≡ record {
          history = record { log = []; followers = followers; events = [] };
          part = part;
          sources = sources;
        }) }
    {
        sources.high.stays_quiet();
        sources.visible.stays_quiet();
        sources.end.stays_quiet();
        let log = PartLog::new(alloc, followers)?;
        Ok(PartDesk {
            log: Box::new(alloc, log)?,
            part,
            sources: Box::new(alloc, sources)?,
        })
    }

    /// Puts a batch at the end of the log for the call that visits, where enough replicas are in sync and there is room, and raises the
    /// gauges that rose. The pass of the room then owes their scans, which `settle` pays once the turn is over. Where too few are in sync
    /// or there is no room, the log is looked at and the partition is refused. If memory runs out, all is as it was.
    pub fn put(
        &mut self,
        visit: &Visit<'_, '_, impl Wait>,
        pass: &mut RoomPass,
        sent: &SentBatch<'_>,
    ) -> Result<Entered, NoMemory>
        requires pass { IsOfRoom visit.now.room.now pass.old }
        requires desk { IsSourceOf visit.now.room.now self.old.sources.high }
        ensures entered { IfOk result (λ entered. HasEntered visit.now.visitor.who.by visit.now.visitor.who.seq visit.now.visitor.moment (sent_outcome self.old.part sent.now) self.old.history self.new.history entered) }
        ensures refused { OnErr result ((self.new ≡ self.old) × (pass.new ≡ pass.old)) }
        ensures still { AreStill (numbers_of (state_of self.old.history)) (numbers_of (state_of self.new.history)) self.old.sources self.new.sources }
        ensures untouched { numbers_of (state_of self.new.history) ≡ numbers_of (state_of self.old.history) → pass.new ≡ pass.old }
        ensures name { part_name self.new ≡ part_name self.old }
        ensures added { AddedBy entry_by visit.now.visitor.who.by (log_entries self.old.history) (log_entries self.new.history) }
        ensures made { IsOfRoom visit.now.room.now pass.new }
        ensures went { GoesOn pass.old.seat pass.new.seat }
        ensures kept { KeepsOperation (caller_now pass.old.seat) (caller_now pass.new.seat) }
    {
        numbers_never_fall();
        let before = self.log.numbers();
        let entered = enter_batch(&mut self.log, visit.visitor, self.part, sent)?;
        let after = self.log.numbers();
        self.sources.tell(visit, pass, &before, &after);
        Ok(entered)
    }

    /// Enters what a fetch asks of the partition for the call that visits: a follower's fetch in range moves the follower, at the visitor's
    /// moment, and the gauges that rose are raised, as in `put`; every other fetch looks at the log. A negative replica is a consumer. If memory runs
    /// out, all is as it was.
    pub fn fetch(
        &mut self,
        visit: &Visit<'_, '_, impl Wait>,
        pass: &mut RoomPass,
        wanted: &Wanted<'_>,
    ) -> Result<Entered, NoMemory>
        requires pass { IsOfRoom visit.now.room.now pass.old }
        requires desk { IsSourceOf visit.now.room.now self.old.sources.high }
        ensures entered { IfOk result (λ entered. HasEntered visit.now.visitor.who.by visit.now.visitor.who.seq visit.now.visitor.moment (fetch_outcome self.old.history.followers wanted.now.replica wanted.now.asked.now self.old.part) self.old.history self.new.history entered) }
        ensures refused { OnErr result ((self.new ≡ self.old) × (pass.new ≡ pass.old)) }
        ensures still { AreStill (numbers_of (state_of self.old.history)) (numbers_of (state_of self.new.history)) self.old.sources self.new.sources }
        ensures untouched { numbers_of (state_of self.new.history) ≡ numbers_of (state_of self.old.history) → pass.new ≡ pass.old }
        ensures name { part_name self.new ≡ part_name self.old }
        ensures added { AddedBy entry_by visit.now.visitor.who.by (log_entries self.old.history) (log_entries self.new.history) }
        ensures made { IsOfRoom visit.now.room.now pass.new }
        ensures went { GoesOn pass.old.seat pass.new.seat }
        ensures kept { KeepsOperation (caller_now pass.old.seat) (caller_now pass.new.seat) }
    {
        numbers_never_fall();
        let before = self.log.numbers();
        let entered = enter_fetch(
            &mut self.log,
            visit.visitor,
            wanted.replica,
            self.part,
            wanted.asked,
        )?;
        let after = self.log.numbers();
        self.sources.tell(visit, pass, &before, &after);
        Ok(entered)
    }

    /// Takes out of the in-sync set, for the pass that visits, every follower that lags at this moment, the least first, and raises the
    /// gauges that rose, as in `put`. If memory runs out, some of the first of them may have left; the gauges are raised then too.
    pub fn shrink(
        &mut self,
        visit: &Visit<'_, '_, impl Wait>,
        pass: &mut RoomPass,
        t: u64,
    ) -> Result<(), NoMemory>
        requires pass { IsOfRoom visit.now.room.now pass.old }
        requires desk { IsSourceOf visit.now.room.now self.old.sources.high }
        ensures shrunk { OnOk result (self.new.history ≡ all_shrunk self.old.history visit.now.visitor.who.by t) }
        ensures none_lags { OnOk result (NoneLags self.new.history.followers self.new.history.events t) }
        ensures some { HasShrunkSome visit.now.visitor.who.by t self.old.history self.new.history }
        ensures still { AreStill (numbers_of (state_of self.old.history)) (numbers_of (state_of self.new.history)) self.old.sources self.new.sources }
        ensures untouched { numbers_of (state_of self.new.history) ≡ numbers_of (state_of self.old.history) → pass.new ≡ pass.old }
        ensures name { part_name self.new ≡ part_name self.old }
        ensures added { AddedBy entry_by visit.now.visitor.who.by (log_entries self.old.history) (log_entries self.new.history) }
        ensures whole { IsKept self.new.history.log self.new.history.events }
        ensures made { IsOfRoom visit.now.room.now pass.new }
        ensures went { GoesOn pass.old.seat pass.new.seat }
        ensures kept { KeepsOperation (caller_now pass.old.seat) (caller_now pass.new.seat) }
    {
        numbers_never_fall();
        let before = self.log.numbers();
        let shrunk = self.log.shrink_all(visit.visitor.who.by, t);
        let after = self.log.numbers();
        self.sources.tell(visit, pass, &before, &after);
        shrunk
    }

    /// Enters a look at the log for a call of a pass, and answers the place of the entry. No gauge changes. If memory runs out, all is
    /// as it was.
    pub fn look(&mut self, who: Who) -> Result<u64, NoMemory>
        ensures looked { OnOk result (self.new ≡ record { history = looked self.old.history who.by who.seq; part = self.old.part; sources = self.old.sources }) }
        ensures place { IfOk result (λ place. place ≡ length self.old.history.events) }
        ensures state { state_of self.new.history ≡ state_of self.old.history }
        ensures refused { OnErr result (self.new ≡ self.old) }
        ensures name { part_name self.new ≡ part_name self.old }
        ensures added { AddedBy entry_by who.by (log_entries self.old.history) (log_entries self.new.history) }
    {
        self.log.look(who)
    }

    /// The log, to read numbers and batches from.
    pub fn log(&self) -> &PartLog
        ensures { result.now ≡ self.now.history }
    {
        &self.log
    }

    /// The partition's number.
    pub fn number(&self) -> u32
        ensures { result ≡ self.now.part }
    {
        self.part
    }

    /// Law: what the desk keeps between any two calls.
    pub fn keeps(&self)
        ensures { PartKeeps self.now }
    {
        let _ = &self.log;
    }

    /// The log and the sources, for the close.
    pub fn into_parts(self) -> (PartLog, PartSources)
        ensures log { result.0 ≡ self.history }
        ensures sources { result.1 ≡ self.sources }
        ensures keeps { PartKeeps self }
        ensures late { LeftLate self.history.followers self.history.events }
    {
        self.log.numbers();
        (Box::into_inner(self.log), Box::into_inner(self.sources))
    }
}
