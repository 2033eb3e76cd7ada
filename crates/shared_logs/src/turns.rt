//! `SharedLogs`' calls on one partition, by its number. Each finds the lock and the pass's key; `part_turns` takes the turn, and
//! `desk_calls` acts in it.
ghost use Rattle.std.specs.Prelude.{◌≡◌, ◌<◌, ◌≤◌, ◌/◌, IfOk, OnErr, OnOk, length, slice_index};
ghost use Rattle.kanswer.specs.declared.accepted.Accepted.TheVariants.{Seen};
ghost use Rattle.kanswer.specs.Decisions.{fetch_outcome};
ghost use Rattle.kanswer.specs.Sent.{sent_outcome};
ghost use Rattle.partlog.specs.declared.part_log.TheConstants.{MOST_LOG_BYTES};
ghost use Rattle.partlog.specs.Lagging.{NoneLags};
ghost use Rattle.partlog.specs.State.{state_of};
ghost use Rattle.audit.specs.broker.Board.{history_at};
ghost use Rattle.shared_logs.specs.Asked.{HasAsked, HasLooked, HasRead};
ghost use Rattle.shared_logs.specs.Coming.{HasCaughtUp};
ghost use Rattle.shared_logs.specs.Seen.{HasSeen};
ghost use Rattle.shared_logs.specs.Shared.{followers_in};
ghost use Rattle.shared_logs.specs.Shrinking.{HasShrunkOne};
ghost use Rattle.shared_logs.specs.Sought.{HasSought};

use crate::logs::SharedLogs;
use crate::part_turns::{fetch_from, find_in, look_into, put_into, read_from, shrink_in};
use crate::pass::LogPass;
use crate::visit::Visit;
use crate::wanted::{AtLeast, Rest, Wanted};
use kanswer::{Budget, Entered, SentBatch, Visitor};
use kbytes::{Bytes, NoMemory};
use partlog::{Numbers, Who};
use std::sync::Wait;

/// What became of a partition into which a batch was put, and its log's numbers just after.
#[derive(Clone, Copy)]
pub struct Put {
    pub entered: Entered,
    pub numbers: Numbers,
}

/// What became of a partition that a fetch asked, its log's numbers just after, and what the reply takes of it then. That may have found
/// no memory: the entry is there all the same.
#[derive(Drop)]
pub struct Fetched {
    pub entered: Entered,
    pub numbers: Numbers,
    pub records: Result<Bytes, NoMemory>,
}

/// The place of a look at a partition, and its log's numbers there.
#[derive(Clone, Copy)]
pub struct Looked {
    pub place: u64,
    pub numbers: Numbers,
}

/// A look at a partition, and what the reply takes of it there. That may have found no memory: the look is there all the same.
#[derive(Drop)]
pub struct Read {
    pub looked: Looked,
    pub records: Result<Bytes, NoMemory>,
}

impl SharedLogs {
    /// Puts a batch into a partition, in a turn of its lock, for a call of the pass. The pass may then owe scans. If memory runs out,
    /// it has left nothing.
    pub(crate) fn put(
        &self,
        rt: &impl Wait,
        pass: &mut LogPass,
        part: u32,
        who: Who,
        sent: &SentBatch<'_>,
    ) -> Result<Put, NoMemory>
        requires made { pass.old.made ≡ self.now }
        requires there { part < length self.now.parts }
        requires who { who.by ≡ pass.old.number }
        ensures made { pass.new.made ≡ self.now }
        ensures seen { HasSeen pass.new }
        ensures asked { IfOk result (λ put. HasAsked part who.seq (sent_outcome part sent.now) pass.old pass.new put.entered put.numbers) }
        ensures refused { OnErr result (HasCaughtUp pass.old pass.new) }
    {
        let at = part as usize;
        let visit = Visit {
            rt,
            alloc: self.alloc,
            room: &self.room,
            visitor: Visitor {
                who,
                moment: pass.moment,
            },
        };
        put_into(
            &visit,
            &self.parts[at],
            &mut pass.parts[at],
            &mut pass.room,
            part,
            sent,
        )
    }

    /// Enters what a fetch asks of a partition, in a turn of its lock, for a call of the pass, and reads what the reply takes of it: the
    /// budget is lowered by that. The pass may then owe scans. If memory runs out, it has left nothing.
    pub(crate) fn fetch(
        &self,
        rt: &impl Wait,
        pass: &mut LogPass,
        who: Who,
        wanted: &Wanted<'_>,
        budget: &mut Budget,
    ) -> Result<Fetched, NoMemory>
        requires made { pass.old.made ≡ self.now }
        requires there { wanted.now.part < length self.now.parts }
        requires who { who.by ≡ pass.old.number }
        ensures made { pass.new.made ≡ self.now }
        ensures seen { HasSeen pass.new }
        ensures asked { IfOk result (λ fetched. HasAsked wanted.now.part who.seq
            (fetch_outcome (slice_index (followers_in self.now) wanted.now.part) wanted.now.replica wanted.now.asked.now wanted.now.part)
            pass.old pass.new fetched.entered fetched.numbers) }
        ensures read { IfOk result (λ fetched. IfOk fetched.records (λ records.
            HasRead wanted.now.replica wanted.now.asked.now fetched.entered.became (state_of (history_at pass.new.parts wanted.now.part))
            fetched.numbers records budget.old budget.new)) }
        ensures bounded { IfOk result (λ fetched. fetched.numbers.high ≤ MOST_LOG_BYTES) }
        ensures refused { OnErr result (HasCaughtUp pass.old pass.new) }
    {
        let at = wanted.part as usize;
        let visit = Visit {
            rt,
            alloc: self.alloc,
            room: &self.room,
            visitor: Visitor {
                who,
                moment: pass.moment,
            },
        };
        fetch_from(
            &visit,
            &self.parts[at],
            &mut pass.parts[at],
            &mut pass.room,
            wanted,
            budget,
        )
    }

    /// Looks at a partition for a call of the pass, in a turn of its lock in which the gauge, one of this partition's, is at least at the
    /// value. While it is less, the turn is taken again and leaves nothing. If memory runs out, no look was left.
    pub(crate) fn look(
        &self,
        rt: &impl Wait,
        pass: &mut LogPass,
        who: Who,
        late: AtLeast,
    ) -> Result<Looked, NoMemory>
        requires made { pass.old.made ≡ self.now }
        requires there { late.gauge / 3 < length self.now.parts }
        requires who { who.by ≡ pass.old.number }
        ensures made { pass.new.made ≡ self.now }
        ensures seen { HasSeen pass.new }
        ensures looked { IfOk result (λ looked. HasLooked (late.gauge / 3) who.seq late.gauge late.value pass.old pass.new looked.place looked.numbers) }
        ensures bounded { IfOk result (λ looked. looked.numbers.high ≤ MOST_LOG_BYTES) }
        ensures refused { OnErr result (HasCaughtUp pass.old pass.new) }
    {
        let at = (late.gauge / 3) as usize;
        look_into(rt, &self.parts[at], &mut pass.parts[at], late, who)
    }

    /// The same, and reads what the reply to a fetch takes of the partition: the budget is lowered by that.
    pub(crate) fn read(
        &self,
        rt: &impl Wait,
        pass: &mut LogPass,
        who: Who,
        rest: &Rest<'_>,
        budget: &mut Budget,
    ) -> Result<Read, NoMemory>
        requires made { pass.old.made ≡ self.now }
        requires there { rest.now.late.gauge / 3 < length self.now.parts }
        requires who { who.by ≡ pass.old.number }
        ensures made { pass.new.made ≡ self.now }
        ensures seen { HasSeen pass.new }
        ensures looked { IfOk result (λ read. HasLooked (rest.now.late.gauge / 3) who.seq rest.now.late.gauge rest.now.late.value
            pass.old pass.new read.looked.place read.looked.numbers) }
        ensures read { IfOk result (λ read. IfOk read.records (λ records.
            HasRead rest.now.replica rest.now.asked.now (Seen (rest.now.late.gauge / 3) rest.now.start)
            (state_of (history_at pass.new.parts (rest.now.late.gauge / 3))) read.looked.numbers records budget.old budget.new)) }
        ensures bounded { IfOk result (λ read. read.looked.numbers.high ≤ MOST_LOG_BYTES) }
        ensures refused { OnErr result (HasCaughtUp pass.old pass.new) }
    {
        let at = (rest.late.gauge / 3) as usize;
        let visit = Visit {
            rt,
            alloc: self.alloc,
            room: &self.room,
            visitor: Visitor {
                who,
                moment: pass.moment,
            },
        };
        read_from(&visit, &self.parts[at], &mut pass.parts[at], rest, budget)
    }

    /// Where these bytes stand in a partition's log, if they do from the batch on that has this offset, by a turn of its lock that leaves
    /// nothing.
    pub fn find(
        &self,
        rt: &impl Wait,
        pass: &mut LogPass,
        part: u32,
        offset: u64,
        bytes: &[u8],
    ) -> Option<u64>
        requires made { pass.old.made ≡ self.now }
        requires there { part < length self.now.parts }
        ensures made { pass.new.made ≡ self.now }
        ensures seen { HasSeen pass.old × HasSeen pass.new }
        ensures seat { pass.new.seat ≡ pass.old.seat }
        ensures others { HasCaughtUp pass.old pass.new }
        ensures sought { HasSought offset bytes.now (history_at pass.new.parts part) result }
    {
        let at = part as usize;
        find_in(rt, &self.parts[at], &mut pass.parts[at], offset, bytes)
    }

    /// Takes out of a partition's in-sync set every follower that lags at this moment, in a turn of its lock. The pass may then owe scans. If
    /// memory runs out, some of them may have left.
    pub(crate) fn shrink(
        &self,
        rt: &impl Wait,
        pass: &mut LogPass,
        at: usize,
        t: u64,
    ) -> Result<(), NoMemory>
        requires made { pass.old.made ≡ self.now }
        requires there { at < length self.now.parts }
        ensures made { pass.new.made ≡ self.now }
        ensures seen { HasSeen pass.new }
        ensures shrunk { HasShrunkOne at t pass.old pass.new }
        ensures none_lags { OnOk result (NoneLags (history_at pass.new.parts at).followers (history_at pass.new.parts at).events t) }
    {
        // a replica that leaves is of no call
        let who = Who {
            by: pass.number,
            seq: 0,
        };
        let visit = Visit {
            rt,
            alloc: self.alloc,
            room: &self.room,
            visitor: Visitor { who, moment: t },
        };
        shrink_in(
            &visit,
            &self.parts[at],
            &mut pass.parts[at],
            &mut pass.room,
            t,
        )
    }
}
