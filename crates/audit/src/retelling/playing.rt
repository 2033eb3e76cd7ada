//! Puts the entries of a history into a log again, one at a time: `Past::of` takes the log's numbers after each.

ghost use Rattle.std.specs.Prelude.{◌≡◌, ◌≤◌, ◌<◌, ◌+◌, length, OnOk, List as Items};
ghost use Rattle.kbatch.specs.Batch.{IsBatch};
ghost use Rattle.kbatch.specs.declared.record.Record.{Record};
ghost use Rattle.partlog.specs.declared.part_log.TheConstants.{MOST_LOG_BYTES};
ghost use Rattle.partlog.specs.Added.{log_end_of};
ghost use Rattle.partlog.specs.Appended.{appended};
ghost use Rattle.partlog.specs.Followed.{followed};
ghost use Rattle.partlog.specs.Follower.{IsFollower};
ghost use Rattle.partlog.specs.Lagging.{LagsAt};
ghost use Rattle.partlog.specs.Shrunk.{shrunk};
ghost use Rattle.partlog.specs.State.{front_of};
ghost use Rattle.audit.specs.Histories.{history_of};
ghost use Rattle.audit.specs.retelling.Playable.{IsPlayable};

use crate::PartAccount;
use kbatch::view_batch;
use kbytes::NoMemory;
use partlog::{FollowFault, LogFault, PartEvent, PartLog, Who};

// Appends a batch that there is room for.
fn put_again(log: &mut PartLog, who: Who, bytes: &[u8]) -> Result<(), NoMemory>
    requires batch { (records : Items Record) × IsBatch bytes.now records }
    requires room { length log.old.log + length bytes.now ≤ MOST_LOG_BYTES }
    ensures { OnOk result (log.new ≡ appended log.old who.by who.seq bytes.now) }
{
    let Ok(batch) = view_batch(bytes) else {
        unreachable!()
    };
    match log.append_view(who, &batch) {
        Ok(_) => Ok(()),
        Err(LogFault::NoMemory) => Err(NoMemory),
        Err(LogFault::LogFull) => unreachable!(),
    }
}

// Enters the fetch of a follower, which is in range, at a moment.
fn follow_again(
    log: &mut PartLog,
    who: Who,
    replica: i32,
    offset: u64,
    t: u64,
) -> Result<(), NoMemory>
    requires follower { IsFollower replica log.old.followers }
    requires within { offset ≤ log_end_of log.old.events }
    ensures { OnOk result (log.new ≡ followed log.old who.by who.seq replica offset t) }
{
    let end = log.numbers().end;
    prove!(offset <= end);
    match log.follow(who, replica, offset as i64, t) {
        Ok(_) => Ok(()),
        Err(FollowFault::NoMemory) => Err(NoMemory),
        Err(FollowFault::NoReplica) => unreachable!(),
        Err(FollowFault::OutOfRange { .. }) => unreachable!(),
    }
}

// Takes a replica out that lags at a moment.
fn shrink_again(log: &mut PartLog, by: u32, replica: i32, t: u64) -> Result<(), NoMemory>
    requires { LagsAt log.old.followers log.old.events t replica }
    ensures { OnOk result (log.new ≡ shrunk log.old by replica t) }
{
    log.take_out(by, replica, t)?;
    Ok(())
}

/// Puts the entry at a place of a history after those before it. If memory runs out, the log is as it was.
pub fn play(log: &mut PartLog, part: &PartAccount, place: usize) -> Result<(), NoMemory>
    requires playable { IsPlayable (history_of part.now) }
    requires before { log.old ≡ front_of (history_of part.now) place }
    requires within { place < length part.now.events }
    ensures { OnOk result (log.new ≡ front_of (history_of part.now) (place + 1)) }
{
    match part.events.as_slice()[place] {
        PartEvent::Append { by, seq, len, .. } => {
            let start = log.log().len();
            let bytes = &part.log.as_slice()[start..start + len as usize];
            put_again(log, Who { by, seq }, bytes)
        }
        PartEvent::Follow {
            by,
            seq,
            replica,
            offset,
            t,
        } => follow_again(log, Who { by, seq }, replica, offset, t),
        PartEvent::Look { by, seq } => {
            log.look(Who { by, seq })?;
            Ok(())
        }
        PartEvent::Shrink { by, replica, t } => shrink_again(log, by, replica, t),
    }
}
