//! Where bytes of a reply stand, so that whoever keeps the reply needn't keep them: `Broker::find`.
ghost use Rattle.std.specs.Prelude.{◌≡◌};
ghost use Rattle.shared_broker.specs.Finding.{HasCaughtUp, HasSought, bytes_at};
ghost use Rattle.shared_broker.specs.Passes.{made_with};

use crate::broker::Broker;
use crate::pass::Pass;
use audit::Account;
use std::sync::Wait;

/// A range of a partition's log: the partition's number over all topics, the place of the first byte, and the number of bytes.
#[derive(Clone, Copy, PartialEq, Eq)]
pub struct LogRange {
    pub part: u32,
    pub start: u64,
    pub size: u64,
}

impl LogRange {
    /// The bytes of the range in an account.
    pub fn bytes_in<'a>(&self, account: &'a Account) -> &'a [u8]
        ensures { result.now ≡ bytes_at account.now self.now }
    {
        let Some(part) = account.parts.get(self.part as usize) else {
            return &[];
        };
        let log = part.log.as_slice();
        let from = log.len().min(self.start as usize);
        let rest = &log[from..];
        &rest[..rest.len().min(self.size as usize)]
    }
}

/// Records that are sought in a partition's log, from the batch on that has this offset.
#[derive(Clone, Copy)]
pub struct Sought<'a> {
    pub topic: &'a [u8],
    pub index: i32,
    pub offset: u64,
    pub records: &'a [u8],
}

impl Broker {
    /// Where the records stand in the log, if they do. They then stand there in every account that goes on from what the pass has seen. It takes a
    /// turn of the log's lock, which leaves nothing.
    pub fn find(&self, rt: &impl Wait, pass: &mut Pass, sought: &Sought<'_>) -> Option<LogRange>
        requires made { made_with pass.old ≡ self.now }
        ensures others { HasCaughtUp pass.old pass.new }
        ensures sought { HasSought sought.now result pass.new }
    {
        let Some(part) = self.config.part_of(sought.topic, sought.index) else {
            return None;
        };
        let found = self
            .logs
            .find(rt, &mut pass.logs, part, sought.offset, sought.records);
        let Some(start) = found else {
            return None;
        };
        Some(LogRange {
            part,
            start,
            size: sought.records.len() as u64,
        })
    }
}
