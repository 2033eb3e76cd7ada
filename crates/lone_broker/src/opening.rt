//! What `Engine::make` begins with: logs without entries, desks that no line has named, and no request that waits.

ghost use Rattle.std.specs.Prelude.{◌≡◌, ◌++◌, None, map, replicate, IfOk, OnOk};
ghost use Rattle.audit.specs.broker.Board.{empty_history, empty_seat, most_sessions};
ghost use Rattle.kwire.specs.Configuration.{followers_of};
ghost use Rattle.kwire.specs.DeclaredTopics.{AreDeclared};

use crate::desk::Desk;
use crate::parked::Parked;
use kbytes::{List, NoMemory};
use kwire::{Config, MOST_PARTITIONS};
use partlog::PartLog;
use std::alloc::Global;
use trace_file::MOST_SESSIONS;

// Adds `count` logs without entries. If memory runs out, some of them may be there.
#[tactic(auto, using(crate::proofs::Openings::one_more_behind))]
fn put_parts(
    alloc: Global,
    parts: &mut List<PartLog>,
    count: u32,
    followers: u32,
) -> Result<(), NoMemory>
    ensures { OnOk result (parts.new ≡ parts.old ++ replicate count (empty_history followers)) }
{
    for _number in 0..count {
        parts.push(PartLog::new(alloc, followers)?)?;
    }
    Ok(())
}

// A log without entries for each partition of the configuration, in order.
#[tactic(auto, using(crate::proofs::Openings::logs_more))]
fn open_parts(alloc: Global, config: &Config) -> Result<List<PartLog>, NoMemory>
    ensures logs { IfOk result (λ parts. parts ≡ map empty_history (followers_of config.now.topics)) }
    ensures declared { OnOk result (AreDeclared config.now.topics) }
{
    prove!(config.parts() <= MOST_PARTITIONS);
    let mut parts = List::new(alloc);
    for topic in config.topics() {
        put_parts(alloc, &mut parts, topic.partitions, topic.followers)?;
    }
    Ok(parts)
}

// A desk for each session that there can be, none of which a line has named.
#[tactic(auto, using(std::proofs::lemmas::List::replicate_more))]
fn open_desks(alloc: Global) -> Result<List<Desk>, NoMemory>
    ensures { IfOk result (λ desks. desks ≡ replicate most_sessions empty_seat) }
{
    let mut desks = List::new(alloc);
    for _number in 0..MOST_SESSIONS {
        desks.push(Desk::new(alloc))?;
    }
    Ok(desks)
}

// No request waits, for each session that there can be.
#[tactic(auto, using(std::proofs::lemmas::List::replicate_more))]
fn open_parked(alloc: Global) -> Result<List<Option<Parked>>, NoMemory>
    ensures { IfOk result (λ parked. parked ≡ replicate most_sessions None) }
{
    let mut parked = List::new(alloc);
    for _number in 0..MOST_SESSIONS {
        parked.push(None)?;
    }
    Ok(parked)
}

/// The logs, the desks and what is kept of requests, before the first line.
pub fn open_lists(
    alloc: Global,
    config: &Config,
) -> Result<(List<PartLog>, List<Desk>, List<Option<Parked>>), NoMemory>
    ensures logs { IfOk result (λ lists. lists.0 ≡ map empty_history (followers_of config.now.topics)) }
    ensures declared { OnOk result (AreDeclared config.now.topics) }
    ensures desks { IfOk result (λ lists. lists.1 ≡ replicate most_sessions empty_seat) }
    ensures parked { IfOk result (λ lists. lists.2 ≡ replicate most_sessions None) }
{
    let parts = open_parts(alloc, config)?;
    let desks = open_desks(alloc)?;
    let parked = open_parked(alloc)?;
    Ok((parts, desks, parked))
}
