//! The broker and its making. A crate that runs sessions calls `Broker::make` first; the other calls on a broker are in the files beside this one,
//! a file for each.
ghost use Rattle.std.specs.Prelude.{◌≡◌, ◌≤◌, All, IfOk, map};
ghost use Rattle.kwire.specs.Configuration.{followers_of};
ghost use Rattle.kwire.specs.DeclaredTopics.{AreDeclared};
ghost use Rattle.shared_broker.specs.Fresh.{IsFresh, IsNewOf, pass_with};
ghost use Rattle.shared_broker.specs.Making.{fresh_passes};
ghost use Rattle.shared_logs.specs.Shared.{followers_in};

use crate::pass::Pass;
use kbytes::{List, NoMemory};
use kwire::{Config, MOST_PARTITIONS};
use shared_logs::{LogPass, SharedLogs};
use std::alloc::Global;
use std::marker::Model;
use std::snapshot::Snapshot;

/// The broker. Threads share it, each with passes of its own.
#[derive(Drop)]
pub struct Broker {
    pub(crate) alloc: Global,
    pub(crate) config: Config,
    pub(crate) logs: SharedLogs,
}

impl Model for Broker {
    ghost use Rattle.std.specs.Prelude.{◌≡◌};
    ghost use Rattle.kwire.specs.Configuration.{followers_of};
    ghost use Rattle.kwire.specs.DeclaredTopics.{AreDeclared};
    ghost use Rattle.shared_broker.specs.Passes.{BrokerView};
    ghost use Rattle.shared_logs.specs.Shared.{followers_in};

    ghost Value = { BrokerView };

    ghost view = { λ b. record { config = b.config; logs = b.logs } };

    ghost invariant = { λ b. AreDeclared b.config.topics × (followers_in b.logs ≡ followers_of b.config.topics) };
}

// How many followers each partition has, over all topics.
fn followers_of(alloc: Global, config: &Config) -> Result<List<u32>, NoMemory>
    ensures { IfOk result (λ followers. followers ≡ followers_of config.now.topics) }
{
    let mut followers = List::new(alloc);
    for topic in config.topics() {
        for _part in 0..topic.partitions {
            followers.push(topic.followers)?;
        }
    }
    Ok(followers)
}

// A pass that has done nothing.
fn fresh(alloc: Global, config: &Config, logs: LogPass) -> Pass
    requires topics { AreDeclared config.now.topics }
    requires followers { followers_in logs.made ≡ followers_of config.now.topics }
    requires fresh { IsFresh logs }
    ensures { result ≡ pass_with config.now logs }
{
    logs.keeps();
    Pass {
        config: Snapshot::of(config),
        logs,
        ended: List::new(alloc),
        going: None,
        waits: None,
        first: 0,
    }
}

// A pass for each of these, in their order.
fn fresh_all(alloc: Global, config: &Config, seats: List<LogPass>) -> Result<List<Pass>, NoMemory>
    requires topics { AreDeclared config.now.topics }
    requires each { All (IsNewOf config.now) seats }
    ensures { IfOk result (λ passes. passes ≡ map (pass_with config.now) seats) }
{
    let mut passes = List::new(alloc);
    for seat in seats.into_vec() {
        passes.push(fresh(alloc, config, seat))?;
    }
    Ok(passes)
}

impl Broker {
    /// A broker with these topics, empty partitions and a clock at 0, and that many passes, in the order of their numbers. An error if memory runs
    /// out.
    pub fn make(
        alloc: Global,
        config: Config,
        passes: u32,
    ) -> Result<(Broker, List<Pass>), NoMemory>
        requires passes { (1 ≤ passes) × (passes ≤ 80) }
        ensures config { IfOk result (λ made. made.0.config ≡ config) }
        ensures size { IfOk result (λ made. made.0.logs.room.table.shape.passes ≡ passes) }
        ensures passes { IfOk result (λ made. made.1 ≡ fresh_passes made.0 passes) }
    {
        // so few partitions that none has the clock's number
        prove!(config.parts() <= MOST_PARTITIONS);
        let followers = followers_of(alloc, &config)?;
        let (logs, seats) = SharedLogs::make(alloc, followers.as_slice(), passes)?;
        let passes = fresh_all(alloc, &config, seats)?;
        let broker = Broker {
            alloc,
            config,
            logs,
        };
        Ok((broker, passes))
    }
}
