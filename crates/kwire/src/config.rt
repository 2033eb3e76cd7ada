//! The declared topics, and the numbers of their partitions over all topics. A trace declares them; each layer above looks
//! partitions up here.

ghost use Rattle.std.specs.Prelude.{◌≡◌, ◌↔◌, ◌+◌, ◌≤◌, Contains, IsTrue, Some, None, Err, OnOk, OnErr, nat_lt, if◌then◌else◌};
ghost use Rattle.std.specs.List.{list_all};
ghost use Rattle.kwire.specs.Configuration.{is_name_byte, IsTopicName, names_of};
ghost use Rattle.kwire.specs.DeclaredTopics.{AreDeclared};
ghost use Rattle.kwire.specs.declared.config.ConfigFault.TheVariants.{NoMemory as OutOfMemory};

use kbytes::{Bytes, List, NoMemory, copied};
use std::alloc::Global;
use std::error::Error;
use std::fmt;
use std::marker::Model;

/// The most bytes of a topic's name.
pub const MOST_NAME_BYTES: usize = 249;

/// The most partitions over all topics.
pub const MOST_PARTITIONS: u32 = 64;

/// The most followers of a topic.
pub const MOST_FOLLOWERS: u32 = 8;

/// A declared topic. With f followers it has the replicas 0, which is this broker and the leader, and 1 to f.
#[derive(Drop)]
pub struct Topic {
    pub name: Bytes,
    pub partitions: u32,
    pub followers: u32,
    /// The least number of in-sync replicas, the leader counted, with which a produce that asks for all replicas is taken:
    /// Kafka's `min.insync.replicas`. It is from 1 to the number of replicas.
    pub min_insync: u32,
}

/// Why a topic can't be declared.
#[derive(Clone, Copy, Debug, PartialEq, Eq)]
pub enum ConfigFault {
    /// The name isn't 1 to 249 letters, digits, `.`, `_` and `-`, or is `.` or `..`.
    BadName,
    TopicTwice,
    /// There are no partitions, more than 64 over all topics, or more than 8 followers, or the least number of in-sync
    /// replicas is 0 or above the number of replicas.
    BadCount,
    NoMemory,
}

impl fmt::Display for ConfigFault {
    fn fmt<W: fmt::Write>(&self, f: &mut fmt::Formatter<W>) -> fmt::Result {
        match self {
            ConfigFault::BadName => write!(f, "the name isn't one of a topic"),
            ConfigFault::TopicTwice => write!(f, "the topic is declared twice"),
            ConfigFault::BadCount => write!(
                f,
                "the number of partitions, followers or in-sync replicas is out of range"
            ),
            ConfigFault::NoMemory => write!(f, "no memory was left"),
        }
    }
}

impl Error for ConfigFault {}

impl From<NoMemory> for ConfigFault {
    ghost from_gives = { λ _ e. e ≡ OutOfMemory };

    fn from(_refused: NoMemory) -> ConfigFault {
        ConfigFault::NoMemory
    }
}

/// The declared topics, and the port that metadata names.
#[derive(Drop)]
pub struct Config {
    alloc: Global,
    port: u16,
    topics: List<Topic>,
    parts: u32,
}

impl Model for Config {
    ghost use Rattle.std.specs.Prelude.{◌≡◌};
    ghost use Rattle.kwire.specs.Configuration.{Configuration, partitions_of};
    ghost use Rattle.kwire.specs.DeclaredTopics.{AreDeclared};

    ghost Value = { Configuration };

    ghost view = { λ c. record { port = c.port; topics = c.topics } };

    ghost invariant = { λ c. (c.parts ≡ partitions_of c.topics) × AreDeclared c.topics };
}

// A letter, a digit, `.`, `_` or `-`.
fn is_name_byte(byte: u8) -> bool
    ensures { result ≡ is_name_byte byte }
{
    matches!(byte, b'a'..=b'z' | b'A'..=b'Z' | b'0'..=b'9' | b'.' | b'_' | b'-')
}

fn are_name_bytes(name: &[u8]) -> bool
    ensures { result ≡ list_all is_name_byte name.now }
{
    name.iter().all(|byte| is_name_byte(*byte))
}

// 1 to 249 such bytes, and neither `.` nor `..`.
fn is_topic_name(name: &[u8]) -> bool
    ensures { IsTrue result ↔ IsTopicName name.now }
{
    if name.is_empty() || name.len() > MOST_NAME_BYTES {
        return false;
    }
    if name == b".".as_slice() || name == b"..".as_slice() {
        return false;
    }
    are_name_bytes(name)
}

fn is_declared(topics: &[Topic], name: &[u8]) -> bool
    ensures { IsTrue result ↔ Contains (names_of topics.now) name.now }
{
    for topic in topics {
        if topic.name.as_slice() == name {
            return true;
        }
    }
    false
}

// The number over all topics of a topic's partition, where `before` partitions are declared before the topic.
fn part_in(topic: &Topic, before: u32, number: u32) -> Option<u32>
    requires { before + topic.now.partitions ≤ MOST_PARTITIONS }
    ensures { result ≡ (if nat_lt number topic.now.partitions then Some (before + number) else None) }
{
    if number < topic.partitions {
        Some(before + number)
    } else {
        None
    }
}

impl Config {
    ghost use Rattle.std.specs.Prelude.{[], ◌∷◌, ◌++◌, ◌<◌, ◌⊎◌, IfSome, slice_index, pos};
    ghost use Rattle.kwire.specs.Configuration.{IsTopicName, IsNewTopic, names_of, partitions_of, followers_of, min_insync_at, part_of, part_from};

    /// A configuration without topics. It takes no memory.
    pub fn new(alloc: Global, port: u16) -> Config
        ensures { result ≡ record { port = port; topics = [] } }
    {
        Config {
            alloc,
            port,
            topics: List::new(alloc),
            parts: 0,
        }
    }

    /// Declares a topic after the others. It answers `BadName` exactly where this is no topic's name, else `TopicTwice`
    /// exactly where the topic is declared already, else `BadCount` exactly where the number of partitions, of followers or
    /// of the least in-sync replicas is out of range. After a refusal the configuration is as before.
    pub fn add(
        &mut self,
        name: &[u8],
        partitions: u32,
        followers: u32,
        min_insync: u32,
    ) -> Result<(), ConfigFault>
        ensures added { OnOk result (self.new ≡ record self.old {
          topics = self.old.topics
              ++ record { name = name.now; partitions = partitions; followers = followers; min_insync = min_insync } ∷ [];
        }) }
        ensures allowed { OnOk result (IsNewTopic self.old.topics name.now partitions followers min_insync) }
        ensures bad_name { (result ≡ Err ConfigFault.BadName) ↔ (IsTopicName name.now → ⊥) }
        ensures twice { (result ≡ Err ConfigFault.TopicTwice)
            ↔ (IsTopicName name.now × Contains (names_of self.old.topics) name.now) }
        ensures bad_count { (result ≡ Err ConfigFault.BadCount)
            ↔ (IsTopicName name.now × (Contains (names_of self.old.topics) name.now → ⊥)
            × ((partitions ≡ 0) ⊎ (MOST_PARTITIONS < partitions_of self.old.topics + partitions) ⊎ (MOST_FOLLOWERS < followers)
            ⊎ (min_insync ≡ 0) ⊎ (followers + 1 < min_insync))) }
        ensures refused { OnErr result (self.new ≡ self.old) }
    {
        if !is_topic_name(name) {
            return Err(ConfigFault::BadName);
        }
        if is_declared(self.topics.as_slice(), name) {
            return Err(ConfigFault::TopicTwice);
        }
        if partitions == 0
            || partitions > MOST_PARTITIONS - self.parts
            || followers > MOST_FOLLOWERS
            || min_insync == 0
            || min_insync > followers + 1
        {
            return Err(ConfigFault::BadCount);
        }
        let kept = copied(self.alloc, name)?;
        self.topics.push(Topic {
            name: kept,
            partitions,
            followers,
            min_insync,
        })?;
        self.parts += partitions;
        Ok(())
    }

    /// The port that metadata names.
    pub fn port(&self) -> u16
        ensures { result ≡ self.now.port }
    {
        self.port
    }

    /// The topics, in the order in which they were declared.
    pub fn topics(&self) -> &[Topic]
        ensures { result.now ≡ self.now.topics }
    {
        self.topics.as_slice()
    }

    /// The number of partitions over all topics, at most 64. Each topic could be declared by itself.
    pub fn parts(&self) -> u32
        ensures count { result ≡ partitions_of self.now.topics }
        ensures few { result ≤ MOST_PARTITIONS }
        ensures declared { AreDeclared self.now.topics }
    {
        self.parts
    }

    // The number over all topics of a topic's partition, which isn't below 0.
    fn find_part(&self, name: &[u8], number: u32) -> Option<u32>
        ensures number { result ≡ part_from 0 self.now.topics name.now (pos number) }
        ensures within { IfSome result (λ part. part < partitions_of self.now.topics) }
        ensures few { partitions_of self.now.topics ≤ MOST_PARTITIONS }
    {
        let mut before = 0;
        for topic in self.topics.as_slice() {
            if topic.name.as_slice() == name {
                return part_in(topic, before, number);
            }
            before += topic.partitions;
        }
        None
    }

    /// The number over all topics of a topic's partition, or `None` exactly where there is no such partition.
    pub fn part_of(&self, topic: &[u8], index: i32) -> Option<u32>
        ensures number { result ≡ part_of self.now topic.now index }
        ensures within { IfSome result (λ part. part < partitions_of self.now.topics) }
        ensures few { IfSome result (λ part. part < MOST_PARTITIONS) }
    {
        if index < 0 {
            return None;
        }
        self.find_part(topic, index as u32)
    }

    /// The number of followers of a partition, by its number over all topics.
    pub fn followers_of(&self, part: u32) -> u32
        requires { part < partitions_of self.now.topics }
        ensures { result ≡ slice_index (followers_of self.now.topics) part }
    {
        let mut left = part;
        for topic in self.topics.as_slice() {
            if left < topic.partitions {
                return topic.followers;
            }
            left -= topic.partitions;
        }
        0
    }
    /// The least number of in-sync replicas with which a partition takes a produce that asks for all of them, by its number
    /// over all topics, or 0 where there is no such partition.
    pub fn min_insync_of(&self, part: u32) -> u32
        ensures { result ≡ min_insync_at self.now.topics part }
    {
        let mut left = part;
        for topic in self.topics.as_slice() {
            if left < topic.partitions {
                return topic.min_insync;
            }
            left -= topic.partitions;
        }
        0
    }
}
