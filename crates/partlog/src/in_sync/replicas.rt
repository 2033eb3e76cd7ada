//! The followers of a partition, and how each stands to its leader.

ghost use Rattle.std.specs.Prelude.{◌≡◌, ◌↔◌, ◌+◌, ◌<◌, ◌≤◌, ◌^◌, ℕ, List, [], ◌∷◌, ◌++◌, length, filter, IfOk, IfSome, IfNone, IsNone, IsTrue};
ghost use Rattle.partlog.specs.in_sync.ReplicaEvent.{ReplicaEvent, Appended, Fetched, Left};
ghost use Rattle.partlog.specs.in_sync.LogEnd.{log_end_of};
ghost use Rattle.partlog.specs.in_sync.InSync.{high_watermark_of, count_of};
ghost use Rattle.partlog.specs.in_sync.Lagging.{IsFollower, Lags};
ghost use Rattle.partlog.specs.in_sync.Standings.{StandsFor, standings_of};
ghost use Rattle.partlog.specs.in_sync.Steps.{least_of, first_late};
ghost use Rattle.partlog.specs.declared.in_sync.standing.Standing.{Standing};

use crate::in_sync::standing::Standing;
use kbytes::NoMemory;
use std::alloc::Global;
use std::marker::Model;

/// A partition's replicas: the log end, the high watermark, and of each follower how far it has fetched, when it had caught
/// up, and whether it is in sync with the leader. It keeps no history. What it says is what follows from the whole history
/// that it stands for.
#[derive(Drop)]
pub struct InSync {
    log_end: u64,
    high_watermark: u64,
    /// From the first follower on. There are few enough for a number of 32 bits to count them and the leader.
    followers: Vec<Standing>,
}

impl Model for InSync {
    ghost use Rattle.std.specs.Prelude.{◌<◌, ◌^◌, length};
    ghost use Rattle.partlog.specs.in_sync.Standings.{Standings};

    ghost Value = { Standings };

    ghost view = { λ s. record { log_end = s.log_end; high_watermark = s.high_watermark; followers = s.followers.items } };

    ghost invariant = { λ s. length s.followers.items < 4294967295 };
}

/// The least of the log end and the positions of the followers in sync.
fn least_of(log_end: u64, followers: &[Standing]) -> u64
    ensures { result ≡ least_of log_end followers.now }
{
    followers
        .iter()
        .filter(|follower| follower.in_sync)
        .map(|follower| follower.position)
        .fold(log_end, |least, position| least.min(position))
}

/// How many followers are in sync.
fn count_in_sync(followers: &[Standing]) -> usize
    ensures count { result ≡ length (filter (λ (s : Standing). s.in_sync) followers.now) }
    ensures bound { result ≤ length followers.now }
{
    followers.iter().filter(|standing| standing.in_sync).count()
}

/// The first of the followers that lags at this moment, numbered from 1.
fn first_late(log_end: u64, t: u64, followers: &[Standing]) -> Option<u32>
    requires { length followers.now < 2 ^ 32 }
    ensures { result ≡ first_late log_end t 1 followers.now }
{
    for (at, follower) in followers.iter().enumerate() {
        if follower.is_late(log_end, t) {
            return Some(at as u32 + 1);
        }
    }
    None
}

/// The place of a replica among the followers, which are numbered from 1.
fn place_of(replica: u32, followers: &[Standing]) -> Option<usize>
    ensures follower { IfSome result (λ at. (replica ≡ at + 1) × (at < length followers.now)) }
    ensures no_follower { IfNone result (IsFollower replica (length followers.now) → ⊥) }
{
    if replica < 1 || replica as usize > followers.len() {
        return None;
    }
    Some(replica as usize - 1)
}

/// The standings of that many followers that never fetched.
fn unfetched(alloc: Global, followers: u32) -> Result<Vec<Standing>, NoMemory>
    ensures { IfOk result (λ standings. standings.items ≡ (standings_of followers []).followers) }
{
    let mut standings = Vec::new(alloc);
    for _ in 0..followers {
        standings.push(Standing::new())?;
    }
    Ok(standings)
}

impl InSync {
    /// The followers of a partition whose log is empty. All of them are in sync. There is no memory for `u32::MAX` of them.
    pub fn new(alloc: Global, followers: u32) -> Result<InSync, NoMemory>
        ensures stands { IfOk result (λ replicas. StandsFor replicas followers []) }
    {
        if followers == u32::MAX {
            return Err(NoMemory);
        }
        Ok(InSync {
            log_end: 0,
            high_watermark: 0,
            followers: unfetched(alloc, followers)?,
        })
    }

    /// Enters that so many records were put at the log's end. It takes no memory.
    pub fn append(&mut self, count: u32)
        requires fits { self.old.log_end + count < 2 ^ 63 }
        ensures stands { (followers : ℕ) (events : List ReplicaEvent) → StandsFor self.old followers events
            → StandsFor self.new followers (events ++ Appended count ∷ []) }
    {
        self.log_end += u64::from(count);
        self.high_watermark = least_of(self.log_end, self.followers.as_slice());
    }

    /// Enters that a follower fetched from an offset, at this moment in milliseconds. One that wasn't in sync is so again
    /// exactly where the offset is the high watermark or above it. It takes no memory.
    pub fn fetch(&mut self, replica: u32, offset: u64, t: u64)
        requires follower { IsFollower replica (length self.old.followers) }
        requires within { offset ≤ self.old.log_end }
        ensures stands { (followers : ℕ) (events : List ReplicaEvent) → StandsFor self.old followers events
            → StandsFor self.new followers (events ++ Fetched replica offset t ∷ []) }
    {
        let at = replica as usize - 1;
        let log_end = self.log_end;
        self.followers[at] = self.followers[at].fetched(log_end, self.high_watermark, offset, t);
        self.high_watermark = least_of(log_end, self.followers.as_slice());
    }

    /// Enters that a replica was taken out of the in-sync set at this moment, which stands in the history alone. One that isn't
    /// a follower changes nothing. It takes no memory.
    pub fn leave(&mut self, replica: u32, t: u64)
        ensures stands { (followers : ℕ) (events : List ReplicaEvent) → StandsFor self.old followers events
            → StandsFor self.new followers (events ++ Left replica t ∷ []) }
    {
        let Some(at) = place_of(replica, self.followers.as_slice()) else {
            return;
        };
        self.followers[at].in_sync = false;
        self.high_watermark = least_of(self.log_end, self.followers.as_slice());
    }

    /// The follower with the least number of those that lag at this moment, in milliseconds, or None exactly where none does.
    pub fn lagging(&self, t: u64) -> Option<u32>
        ensures found { (followers : ℕ) (events : List ReplicaEvent) → StandsFor self.now followers events
            → IfSome result (λ replica. Lags followers events t replica
            × ((other : ℕ) → Lags followers events t other → replica ≤ other)) }
        ensures none { (followers : ℕ) (events : List ReplicaEvent) → StandsFor self.now followers events
            → (IsNone result ↔ ((replica : ℕ) → Lags followers events t replica → ⊥)) }
    {
        first_late(self.log_end, t, self.followers.as_slice())
    }

    /// Whether this replica is a follower that lags at this moment, in milliseconds.
    pub fn lags(&self, replica: u32, t: u64) -> bool
        ensures lags { (followers : ℕ) (events : List ReplicaEvent) → StandsFor self.now followers events
            → (IsTrue result ↔ Lags followers events t replica) }
    {
        match place_of(replica, self.followers.as_slice()) {
            Some(at) => self.followers[at].is_late(self.log_end, t),
            None => false,
        }
    }

    /// The log end: the number of records that were appended.
    pub fn log_end(&self) -> u64
        ensures value { result ≡ self.now.log_end }
        ensures log_end { (followers : ℕ) (events : List ReplicaEvent) → StandsFor self.now followers events
            → result ≡ log_end_of events }
    {
        self.log_end
    }

    /// The high watermark: the offset up to which the leader and all followers in sync have fetched.
    pub fn high_watermark(&self) -> u64
        ensures value { result ≡ self.now.high_watermark }
        ensures high_watermark { (followers : ℕ) (events : List ReplicaEvent) → StandsFor self.now followers events
            → result ≡ high_watermark_of followers events }
    {
        self.high_watermark
    }

    /// How many replicas are in sync, with the leader.
    pub fn count(&self) -> u32
        ensures count { (followers : ℕ) (events : List ReplicaEvent) → StandsFor self.now followers events
            → result ≡ count_of followers events }
    {
        1 + count_in_sync(self.followers.as_slice()) as u32
    }

    /// How many followers there are, in sync or not.
    pub fn followers(&self) -> u32
        ensures value { result ≡ length self.now.followers }
        ensures followers { (followers : ℕ) (events : List ReplicaEvent) → StandsFor self.now followers events
            → result ≡ followers }
    {
        self.followers.len() as u32
    }
}
