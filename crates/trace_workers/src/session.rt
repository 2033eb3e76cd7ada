//! A session of a trace as lines reach it: its worker calls `feed` and `shut`. What it then does by itself is in steps.rt.
ghost use Rattle.std.specs.Prelude.{◌≡◌, ◌++◌, [], ℕ, true, false, is_some, List as Items, None, OnOk};
ghost use Rattle.shared_broker.specs.Passes.{made_with};
ghost use Rattle.trace_workers.specs.Received.{HasReceived};
ghost use Rattle.trace_workers.specs.Sessions.{IsSameSession, desk_of};

use crate::desk::Desk;
use crate::reply_lines::ReplyLines;
use kbytes::NoMemory;
use kwire::Inbox;
use shared_broker::{Broker, Pass};
use std::alloc::Global;
use std::marker::Model;

/// A session of a trace, on a pass of the broker.
#[derive(Drop)]
pub struct TraceSession {
    pub(crate) alloc: Global,
    pub(crate) number: u32,
    pub(crate) pass: Pass,
    pub(crate) inbox: Inbox,
    pub(crate) is_shut: bool,
    pub(crate) is_named: bool,
    pub(crate) kept: Option<ReplyLines>,
}

impl Model for TraceSession {
    ghost use Rattle.trace_workers.specs.Sessions.{SessionView};

    ghost Value = { SessionView };

    ghost view = { λ s. record { number = s.number; pass = s.pass; inbox = s.inbox; is_shut = s.is_shut; is_named = s.is_named; kept = s.kept } };
}

impl TraceSession {
    /// The session of this number, on a pass that has no transcript. No line has named it. It keeps the lines of its replies if it is given where.
    pub fn new(alloc: Global, number: u32, pass: Pass, kept: Option<ReplyLines>) -> TraceSession
        ensures { result ≡ record { number = number; pass = pass; inbox = []; is_shut = false; is_named = false; kept = kept } }
    {
        TraceSession {
            alloc,
            number,
            pass,
            inbox: Inbox::new(alloc),
            is_shut: false,
            is_named: false,
            kept,
        }
    }

    pub fn number(&self) -> u32
        ensures { result ≡ self.now.number }
    {
        self.number
    }

    /// Whether its request waits.
    pub fn waits(&self) -> bool
        ensures { result ≡ is_some self.now.pass.waits }
    {
        self.pass.waits()
    }

    /// Its pass, for the close of the broker, and the rest of it.
    pub fn into_parts(self) -> (Pass, Desk)
        ensures pass { result.0 ≡ self.pass }
        ensures desk { result.1 ≡ desk_of self }
    {
        let TraceSession {
            alloc,
            number,
            pass,
            inbox,
            is_shut,
            is_named,
            kept,
        } = self;
        let desk = Desk {
            alloc,
            number,
            inbox,
            is_shut,
            is_named,
            kept,
        };
        (pass, desk)
    }

    // A line names it: from then on it has a transcript.
    fn name(&mut self, broker: &Broker)
        requires made { made_with self.old.pass ≡ broker.now }
        requires received { (input : Items ℕ) × HasReceived input self.old }
        ensures same { IsSameSession self.old self.new }
        ensures named { self.new.is_named ≡ true }
        ensures again { self.old.is_named ≡ true → self.new ≡ self.old }
        ensures shut { self.new.is_shut ≡ self.old.is_shut }
        ensures received { (input : Items ℕ) → HasReceived input self.old → HasReceived input self.new }
    {
        if !self.is_named {
            broker.begin(&mut self.pass, u64::from(self.number));
            self.is_named = true;
        }
    }

    /// A line brings it these bytes. If the session has ended, they are dropped. It gets no bytes after its input ended. If memory runs out, it may
    /// only be dropped.
    pub fn feed(&mut self, broker: &Broker, bytes: &[u8]) -> Result<(), NoMemory>
        requires made { made_with self.old.pass ≡ broker.now }
        requires received { (input : Items ℕ) × HasReceived input self.old }
        requires open { self.old.is_shut ≡ false }
        ensures same { IsSameSession self.old self.new }
        ensures named { self.new.is_named ≡ true }
        ensures open { self.new.is_shut ≡ false }
        ensures over { self.old.is_named ≡ true → self.old.pass.going ≡ None → self.new ≡ self.old }
        ensures received { OnOk result ((input : Items ℕ) → HasReceived input self.old → HasReceived (input ++ bytes.now) self.new) }
    {
        self.name(broker);
        if !self.pass.is_begun() {
            return Ok(());
        }
        self.inbox.feed(bytes)
    }

    /// A line ends its input.
    pub fn shut(&mut self, broker: &Broker)
        requires made { made_with self.old.pass ≡ broker.now }
        requires received { (input : Items ℕ) × HasReceived input self.old }
        ensures same { IsSameSession self.old self.new }
        ensures named { self.new.is_named ≡ true }
        ensures shut { self.new.is_shut ≡ true }
        ensures received { (input : Items ℕ) → HasReceived input self.old → HasReceived input self.new }
    {
        self.name(broker);
        self.is_shut = true;
    }
}
