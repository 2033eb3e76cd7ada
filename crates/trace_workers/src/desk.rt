ghost use Rattle.std.specs.Prelude.{◌≡◌, None};
ghost use Rattle.trace_workers.specs.Sessions.{session_at};

use crate::reply_lines::ReplyLines;
use crate::session::TraceSession;
use kwire::Inbox;
use shared_broker::Pass;
use std::alloc::Global;
use std::marker::Model;

/// A session of a trace whose pass was taken from it.
#[derive(Drop)]
pub struct Desk {
    pub(crate) alloc: Global,
    pub(crate) number: u32,
    pub(crate) inbox: Inbox,
    pub(crate) is_shut: bool,
    pub(crate) is_named: bool,
    pub(crate) kept: Option<ReplyLines>,
}

impl Model for Desk {
    ghost use Rattle.trace_workers.specs.Sessions.{DeskView};

    ghost Value = { DeskView };

    ghost view = { λ d. record { number = d.number; inbox = d.inbox; is_shut = d.is_shut; is_named = d.is_named; kept = d.kept } };
}

impl Desk {
    /// The number of the session.
    pub(crate) fn number(&self) -> u32
        ensures { result ≡ self.now.number }
    {
        self.number
    }

    /// The lines that the session kept of its replies, if it kept any. They are taken from it.
    pub(crate) fn take_lines(&mut self) -> Option<ReplyLines>
        ensures lines { result ≡ self.old.kept }
        ensures left { self.new ≡ record self.old { kept = None } }
    {
        self.kept.take()
    }

    /// The session again, with its pass.
    pub fn with(self, pass: Pass) -> TraceSession
        ensures { result ≡ session_at self pass }
    {
        let Desk {
            alloc,
            number,
            inbox,
            is_shut,
            is_named,
            kept,
        } = self;
        TraceSession {
            alloc,
            number,
            pass,
            inbox,
            is_shut,
            is_named,
            kept,
        }
    }
}
