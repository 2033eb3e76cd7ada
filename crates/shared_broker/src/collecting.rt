//! `Broker::collect`, by which a session asks for the reply to its request that waits: if that was won, the call's frame is read again, and
//! completing.rt does the rest.
ghost use Rattle.std.specs.Prelude.{◌≡◌, IsSome, List as Items, false, length};
ghost use Rattle.audit.specs.declared.account.Transcript.{Transcript as TheTranscript};
ghost use Rattle.purgatory.specs.Going.{OwesNothing};
ghost use Rattle.room_table.specs.Seats.{caller_now};
ghost use Rattle.shared_broker.specs.Collecting.{HasCollected, HasCollectedAs};
ghost use Rattle.shared_broker.specs.Passes.{PassView, made_with};
ghost use Rattle.shared_broker.specs.Serving.{HasFinished, IsLastKept, WasFoundWon, completed_as};
ghost use Rattle.shared_broker.specs.Standing.{Stands};
ghost use Rattle.shared_logs.specs.Seen.{HasSeen};

use crate::broker::Broker;
use crate::current::{CurrentCall, Won};
use crate::pass::Pass;
use audit::{Call, CallHow, Transcript};
use kbytes::{Bytes, NoMemory};
use kwire::view_request;
use shared_logs::LogPass;
use std::sync::Wait;

/// What became of a request that waits.
#[derive(Drop)]
pub enum Collected {
    /// The whole frame of the reply.
    Reply(Bytes),
    /// It still waits.
    NotYet,
    /// It was won, and then memory ran out: the call is cut off, and the session is to end in that way.
    NoMemory,
}

impl Broker {
    /// Asks whether the pass's request that waits was won, and if so completes it. The answer is `NotYet` exactly if the pass's session word, as
    /// this call loads it, is open.
    #[inline(always)]
    pub fn collect(&self, rt: &impl Wait, pass: &mut Pass) -> Collected
        requires made { made_with pass.old ≡ self.now }
        requires waits { IsSome pass.old.waits }
        ensures { HasCollected result pass.old pass.new }
    {
        self.collect_as(rt, pass, true)
    }

    /// As `collect`, where the reply is neither sent nor kept: a `Reply` has no bytes.
    #[inline(always)]
    pub fn collect_unsent(&self, rt: &impl Wait, pass: &mut Pass) -> Collected
        requires made { made_with pass.old ≡ self.now }
        requires waits { IsSome pass.old.waits }
        ensures { HasCollectedAs false result pass.old pass.new }
    {
        self.collect_as(rt, pass, false)
    }

    // Asks for a request that waits, whose reply's frame is made if it is to be sent. Sessions that wait ask often, so this is put into its callers.
    #[inline(always)]
    fn collect_as(&self, rt: &impl Wait, pass: &mut Pass, is_sent: bool) -> Collected
        requires made { made_with pass.old ≡ self.now }
        requires waits { IsSome pass.old.waits }
        ensures { HasCollectedAs is_sent result pass.old pass.new }
    {
        let Some(done) = self.logs.poll(&mut pass.logs) else {
            return Collected::NotYet;
        };
        let Some(parked) = &pass.waits else {
            unreachable!()
        };
        let won = Won {
            parked,
            done,
            is_sent,
        };
        let collected = self.complete_won(rt, &mut pass.logs, &mut pass.going, pass.first, &won);
        pass.waits = None;
        collected
    }

    // Completes the last call of a pass whose request was found won; `first` is how many calls the ended transcripts have. Apart from `collect_as`,
    // since most sessions that ask still wait, and this one's frame on the stack is large.
    #[inline(never)]
    fn complete_won(
        &self,
        rt: &impl Wait,
        logs: &mut LogPass,
        going: &mut Option<Transcript>,
        first: u32,
        won: &Won<'_>,
    ) -> Collected
        requires made { logs.old.made ≡ self.now.logs }
        requires size { length logs.old.parts ≡ length self.now.logs.parts }
        requires paid { OwesNothing (caller_now logs.old.seat) }
        requires seen { HasSeen logs.old }
        requires won { (before : PassView) × WasFoundWon self.now.config first won.now.parked.now won.now.done before logs.old going.old }
        ensures collected { (before : PassView) → WasFoundWon self.now.config first won.now.parked.now won.now.done before logs.old going.old
            → HasCollectedAs won.now.is_sent result before (completed_as before logs.new going.new) }
        ensures stands { (before : PassView) → WasFoundWon self.now.config first won.now.parked.now won.now.done before logs.old going.old
            → Stands (completed_as before logs.new going.new) }
    {
        let completed = match going {
            Some(going) => {
                let seq = first + (going.calls.len() as u32 - 1);
                match going.calls.as_mut_slice().last_mut() {
                    Some(call) => self.complete_call(rt, logs, call, seq, won),
                    None => unreachable!(),
                }
            }
            None => unreachable!(),
        };
        match completed {
            Ok(frame) => Collected::Reply(frame),
            Err(NoMemory) => Collected::NoMemory,
        }
    }

    // Completes this call. Its frame was read once before, when it was accepted.
    fn complete_call(
        &self,
        rt: &impl Wait,
        logs: &mut LogPass,
        call: &mut Call,
        seq: u32,
        won: &Won<'_>,
    ) -> Result<Bytes, NoMemory>
        requires made { logs.old.made ≡ self.now.logs }
        requires size { length logs.old.parts ≡ length self.now.logs.parts }
        requires paid { OwesNothing (caller_now logs.old.seat) }
        requires seen { HasSeen logs.old }
        requires waits { (front : Items TheTranscript) × (transcript : TheTranscript)
            × IsLastKept self.now.config seq won.now.parked.now logs.old call.old front transcript }
        ensures finished { HasFinished won.now.is_sent self.now.config seq won.now.done (IsLastKept self.now.config seq won.now.parked.now logs.old call.old) result
            logs.old logs.new call.old call.new }
        ensures seen { HasSeen logs.new }
    {
        call.how = CallHow::Cut {
            won: Some(won.done.by),
        };
        let Call {
            frame,
            finish,
            how,
            accept: _,
        } = call;
        let Ok(request) = view_request(self.alloc, frame.as_slice()) else {
            return Err(NoMemory);
        };
        let current = CurrentCall {
            rt,
            seq,
            request: &request,
            is_sent: won.is_sent,
        };
        self.complete(&current, logs, finish, how, won)
    }
}
