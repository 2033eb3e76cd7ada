//! `Broker::handle`, by which a session has a request answered: the call is recorded, its partitions are asked (`shared_calls::accept`), and it is
//! answered here, waits, or is completed at once (completing.rt).
ghost use Rattle.std.specs.Prelude.{◌≡◌, ◌<◌, ◌≤◌, ℕ, IfNone, IfSome, IsSome, List as Items, None, OnErr, OnOk, true, false, length, All};
ghost use Rattle.audit.specs.declared.account.CallHow.TheVariants.{Cut};
ghost use Rattle.audit.specs.declared.account.TheConstants.{MOST_CALLS};
ghost use Rattle.audit.specs.declared.account.Transcript.{Transcript as TheTranscript};
ghost use Rattle.kanswer.specs.LogReadings.{AreReadings, IsCarriable, budget_of};
ghost use Rattle.kanswer.specs.Results.{AreResults, parts_asked};
ghost use Rattle.kanswer.specs.Waiting.{Shown, is_quiet, operation_of};
ghost use Rattle.kwire.specs.declared.request.Request.{Request};
ghost use Rattle.kwire.specs.IsRequest.{IsRequest};
ghost use Rattle.audit.specs.broker.Sound.{AllBelow};
ghost use Rattle.kanswer.specs.BytesRead.{bytes_read, most_left};
ghost use Rattle.shared_broker.specs.Calling.{HasHandled, HasHandledAs};
ghost use Rattle.shared_broker.specs.Passes.{PassView, calls_made, made_with};
ghost use Rattle.shared_broker.specs.Serving.{HasServed, IsAnswered, IsFree, IsWritten, WasWritten, WillSit, WillWait};
ghost use Rattle.shared_broker.specs.Sessions.{is_cut_off};
ghost use Rattle.shared_logs.specs.Seen.{HasSeen};

use crate::broker::Broker;
use crate::current::{CurrentCall, Won};
use crate::parked::Parked;
use crate::pass::Pass;
use audit::{Call, CallHow, MOST_CALLS, SessionEnd, Transcript};
use kanswer::{is_quiet, needs_op, op_of};
use kbytes::{Bytes, List, NoMemory, copied};
use kwire::{RequestView, WireFault, view_request};
use purgatory::Registered;
use shared_calls::{Asking, Came, accept};
use shared_logs::LogPass;
use shared_logs::call_turns::{Caller, look_at_clock};
use std::alloc::Global;
use std::sync::Wait;

/// What became of a frame.
#[derive(Drop)]
pub enum Handled {
    /// The whole frame of the reply.
    Reply(Bytes),
    /// The request asks for no reply.
    Quiet,
    /// It waits, until this moment at most.
    Parked { deadline: u64 },
    /// The frame is no call, and the session is to end in this way.
    Ended(SessionEnd),
    /// Memory ran out: nothing was done, or the call was cut off and the session is to end in that way.
    NoMemory,
}

// What became of a request that was recorded.
#[derive(Drop)]
enum Became {
    Answered(Bytes),
    Quiet,
    Parked(Parked),
}

impl Broker {
    /// Handles one request of the pass's session: `frame` is the body of its frame. Each partition that it names is decided and asked in order, in
    /// a turn of its lock; then the request is answered, or waits. A frame that is no request, or comes after 4,294,967,295 calls, is no call.
    pub fn handle(&self, rt: &impl Wait, pass: &mut Pass, frame: &[u8]) -> Handled
        requires made { made_with pass.old ≡ self.now }
        requires begun { IsSome pass.old.going }
        requires none { pass.old.waits ≡ None }
        requires whole { is_cut_off pass.old.going ≡ false }
        ensures { HasHandled frame.now result pass.old pass.new }
    {
        self.handle_as(rt, pass, frame, true)
    }

    /// As `handle`, where the reply is neither sent nor kept: a `Reply` has no bytes.
    pub fn handle_unsent(&self, rt: &impl Wait, pass: &mut Pass, frame: &[u8]) -> Handled
        requires made { made_with pass.old ≡ self.now }
        requires begun { IsSome pass.old.going }
        requires none { pass.old.waits ≡ None }
        requires whole { is_cut_off pass.old.going ≡ false }
        ensures { HasHandledAs false frame.now result pass.old pass.new }
    {
        self.handle_as(rt, pass, frame, false)
    }

    // Handles one request, whose reply's frame is made if it is to be sent.
    fn handle_as(&self, rt: &impl Wait, pass: &mut Pass, frame: &[u8], is_sent: bool) -> Handled
        requires made { made_with pass.old ≡ self.now }
        requires begun { IsSome pass.old.going }
        requires none { pass.old.waits ≡ None }
        requires whole { is_cut_off pass.old.going ≡ false }
        ensures { HasHandledAs is_sent frame.now result pass.old pass.new }
    {
        let Some(seq) = pass.next_call() else {
            return Handled::Ended(SessionEnd::CallsFull);
        };
        let request = match view_request(self.alloc, frame) {
            Ok(request) => request,
            Err(WireFault::NoMemory) => return Handled::NoMemory,
            Err(why) => return Handled::Ended(SessionEnd::Refused { why }),
        };
        if pass.write_down(self.alloc, frame).is_err() {
            return Handled::NoMemory;
        }
        let current = CurrentCall {
            rt,
            seq,
            request: &request,
            is_sent,
        };
        self.serve(&current, pass)
    }
}

impl Pass {
    // The number of the next call, if there may be one more.
    fn next_call(&self) -> Option<u32>
        requires begun { IsSome self.now.going }
        ensures number { IfSome result (λ seq. seq ≡ calls_made self.now) }
        ensures few { IfSome result (λ seq. seq < MOST_CALLS) }
        ensures full { IfNone result (calls_made self.now ≡ MOST_CALLS) }
    {
        let going = self.going.as_ref()?;
        let seq = self.first + going.calls.len() as u32;
        (seq < MOST_CALLS).then_some(seq)
    }

    // Records a call of this frame after the others, as cut off.
    fn write_down(&mut self, alloc: Global, frame: &[u8]) -> Result<(), NoMemory>
        requires begun { IsSome self.old.going }
        requires none { self.old.waits ≡ None }
        requires whole { is_cut_off self.old.going ≡ false }
        requires few { calls_made self.old < MOST_CALLS }
        requires asked { (request : Request) × IsRequest frame.now request }
        ensures written { OnOk result ((request : Request) → IsRequest frame.now request → WasWritten frame.now request (calls_made self.old) self.old self.new) }
        ensures refused { OnErr result (self.new ≡ self.old) }
    {
        let call = Call {
            frame: copied(alloc, frame)?,
            accept: List::new(alloc),
            finish: List::new(alloc),
            how: CallHow::Cut { won: None },
        };
        match &mut self.going {
            Some(going) => going.calls.push(call),
            None => unreachable!(),
        }
    }
}

impl Broker {
    // Serves the call that was recorded last. If it waits, the pass keeps what is needed for its completion.
    fn serve<W: Wait>(&self, current: &CurrentCall<'_, '_, '_, W>, pass: &mut Pass) -> Handled
        requires made { made_with pass.old ≡ self.now }
        requires written { (frame : Items ℕ) × (before : PassView) × WasWritten frame current.now.request.now current.now.seq before pass.old }
        ensures { (frame : Items ℕ) (before : PassView) → WasWritten frame current.now.request.now current.now.seq before pass.old
            → HasHandledAs current.now.is_sent frame result before pass.new }
    {
        let served = match &mut pass.going {
            Some(going) => match going.calls.as_mut_slice().last_mut() {
                Some(call) => self.serve_call(current, &mut pass.logs, call),
                None => unreachable!(),
            },
            None => unreachable!(),
        };
        match served {
            Ok(Became::Answered(reply)) => Handled::Reply(reply),
            Ok(Became::Quiet) => Handled::Quiet,
            Ok(Became::Parked(parked)) => {
                let deadline = parked.op.deadline();
                pass.waits = Some(parked);
                Handled::Parked { deadline }
            }
            Err(NoMemory) => Handled::NoMemory,
        }
    }

    // Asks the partitions, and then answers the call or delays it.
    fn serve_call<W: Wait>(
        &self,
        current: &CurrentCall<'_, '_, '_, W>,
        logs: &mut LogPass,
        call: &mut Call,
    ) -> Result<Became, NoMemory>
        requires made { logs.old.made ≡ self.now.logs }
        requires free { IsFree logs.old.seat }
        requires written { (front : Items TheTranscript) × (transcript : TheTranscript)
            × IsWritten self.now.config current.now.seq current.now.request.now logs.old call.old front transcript }
        ensures served { HasServed current.now.is_sent self.now.config current.now.seq current.now.request.now
            (IsWritten self.now.config current.now.seq current.now.request.now logs.old call.old) result logs.old logs.new call.old call.new }
        ensures seen { HasSeen logs.new }
    {
        let by = Caller {
            rt: current.rt,
            logs: &self.logs,
            seq: current.seq,
        };
        let asking = Asking {
            config: &self.config,
            by: &by,
            is_read: current.is_sent,
        };
        let came = accept(&asking, logs, &mut call.accept, current.request);
        self.logs.settle(current.rt, logs);
        let came = came?;
        if needs_op(current.request, came.accepted(), came.numbers()) {
            self.delay(current, logs, call, came)
        } else {
            self.answer(current, call, &came)
        }
    }

    // Answers a call that needn't wait.
    fn answer<W: Wait>(
        &self,
        current: &CurrentCall<'_, '_, '_, W>,
        call: &mut Call,
        came: &Came,
    ) -> Result<Became, NoMemory>
        requires results { AreResults current.now.request.now.ask came.now.accepted }
        requires readings { length came.now.readings ≡ length came.now.accepted }
        requires read { current.now.is_sent ≡ true → (shown : Items Shown) × AreReadings current.now.request.now.ask came.now.accepted came.now.readings shown }
        requires room { bytes_read came.now.readings ≤ most_left (budget_of current.now.request.now.ask) }
        requires asked { (body : Items ℕ) × IsRequest body current.now.request.now }
        ensures { IsAnswered current.now.is_sent self.now.config current.now.request.now came.now result call.old call.new }
    {
        let request = current.request;
        if is_quiet(&request.ask) {
            call.how = CallHow::Quiet;
            return Ok(Became::Quiet);
        }
        let frame = self.frame(current, came.accepted(), came.readings())?;
        call.how = CallHow::AtOnce;
        Ok(Became::Answered(frame))
    }

    // Looks at the clock, and makes an operation of the call from the moment there. Most calls are answered at once, so this stands apart.
    #[inline(never)]
    fn delay<W: Wait>(
        &self,
        current: &CurrentCall<'_, '_, '_, W>,
        logs: &mut LogPass,
        call: &mut Call,
        came: Came,
    ) -> Result<Became, NoMemory>
        requires made { logs.old.made ≡ self.now.logs }
        requires free { IsFree logs.old.seat }
        requires results { AreResults current.now.request.now.ask came.accepted }
        requires cut { call.old.how ≡ Cut None }
        requires waits { (front : Items TheTranscript) × (transcript : TheTranscript)
            × WillWait self.now.config current.now.seq current.now.request.now came.accepted logs.old call.old front transcript }
        ensures served { HasServed current.now.is_sent self.now.config current.now.seq current.now.request.now
            (WillWait self.now.config current.now.seq current.now.request.now came.accepted logs.old call.old) result logs.old logs.new call.old call.new }
        ensures seen { HasSeen logs.new }
    {
        let by = Caller {
            rt: current.rt,
            logs: &self.logs,
            seq: current.seq,
        };
        let looked = look_at_clock(&by, logs, &mut call.accept, 0);
        self.logs.settle(current.rt, logs);
        let op = op_of(self.alloc, current.request, came.accepted(), looked?)?;
        let accepted = came.into_accepted(self.alloc)?;
        let parked = Parked { accepted, op };
        self.enlist(current, logs, call, parked)
    }

    // Registers its operation in the room.
    fn enlist<W: Wait>(
        &self,
        current: &CurrentCall<'_, '_, '_, W>,
        logs: &mut LogPass,
        call: &mut Call,
        parked: Parked,
    ) -> Result<Became, NoMemory>
        requires made { logs.old.made ≡ self.now.logs }
        requires free { IsFree logs.old.seat }
        requires there { AllBelow (length self.now.logs.parts) (parts_asked parked.accepted) }
        requires listed { AreResults current.now.request.now.ask parked.accepted }
        requires carriable { All IsCarriable parked.accepted }
        requires became { (moment : ℕ) × (parked.op ≡ operation_of current.now.request.now.ask parked.accepted moment) }
        requires asked { IsRequest call.old.frame current.now.request.now }
        requires loud { is_quiet current.now.request.now.ask ≡ false }
        requires waits { (front : Items TheTranscript) × (transcript : TheTranscript)
            × WillSit self.now.config current.now.seq current.now.request.now parked logs.old call.old front transcript }
        ensures served { HasServed current.now.is_sent self.now.config current.now.seq current.now.request.now
            (WillSit self.now.config current.now.seq current.now.request.now parked logs.old call.old) result logs.old logs.new call.old call.new }
        ensures seen { HasSeen logs.new }
    {
        match self.logs.register(current.rt, logs, &parked.op) {
            Registered::Parked => {
                call.how = CallHow::Parked;
                Ok(Became::Parked(parked))
            }
            Registered::Won(done) => {
                let won = Won {
                    parked: &parked,
                    done,
                    is_sent: current.is_sent,
                };
                let frame = self.complete(current, logs, &mut call.finish, &mut call.how, &won)?;
                Ok(Became::Answered(frame))
            }
        }
    }
}
