//! The end of a call that was won, whether `handle` finds it won as it registers the operation or `collect` does later: the call looks at its
//! partitions (`shared_calls::complete`), and the reply's frame is made of what it finds.
ghost use Rattle.std.specs.Prelude.{◌≡◌, ◌≤◌, ℕ, true, All, List as Items, [], IfOk, length};
ghost use Rattle.audit.specs.declared.account.Call.{Call as TheCall};
ghost use Rattle.audit.specs.declared.account.Transcript.{Transcript as TheTranscript};
ghost use Rattle.kanswer.specs.Answer.{answer};
ghost use Rattle.kanswer.specs.BytesRead.{bytes_read, most_left};
ghost use Rattle.kanswer.specs.LogReadings.{AreReadings, HasCarriable, IsCarriable, budget_of, named_count};
ghost use Rattle.kanswer.specs.Results.{AreResults, parts_asked};
ghost use Rattle.kanswer.specs.Waiting.{Shown, operation_of};
ghost use Rattle.kwire.specs.IsRequest.{IsRequest};
ghost use Rattle.audit.specs.broker.Sound.{AllBelow};
ghost use Rattle.shared_broker.specs.Calling.{frame_of, told_as};
ghost use Rattle.shared_broker.specs.Serving.{HasFinished, WillSit, finished_as};
ghost use Rattle.shared_logs.specs.Seen.{HasSeen};

use crate::broker::Broker;
use crate::current::{CurrentCall, Won};
use audit::{CallHow, Point};
use kanswer::{Accepted, Reading, reply_frame};
use kbytes::{Bytes, List, NoMemory};
use purgatory::{Done, How};
use shared_calls::{Completing, complete};
use shared_logs::LogPass;
use shared_logs::call_turns::Caller;
use std::sync::Wait;

// How a call ends if this winner won it.
fn told_as(done: Done) -> CallHow
    ensures { result ≡ told_as done }
{
    match done.how {
        How::Satisfied => CallHow::Satisfied { by: done.by },
        How::Expired => CallHow::Expired { by: done.by },
    }
}

impl Broker {
    /// The frame of the call's reply, from what was read of each partition that it names; no bytes if it isn't to be sent.
    pub(crate) fn frame<W: Wait>(
        &self,
        current: &CurrentCall<'_, '_, '_, W>,
        accepted: &[Accepted],
        readings: &[Reading],
    ) -> Result<Bytes, NoMemory>
        requires size { length accepted.now ≡ named_count current.now.request.now.ask }
        requires readings { length readings.now ≡ length accepted.now }
        requires offsets { All IsCarriable accepted.now }
        requires numbers { All HasCarriable readings.now }
        requires read { current.now.is_sent ≡ true → (shown : Items Shown) × AreReadings current.now.request.now.ask accepted.now readings.now shown }
        requires room { bytes_read readings.now ≤ most_left (budget_of current.now.request.now.ask) }
        requires asked { (body : Items ℕ) × IsRequest body current.now.request.now }
        ensures { IfOk result (λ frame. (shown : Items Shown) → (current.now.is_sent ≡ true → AreReadings current.now.request.now.ask accepted.now readings.now shown)
            → frame ≡ frame_of current.now.is_sent (answer self.now.config current.now.request.now shown)) }
    {
        if !current.is_sent {
            return Ok(Bytes::new(self.alloc));
        }
        reply_frame(
            self.alloc,
            &self.config,
            current.request,
            accepted,
            readings,
        )
    }

    /// Completes a request that was won: its call looks at the partitions, and ends as the winner says. If memory runs out, it is cut off.
    pub(crate) fn complete<W: Wait>(
        &self,
        current: &CurrentCall<'_, '_, '_, W>,
        logs: &mut LogPass,
        finish: &mut List<Point>,
        how: &mut CallHow,
        won: &Won<'_>,
    ) -> Result<Bytes, NoMemory>
        requires made { logs.old.made ≡ self.now.logs }
        requires there { AllBelow (length self.now.logs.parts) (parts_asked won.now.parked.now.accepted) }
        requires listed { AreResults current.now.request.now.ask won.now.parked.now.accepted }
        requires carriable { All IsCarriable won.now.parked.now.accepted }
        requires became { (moment : ℕ) × (won.now.parked.now.op ≡ operation_of current.now.request.now.ask won.now.parked.now.accepted moment) }
        requires asked { (body : Items ℕ) × IsRequest body current.now.request.now }
        requires unfinished { finish.old ≡ [] }
        requires waits { (call : TheCall) × (front : Items TheTranscript) × (transcript : TheTranscript)
            × WillSit self.now.config current.now.seq current.now.request.now won.now.parked.now logs.old call front transcript }
        ensures made { logs.new.made ≡ self.now.logs }
        ensures seen { HasSeen logs.new }
        ensures finished { (call : TheCall) → HasFinished current.now.is_sent self.now.config current.now.seq won.now.done (WillSit self.now.config current.now.seq current.now.request.now won.now.parked.now logs.old call) result
            logs.old logs.new call (finished_as call finish.new how.new) }
    {
        *how = CallHow::Cut {
            won: Some(won.done.by),
        };
        let accepted = won.parked.accepted.as_slice();
        let by = Caller {
            rt: current.rt,
            logs: &self.logs,
            seq: current.seq,
        };
        let completing = Completing {
            by: &by,
            accepted,
            op: &won.parked.op,
            how: won.done.how,
        };
        let readings = complete(&completing, logs, finish, current.request);
        self.logs.settle(current.rt, logs);
        let readings = readings?;
        let frame = self.frame(current, accepted, readings.as_slice())?;
        *how = told_as(won.done);
        Ok(frame)
    }
}
