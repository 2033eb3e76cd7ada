//! The last step of answering: the frame of the reply. That of a produce or a fetch is written from what was read, and the
//! others from the reply of `replies`.

ghost use Rattle.std.specs.Prelude.{ℕ, ◌≡◌, ◌≤◌, length, All, List as Items, IfOk};
ghost use Rattle.kanswer.specs.Waiting.{Shown};
ghost use Rattle.kanswer.specs.Answer.{answer};
ghost use Rattle.kanswer.specs.LogReadings.{AreReadings, IsCarriable, HasCarriable, named_count, budget_of};
ghost use Rattle.kwire.specs.IsRequest.{IsRequest};
ghost use Rattle.kwire.specs.Spelling.{spelling};
ghost use Rattle.kwire.specs.DeclaredTopics.{AreDeclared};
ghost use Rattle.kanswer.specs.BytesRead.{bytes_read, most_left};

use crate::fetched_frame::{AnsweredFetch, fetched_frame};
use crate::produced::Producing;
use crate::produced_frame::{AnsweredProduce, produced_frame};
use crate::{Accepted, Reading, answer};
use kbytes::{Bytes, NoMemory};
use kwire::{AskView, Config, RequestView, reply_bytes};
use std::alloc::Global;

/// The frame of the reply, from what became of each named partition and what was read of it. The request was read from a
/// body, so its reply has a frame.
pub fn reply_frame(
    alloc: Global,
    config: &Config,
    request: &RequestView<'_>,
    accepted: &[Accepted],
    readings: &[Reading],
) -> Result<Bytes, NoMemory>
    requires size { length accepted.now ≡ named_count request.now.ask }
    requires readings { length readings.now ≡ length accepted.now }
    requires read { (shown : Items Shown) × AreReadings request.now.ask accepted.now readings.now shown }
    requires offsets { All IsCarriable accepted.now }
    requires numbers { All HasCarriable readings.now }
    requires room { bytes_read readings.now ≤ most_left (budget_of request.now.ask) }
    requires asked { (body : Items ℕ) × IsRequest body request.now }
    requires declared { AreDeclared config.now.topics }
    ensures { IfOk result (λ frame. (shown : Items Shown) → AreReadings request.now.ask accepted.now readings.now shown
        → frame ≡ spelling (answer config.now request.now shown)) }
{
    match &request.ask {
        AskView::Produce {
            version,
            acks,
            topics,
            ..
        } => {
            let answered = AnsweredProduce {
                correlation: request.correlation,
                version: *version,
                produce: Producing {
                    config,
                    acks: *acks,
                },
                topics: topics.as_slice(),
            };
            produced_frame(alloc, &answered, accepted, readings)
        }
        AskView::Fetch {
            version,
            isolation,
            topics,
            ..
        } => {
            let answered = AnsweredFetch {
                correlation: request.correlation,
                version: *version,
                isolation: *isolation,
                topics: topics.as_slice(),
            };
            fetched_frame(alloc, &answered, accepted, readings)
        }
        AskView::Metadata { .. } | AskView::Versions { .. } => {
            let reply = answer(alloc, config, request, accepted, readings)?;
            reply_bytes(alloc, &reply)
        }
    }
}
