//! Making the reply from what was read, one case for each kind of request.
ghost use Rattle.std.specs.Prelude.{◌≡◌, List as Items, length, All, IfOk};
ghost use Rattle.kanswer.specs.Waiting.{Shown};
ghost use Rattle.kanswer.specs.Answer.{answer, told_to};
ghost use Rattle.kwire.specs.Views.{ask_of};
ghost use Rattle.kanswer.specs.LogReadings.{AreReadings, IsCarriable, HasCarriable, named_count};

use crate::accepted::{Accepted, Reading};
use crate::described::described;
use crate::fetched::fetched_topics;
use crate::produced::{Producing, produced_topics};
use kbytes::NoMemory;
use kwire::{AskView, Config, Reply, RequestView, Told, codes};
use std::alloc::Global;

// The reply's fields.
fn told_to(
    alloc: Global,
    config: &Config,
    ask: &AskView<'_>,
    accepted: &[Accepted],
    readings: &[Reading],
) -> Result<Told, NoMemory>
    requires accepted { length accepted.now ≡ named_count (ask_of ask.now) }
    requires readings { length readings.now ≡ named_count (ask_of ask.now) }
    requires offsets { All IsCarriable accepted.now }
    requires numbers { All HasCarriable readings.now }
    ensures { IfOk result (λ told. (shown : Items Shown) → AreReadings (ask_of ask.now) accepted.now readings.now shown
        → told ≡ told_to config.now (ask_of ask.now) shown) }
{
    match ask {
        AskView::Produce {
            version,
            acks,
            topics,
            ..
        } => {
            let produce = Producing {
                config,
                acks: *acks,
            };
            Ok(Told::Produced {
                version: *version,
                topics: produced_topics(alloc, &produce, topics.as_slice(), accepted, readings)?,
            })
        }
        AskView::Fetch {
            version,
            isolation,
            topics,
            ..
        } => Ok(Told::Fetched {
            version: *version,
            isolation: *isolation,
            topics: fetched_topics(alloc, topics.as_slice(), accepted, readings)?,
        }),
        AskView::Metadata { topics } => Ok(Told::Metadata {
            port: config.port(),
            topics: described(alloc, config.topics(), topics)?,
        }),
        AskView::Versions { version } => Ok(Told::Versions {
            code: if *version == 0 {
                codes::NONE
            } else {
                codes::UNSUPPORTED_VERSION
            },
        }),
    }
}

/// The reply to a request, from what became of each partition that it names and what was read of each, in the order of the
/// request. It doesn't matter whether the request was answered at once, was satisfied or expired.
pub fn answer(
    alloc: Global,
    config: &Config,
    request: &RequestView<'_>,
    accepted: &[Accepted],
    readings: &[Reading],
) -> Result<Reply, NoMemory>
    requires accepted { length accepted.now ≡ named_count request.now.ask }
    requires readings { length readings.now ≡ named_count request.now.ask }
    requires offsets { All IsCarriable accepted.now }
    requires numbers { All HasCarriable readings.now }
    ensures { IfOk result (λ reply. (shown : Items Shown) → AreReadings request.now.ask accepted.now readings.now shown
        → reply ≡ answer config.now request.now shown) }
{
    let told = told_to(alloc, config, &request.ask, accepted, readings)?;
    Ok(Reply {
        correlation: request.correlation,
        told,
    })
}
