//! A produce is accepted, for `accepting`: each partition that it names is decided, and gets its batch in a turn where its log is asked.
ghost use Rattle.std.specs.Prelude.{◌≡◌, ◌<◌, [], ◌∷◌, OnErr, OnOk, length};
ghost use Rattle.kanswer.specs.Decisions.{AskLog, produce_parts};
ghost use Rattle.kanswer.specs.Sent.{sent_outcome};
ghost use Rattle.kwire.specs.Configuration.{followers_of};
ghost use Rattle.kanswer.specs.BytesRead.{bytes_read};
ghost use Rattle.shared_logs.specs.Shared.{followers_in};
ghost use Rattle.shared_calls.specs.Stand.{HasProduced, IsEven, IsStopped, OnProduce, produce_named, stand};

use crate::came::Came;
use crate::named::Named;
use audit::Point;
use kanswer::{Accepted, Reading, SentBatch, Terms, decide_put, read_nothing};
use kbytes::{Bytes, List, NoMemory};
use kwire::{Config, ProducePartView, ProduceTopicView};
use shared_logs::LogPass;
use shared_logs::call_turns::{Caller, put};
use std::sync::Wait;

/// The call of a pass that puts, the topics that there are, and on what terms its request asks.
#[derive(Drop)]
pub(crate) struct Producing<'a, 'r, 'l, W> {
    pub(crate) config: &'a Config,
    pub(crate) by: &'a Caller<'r, 'l, W>,
    pub(crate) terms: Terms,
}

// A batch is put into a partition, and what became of that is noted.
fn put_one(
    call: &Producing<'_, '_, '_, impl Wait>,
    pass: &mut LogPass,
    points: &mut List<Point>,
    number: u32,
    sent: &SentBatch<'_>,
    came: &mut Came,
) -> Result<(), NoMemory>
    requires made { pass.old.made ≡ call.now.by.now.logs.now }
    requires there { number < length call.now.by.now.logs.now.parts }
    ensures made { pass.new.made ≡ call.now.by.now.logs.now }
    ensures come { OnOk result (HasProduced call.now.config.now call.now.by.now.seq (AskLog number (sent_outcome number sent.now) ∷ [])
        (stand pass.old points.old came.old) (stand pass.new points.new came.new)) }
    ensures even { OnOk result (IsEven came.old → IsEven came.new) }
    ensures room { OnOk result (bytes_read came.new.readings ≡ bytes_read came.old.readings) }
    ensures stopped { OnErr result (IsStopped call.now.config.now call.now.by.now.seq (AskLog number (sent_outcome number sent.now) ∷ [])
        (stand pass.old points.old came.old) pass.new points.new) }
{
    let put = put(call.by, pass, points, number, sent)?;
    let reading = Reading {
        numbers: put.numbers,
        records: Bytes::new(call.by.logs.alloc()),
    };
    came.note(put.entered.became, reading)
}

// One partition of a produce.
fn produce_one(
    call: &Producing<'_, '_, '_, impl Wait>,
    pass: &mut LogPass,
    points: &mut List<Point>,
    named: &Named<'_, ProducePartView<'_>>,
    came: &mut Came,
) -> Result<(), NoMemory>
    requires made { pass.old.made ≡ call.now.by.now.logs.now }
    requires followers { followers_in call.now.by.now.logs.now ≡ followers_of call.now.config.now.topics }
    ensures made { pass.new.made ≡ call.now.by.now.logs.now }
    ensures come { OnOk result (OnProduce call.now.config.now call.now.terms ((named.now.topic.now, named.now.part.now) ∷ []) (λ next.
        HasProduced call.now.config.now call.now.by.now.seq next (stand pass.old points.old came.old) (stand pass.new points.new came.new))) }
    ensures even { OnOk result (IsEven came.old → IsEven came.new) }
    ensures room { OnOk result (bytes_read came.new.readings ≡ bytes_read came.old.readings) }
    ensures stopped { OnErr result (OnProduce call.now.config.now call.now.terms ((named.now.topic.now, named.now.part.now) ∷ []) (λ next.
        IsStopped call.now.config.now call.now.by.now.seq next (stand pass.old points.old came.old) pass.new points.new)) }
{
    match decide_put(call.config, call.terms, named.topic, named.part) {
        Err(code) => came.note(
            Accepted::Refused { code },
            read_nothing(call.by.logs.alloc()),
        ),
        Ok((number, sent)) => put_one(call, pass, points, number, &sent, came),
    }
}

fn produce_topic(
    call: &Producing<'_, '_, '_, impl Wait>,
    pass: &mut LogPass,
    points: &mut List<Point>,
    topic: &ProduceTopicView<'_>,
    came: &mut Came,
) -> Result<(), NoMemory>
    requires made { pass.old.made ≡ call.now.by.now.logs.now }
    requires followers { followers_in call.now.by.now.logs.now ≡ followers_of call.now.config.now.topics }
    ensures made { pass.new.made ≡ call.now.by.now.logs.now }
    ensures come { OnOk result (OnProduce call.now.config.now call.now.terms (produce_named topic.now) (λ next.
        HasProduced call.now.config.now call.now.by.now.seq next (stand pass.old points.old came.old) (stand pass.new points.new came.new))) }
    ensures even { OnOk result (IsEven came.old → IsEven came.new) }
    ensures room { OnOk result (bytes_read came.new.readings ≡ bytes_read came.old.readings) }
    ensures stopped { OnErr result (OnProduce call.now.config.now call.now.terms (produce_named topic.now) (λ next.
        IsStopped call.now.config.now call.now.by.now.seq next (stand pass.old points.old came.old) pass.new points.new)) }
{
    for part in topic.parts.as_slice() {
        let named = Named {
            topic: topic.name,
            part,
        };
        produce_one(call, pass, points, &named, came)?;
    }
    Ok(())
}

/// Each partition that these topics name, in the order of the request. It isn't put into its caller, which accepts fetches too.
#[inline(never)]
pub(crate) fn produce_topics(
    call: &Producing<'_, '_, '_, impl Wait>,
    pass: &mut LogPass,
    points: &mut List<Point>,
    topics: &[ProduceTopicView<'_>],
    came: &mut Came,
) -> Result<(), NoMemory>
    requires made { pass.old.made ≡ call.now.by.now.logs.now }
    requires followers { followers_in call.now.by.now.logs.now ≡ followers_of call.now.config.now.topics }
    ensures made { pass.new.made ≡ call.now.by.now.logs.now }
    ensures come { OnOk result (OnProduce call.now.config.now call.now.terms (produce_parts topics.now) (λ next.
        HasProduced call.now.config.now call.now.by.now.seq next (stand pass.old points.old came.old) (stand pass.new points.new came.new))) }
    ensures even { OnOk result (IsEven came.old → IsEven came.new) }
    ensures room { OnOk result (bytes_read came.new.readings ≡ bytes_read came.old.readings) }
    ensures stopped { OnErr result (OnProduce call.now.config.now call.now.terms (produce_parts topics.now) (λ next.
        IsStopped call.now.config.now call.now.by.now.seq next (stand pass.old points.old came.old) pass.new points.new)) }
{
    for topic in topics {
        produce_topic(call, pass, points, topic, came)?;
    }
    Ok(())
}
