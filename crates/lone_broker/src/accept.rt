//! `handle` accepts a request here: each partition that it names is decided in order, and a log that is asked gets an entry. `Came` takes
//! the results and the points of the entries.

ghost use Rattle.std.specs.Prelude.{◌≡◌, ◌∷◌, [], List as Items, length, map, OnOk};
ghost use Rattle.kwire.specs.Configuration.{followers_of, partitions_of, part_of};
ghost use Rattle.kanswer.specs.Decisions.{Decision, ProduceDecides, fetch_outcome, fetch_decision, fetch_decisions, fetch_parts, Decides};
ghost use Rattle.kanswer.specs.OnTerms.{OnTerms};
ghost use Rattle.kanswer.specs.Sent.{sent_outcome};
ghost use Rattle.lone_broker.specs.Carried.{IsEntered, IsCarried, HasProduced};

use crate::came::Came;
use kanswer::{Accepted, SentBatch, Terms, Visitor, decide_put, enter_batch, enter_fetch};
use kbytes::NoMemory;
use kwire::{
    AskView, Config, FetchPart, FetchTopicView, ProducePartView, ProduceTopicView, RequestView,
    codes,
};
use partlog::PartLog;
use std::alloc::Global;
use trace_file::Digits;

// Puts the batch at the end of the log if there is room.
fn put(
    log: &mut PartLog,
    visitor: Visitor,
    part: u32,
    sent: &SentBatch<'_>,
    came: &mut Came,
) -> Result<(), NoMemory>
    ensures { OnOk result (IsEntered visitor.who.by visitor.who.seq visitor.moment part (sent_outcome part sent.now) log.old log.new came.old came.new) }
{
    let entered = enter_batch(log, visitor, part, sent)?;
    came.note_at(entered.became, part, entered.place)
}

/// A call that is handled: its session and number, with the clock's moment, the topics that there are, and the digits by which
/// its reply is printed.
#[derive(Clone, Copy)]
pub struct Asking<'a> {
    pub alloc: Global,
    pub config: &'a Config,
    pub digits: &'a Digits,
    pub visitor: Visitor,
}

// A produce of a call.
#[derive(Clone, Copy)]
struct Producing<'a> {
    config: &'a Config,
    visitor: Visitor,
    terms: Terms,
}

// A fetch of a call, by this replica.
#[derive(Clone, Copy)]
struct Fetching<'a> {
    config: &'a Config,
    visitor: Visitor,
    replica: i32,
}

// Decides one partition of a produce, and asks its log unless it is refused before.
fn produce_one(
    call: &Producing<'_>,
    parts: &mut [PartLog],
    topic: &[u8],
    part: &ProducePartView<'_>,
    came: &mut Came,
) -> Result<(), NoMemory>
    requires { length parts.old ≡ partitions_of call.now.config.now.topics }
    ensures { OnOk result ((decision : Decision)
        × OnTerms call.now.terms (λ id. ProduceDecides call.now.config.now call.now.terms.version id call.now.terms.acks (topic.now, part.now) decision)
        × IsCarried call.now.visitor.who.by call.now.visitor.who.seq call.now.visitor.moment (decision ∷ []) parts.old parts.new came.old came.new) }
{
    match decide_put(call.config, call.terms, topic, part) {
        Ok((number, sent)) => {
            let log = &mut parts[number as usize];
            put(log, call.visitor, number, &sent, came)
        }
        Err(code) => came.note(Accepted::Refused { code }),
    }
}

// One topic of a produce.
fn produce_topic(
    call: &Producing<'_>,
    parts: &mut [PartLog],
    topic: &ProduceTopicView<'_>,
    came: &mut Came,
) -> Result<(), NoMemory>
    requires { length parts.old ≡ partitions_of call.now.config.now.topics }
    ensures size { OnOk result (length parts.new ≡ length parts.old) }
    ensures carried { OnOk result (HasProduced call.now.config.now call.now.terms call.now.visitor.who.by call.now.visitor.who.seq call.now.visitor.moment (topic.now ∷ [])
        parts.old parts.new came.old came.new) }
{
    for part in topic.parts.as_slice() {
        produce_one(call, parts, topic.name, part, came)?;
    }
    Ok(())
}

// Carries out a produce: each named partition in the order of the request. If memory runs out, some of them may have their
// entries.
fn produce(
    call: &Producing<'_>,
    parts: &mut [PartLog],
    topics: &[ProduceTopicView<'_>],
    came: &mut Came,
) -> Result<(), NoMemory>
    requires { length parts.old ≡ partitions_of call.now.config.now.topics }
    ensures { OnOk result (HasProduced call.now.config.now call.now.terms call.now.visitor.who.by call.now.visitor.who.seq call.now.visitor.moment topics.now
        parts.old parts.new came.old came.new) }
{
    for topic in topics {
        produce_topic(call, parts, topic, came)?;
    }
    Ok(())
}

// Accepts what a fetch asks of one partition, over its log alone. If memory runs out, the log may have its entry.
fn accept_fetch_part(
    call: &Fetching<'_>,
    log: &mut PartLog,
    part: u32,
    asked: &FetchPart,
    came: &mut Came,
) -> Result<(), NoMemory>
    ensures { OnOk result (IsEntered call.now.visitor.who.by call.now.visitor.who.seq call.now.visitor.moment part (fetch_outcome log.old.followers call.now.replica asked.now part)
        log.old log.new came.old came.new) }
{
    let entered = enter_fetch(log, call.visitor, call.replica, part, asked)?;
    came.note_at(entered.became, part, entered.place)
}

// Decides one partition of a fetch, and asks its log if there is such a partition.
fn fetch_one(
    call: &Fetching<'_>,
    parts: &mut [PartLog],
    topic: &[u8],
    asked: &FetchPart,
    came: &mut Came,
) -> Result<(), NoMemory>
    requires { map (λ h. h.followers) parts.old ≡ followers_of call.now.config.now.topics }
    ensures { OnOk result (IsCarried call.now.visitor.who.by call.now.visitor.who.seq call.now.visitor.moment
        (fetch_decision call.now.config.now call.now.replica (topic.now, asked.now) (part_of call.now.config.now topic.now asked.now.index) ∷ [])
        parts.old parts.new came.old came.new) }
{
    let Some(part) = call.config.part_of(topic, asked.index) else {
        return came.note(Accepted::Refused {
            code: codes::UNKNOWN_TOPIC_OR_PARTITION,
        });
    };
    let log = &mut parts[part as usize];
    accept_fetch_part(call, log, part, asked, came)
}

// One topic of a fetch.
fn fetch_topic(
    call: &Fetching<'_>,
    parts: &mut [PartLog],
    topic: &FetchTopicView<'_>,
    came: &mut Came,
) -> Result<(), NoMemory>
    requires { map (λ h. h.followers) parts.old ≡ followers_of call.now.config.now.topics }
    ensures followers { OnOk result (map (λ h. h.followers) parts.new ≡ followers_of call.now.config.now.topics) }
    ensures carried { OnOk result (IsCarried call.now.visitor.who.by call.now.visitor.who.seq call.now.visitor.moment
        (fetch_decisions call.now.config.now call.now.replica (fetch_parts (topic.now ∷ [])))
        parts.old parts.new came.old came.new) }
{
    for part in topic.parts.as_slice() {
        fetch_one(call, parts, topic.name, part, came)?;
    }
    Ok(())
}

// Carries out a fetch: each named partition in the order of the request. If memory runs out, some of them may have their
// entries.
fn fetch(
    call: &Fetching<'_>,
    parts: &mut [PartLog],
    topics: &[FetchTopicView<'_>],
    came: &mut Came,
) -> Result<(), NoMemory>
    requires { map (λ h. h.followers) parts.old ≡ followers_of call.now.config.now.topics }
    ensures { OnOk result (IsCarried call.now.visitor.who.by call.now.visitor.who.seq call.now.visitor.moment (fetch_decisions call.now.config.now call.now.replica (fetch_parts topics.now))
        parts.old parts.new came.old came.new) }
{
    for topic in topics {
        fetch_topic(call, parts, topic, came)?;
    }
    Ok(())
}

/// Carries out a request. If memory runs out, some of the named partitions may have their entries, and the logs may only be
/// dropped.
pub fn accept(
    call: &Asking<'_>,
    parts: &mut [PartLog],
    request: &RequestView<'_>,
    came: &mut Came,
) -> Result<(), NoMemory>
    requires { map (λ h. h.followers) parts.old ≡ followers_of call.now.config.now.topics }
    ensures { OnOk result ((decisions : Items Decision) × Decides call.now.config.now request.now.ask decisions
        × IsCarried call.now.visitor.who.by call.now.visitor.who.seq call.now.visitor.moment decisions parts.old parts.new came.old came.new) }
{
    match &request.ask {
        AskView::Produce {
            version,
            transactional,
            acks,
            topics,
            ..
        } => {
            let terms = Terms {
                version: *version,
                is_transactional: transactional.is_some(),
                acks: *acks,
            };
            let produced = Producing {
                config: call.config,
                visitor: call.visitor,
                terms,
            };
            produce(&produced, parts, topics.as_slice(), came)
        }
        AskView::Fetch {
            replica,
            topics,
            ..
        } => {
            let fetched = Fetching {
                config: call.config,
                visitor: call.visitor,
                replica: *replica,
            };
            fetch(&fetched, parts, topics.as_slice(), came)
        }
        AskView::Metadata { .. } | AskView::Versions { .. } => Ok(()),
    }
}
