//! Computes again what became of each partition that a call names. `reply_to` calls `retell` with the call's request, the points of its
//! entries and the pasts of the partitions.

ghost use Rattle.std.specs.Prelude.{◌≡◌, ◌≤◌, ◌<◌, ◌∷◌, [], List as Items, length, map, is_some, OnOk, IfSome, IfNone, ℕ, pos, true, false, IsTrue, ◌⊎◌};
ghost use Rattle.partlog.specs.declared.part_log.TheConstants.{MOST_LOG_BYTES};
ghost use Rattle.partlog.specs.Follower.{IsFollower};
ghost use Rattle.partlog.specs.Gauges.{numbers_of};
ghost use Rattle.partlog.specs.State.{PartState, state_before};
ghost use Rattle.kwire.specs.Configuration.{partitions_of, part_of};
ghost use Rattle.kanswer.specs.LogReadings.{IsCarriable};
ghost use Rattle.kanswer.specs.Waiting.{is_consumer};
ghost use Rattle.kanswer.specs.Decisions.{AskLog, Decision, Decides, fetch_decision, fetch_decisions, fetch_outcome, fetch_parts};
ghost use Rattle.kanswer.specs.Sent.{sent_outcome};
ghost use Rattle.audit.specs.retelling.Retells.{Retells, RetellsProduce};

use crate::Point;
use crate::retelling::past::{Past, PastEntry};
use crate::retelling::retold::Retold;
use kanswer::{Accepted, SentBatch, Terms, decide_put};
use kbytes::NoMemory;
use kwire::{
    AskView, Config, FetchPart, FetchTopicView, ProducePartView, ProduceTopicView, RequestView,
    codes,
};
use partlog::{MOST_LOG_BYTES, Numbers};

/// What a call's results are computed from: the topics, the past of each partition, and the points of the call's acceptance.
#[derive(Clone, Copy)]
pub struct Scene<'a> {
    pub config: &'a Config,
    pub pasts: &'a [Past],
    pub points: &'a [Point],
}

// What became of a batch at a log with these numbers.
fn put(part: u32, before: &Numbers, sent: &SentBatch<'_>) -> Accepted
    requires bytes { before.now.bytes ≤ MOST_LOG_BYTES }
    requires end { before.now.end ≤ MOST_LOG_BYTES }
    ensures outcome { (state : PartState) → before.now ≡ numbers_of state → result ≡ (sent_outcome part sent.now state).result }
    ensures carried { IsCarriable result }
{
    if before.insync < sent.least {
        return Accepted::Refused {
            code: codes::NOT_ENOUGH_REPLICAS,
        };
    }
    if sent.batch.bytes().len() > MOST_LOG_BYTES - before.bytes as usize {
        return Accepted::Refused {
            code: sent.full_code(),
        };
    }
    Accepted::Appended {
        part,
        base: before.end,
        count: sent.batch.count(),
    }
}

// What became of a batch, whose point is the next one. A call that ran out of memory can have fewer points than partitions.
fn retell_put(
    scene: &Scene<'_>,
    part: u32,
    sent: &SentBatch<'_>,
    retold: &mut Retold,
) -> Result<(), NoMemory>
    requires { part < length scene.now.pasts.now }
    ensures { OnOk result (Retells scene.now.pasts.now scene.now.points.now (AskLog part (sent_outcome part sent.now) ∷ [])
        retold.old retold.new) }
{
    let Some(point) = scene.points.get(retold.taken()) else {
        return Ok(());
    };
    let before = scene.pasts[part as usize].before(point.place);
    let became = put(part, &before, sent);
    retold.ask(became, point.place)
}

// One partition of a produce.
fn retell_produce_part(
    scene: &Scene<'_>,
    terms: Terms,
    topic: &[u8],
    part: &ProducePartView<'_>,
    retold: &mut Retold,
) -> Result<(), NoMemory>
    requires { length scene.now.pasts.now ≡ partitions_of scene.now.config.now.topics }
    ensures { OnOk result (RetellsProduce scene.now.config.now terms scene.now.pasts.now scene.now.points.now
        (record { name = topic.now; parts = part.now ∷ [] } ∷ []) retold.old retold.new) }
{
    match decide_put(scene.config, terms, topic, part) {
        Ok((number, sent)) => retell_put(scene, number, &sent, retold),
        Err(code) => retold.refuse(code),
    }
}

// One topic of a produce.
fn retell_produce_topic(
    scene: &Scene<'_>,
    terms: Terms,
    topic: &ProduceTopicView<'_>,
    retold: &mut Retold,
) -> Result<(), NoMemory>
    requires { length scene.now.pasts.now ≡ partitions_of scene.now.config.now.topics }
    ensures { OnOk result (RetellsProduce scene.now.config.now terms scene.now.pasts.now scene.now.points.now
        (topic.now ∷ []) retold.old retold.new) }
{
    for part in topic.parts.as_slice() {
        retell_produce_part(scene, terms, topic.name, part, retold)?;
    }
    Ok(())
}

fn retell_produce(
    scene: &Scene<'_>,
    terms: Terms,
    topics: &[ProduceTopicView<'_>],
    retold: &mut Retold,
) -> Result<(), NoMemory>
    requires { length scene.now.pasts.now ≡ partitions_of scene.now.config.now.topics }
    ensures { OnOk result (RetellsProduce scene.now.config.now terms scene.now.pasts.now scene.now.points.now
        topics.now retold.old retold.new) }
{
    for topic in topics {
        retell_produce_topic(scene, terms, topic, retold)?;
    }
    Ok(())
}

// The offset that is asked for, if it is from 0 to the log end.
fn offset_within(asked: &FetchPart, end: u64) -> Option<u64>
    ensures within { IfSome result (λ offset. (asked.now.offset ≡ pos offset) × (offset ≤ end)) }
    ensures outside { IfNone result ((offset : ℕ) → asked.now.offset ≡ pos offset → end < offset) }
{
    if asked.offset < 0 {
        return None;
    }
    let offset = asked.offset as u64;
    if offset > end { None } else { Some(offset) }
}

// Whether a replica is a consumer or one of the followers.
fn is_known(replica: i32, followers: u32) -> bool
    ensures known { IsTrue result → (is_consumer replica ≡ true) ⊎ IsFollower replica followers }
    ensures other { result ≡ false → (is_consumer replica ≡ false) × (IsFollower replica followers → ⊥) }
{
    replica < 0 || (replica > 0 && replica as u32 <= followers)
}

// What became of a fetch from a partition before an entry.
fn seen(
    entry: &PastEntry<'_>,
    followers: u32,
    replica: i32,
    part: u32,
    asked: &FetchPart,
) -> Accepted
    ensures outcome { result ≡ (fetch_outcome followers replica asked.now part (state_before entry.now.past.now entry.now.place)).result }
    ensures carried { IsCarriable result }
{
    if !is_known(replica, followers) {
        return Accepted::Refused {
            code: codes::REPLICA_NOT_AVAILABLE,
        };
    }
    let PastEntry { past, place } = *entry;
    let Some(offset) = offset_within(asked, past.before(place).end) else {
        return Accepted::Refused {
            code: codes::OFFSET_OUT_OF_RANGE,
        };
    };
    Accepted::Seen {
        part,
        start: past.start_before(place, offset),
    }
}

// One partition of a fetch.
fn retell_fetch_part(
    scene: &Scene<'_>,
    replica: i32,
    topic: &[u8],
    asked: &FetchPart,
    retold: &mut Retold,
) -> Result<(), NoMemory>
    requires { length scene.now.pasts.now ≡ partitions_of scene.now.config.now.topics }
    ensures { OnOk result (Retells scene.now.pasts.now scene.now.points.now
        (fetch_decision scene.now.config.now replica (topic.now, asked.now) (part_of scene.now.config.now topic.now asked.now.index) ∷ [])
        retold.old retold.new) }
{
    let Some(part) = scene.config.part_of(topic, asked.index) else {
        return retold.refuse(codes::UNKNOWN_TOPIC_OR_PARTITION);
    };
    let Some(point) = scene.points.get(retold.taken()) else {
        return Ok(());
    };
    let entry = PastEntry {
        past: &scene.pasts[part as usize],
        place: point.place,
    };
    let followers = scene.config.followers_of(part);
    let became = seen(&entry, followers, replica, part, asked);
    retold.ask(became, point.place)
}

// One topic of a fetch.
fn retell_fetch_topic(
    scene: &Scene<'_>,
    replica: i32,
    topic: &FetchTopicView<'_>,
    retold: &mut Retold,
) -> Result<(), NoMemory>
    requires { length scene.now.pasts.now ≡ partitions_of scene.now.config.now.topics }
    ensures { OnOk result (Retells scene.now.pasts.now scene.now.points.now
        (fetch_decisions scene.now.config.now replica (fetch_parts (topic.now ∷ [])))
        retold.old retold.new) }
{
    for asked in topic.parts.as_slice() {
        retell_fetch_part(scene, replica, topic.name, asked, retold)?;
    }
    Ok(())
}

fn retell_fetch(
    scene: &Scene<'_>,
    replica: i32,
    topics: &[FetchTopicView<'_>],
    retold: &mut Retold,
) -> Result<(), NoMemory>
    requires { length scene.now.pasts.now ≡ partitions_of scene.now.config.now.topics }
    ensures { OnOk result (Retells scene.now.pasts.now scene.now.points.now (fetch_decisions scene.now.config.now replica (fetch_parts topics.now))
        retold.old retold.new) }
{
    for topic in topics {
        retell_fetch_topic(scene, replica, topic, retold)?;
    }
    Ok(())
}

/// Adds what became of each partition that a request names, in order, as far as the points go.
pub fn retell(
    scene: &Scene<'_>,
    request: &RequestView<'_>,
    retold: &mut Retold,
) -> Result<(), NoMemory>
    requires { length scene.now.pasts.now ≡ partitions_of scene.now.config.now.topics }
    ensures { OnOk result ((decisions : Items Decision) × Decides scene.now.config.now request.now.ask decisions
        × Retells scene.now.pasts.now scene.now.points.now decisions retold.old retold.new) }
{
    match &request.ask {
        AskView::Produce {
            version,
            transactional,
            acks,
            topics,
            ..
        } => {
            let terms = Terms {
                version: *version,
                is_transactional: transactional.is_some(),
                acks: *acks,
            };
            retell_produce(scene, terms, topics.as_slice(), retold)
        }
        AskView::Fetch {
            replica,
            topics,
            ..
        } => retell_fetch(scene, *replica, topics.as_slice(), retold),
        AskView::Metadata { .. } | AskView::Versions { .. } => Ok(()),
    }
}
