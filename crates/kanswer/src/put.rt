//! Deciding a partition of a produce before its log is asked, so without any lock.
ghost use Rattle.std.specs.Prelude.{◌≡◌, ◌<◌, [], IfErr, IfOk, unwrap_or};
ghost use Rattle.kanswer.specs.Decisions.{AskLog, ProduceDecides, Refuse};
ghost use Rattle.kanswer.specs.Sent.{sent_outcome};
ghost use Rattle.kwire.specs.Configuration.{partitions_of};
ghost use Rattle.kanswer.specs.OnTerms.{OnTerms};

use crate::code_of;
use crate::terms::{SentBatch, Terms};
use kbatch::view_batch;
use kwire::{Config, ProducePartView, codes};

fn records_of<'a>(part: &ProducePartView<'a>) -> &'a [u8]
    ensures { result.now ≡ unwrap_or part.now.records [] }
{
    match part.records {
        None => &[],
        Some(records) => records,
    }
}

/// The number of the partition whose log is to be asked, and the batch for it. Or else the code with which the partition is
/// refused: 42 for a transactional id, 3 for an unknown partition, 21 for unknown acks, or that of the batch's first fault.
pub fn decide_put<'a>(
    config: &Config,
    terms: Terms,
    topic: &[u8],
    part: &ProducePartView<'a>,
) -> Result<(u32, SentBatch<'a>), i16>
    ensures put { IfOk result (λ put. OnTerms terms (λ id. ProduceDecides config.now terms.version id terms.acks (topic.now, part.now)
        (AskLog put.0 (sent_outcome put.0 put.1)))) }
    ensures within { IfOk result (λ put. put.0 < partitions_of config.now.topics) }
    ensures refused { IfErr result (λ code. OnTerms terms (λ id. ProduceDecides config.now terms.version id terms.acks (topic.now, part.now) (Refuse code))) }
{
    if terms.is_transactional {
        return Err(codes::INVALID_REQUEST);
    }
    let Some(number) = config.part_of(topic, part.index) else {
        return Err(codes::UNKNOWN_TOPIC_OR_PARTITION);
    };
    if !terms.has_known_acks() {
        return Err(codes::INVALID_REQUIRED_ACKS);
    }
    match view_batch(records_of(part)) {
        Ok(batch) => Ok((
            number,
            SentBatch {
                version: terms.version,
                least: terms.needed_insync(config.min_insync_of(number)),
                batch,
            },
        )),
        Err(fault) => Err(code_of(&fault)),
    }
}
