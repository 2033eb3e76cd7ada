//! A fetch is accepted, for `accepting`: each partition that it names is asked and read in a turn, where there is one of that number.
ghost use Rattle.std.specs.Prelude.{◌≡◌, ◌≤◌, ◌+◌, ◌++◌, ℕ, [], ◌∷◌, List as Items, Ok, OnErr, OnOk};
ghost use Rattle.kanswer.specs.Answer.{asked_parts};
ghost use Rattle.kanswer.specs.Decisions.{fetch_decisions, fetch_parts};
ghost use Rattle.kanswer.specs.LogReadings.{IsCarriable};
ghost use Rattle.kwire.specs.Configuration.{followers_of};
ghost use Rattle.partlog.specs.declared.part_log.TheConstants.{MOST_LOG_BYTES};
ghost use Rattle.kanswer.specs.BytesRead.{bytes_read, most_left};
ghost use Rattle.shared_logs.specs.Shared.{followers_in};
ghost use Rattle.shared_calls.specs.Stand.{HasFetched, IsEven, IsStopped, fetch_named, records_as, stand};

use crate::came::Came;
use crate::named::Named;
use audit::Point;
use kanswer::{Accepted, Budget, Reading, read_nothing};
use kbytes::{Bytes, List, NoMemory};
use kwire::{Config, FetchPart, FetchTopicView, codes};
use shared_logs::call_turns::{Caller, fetch};
use shared_logs::{Fetched, LogPass, Wanted};
use std::alloc::Global;
use std::sync::Wait;

/// The call of a pass that fetches, the topics that there are, and for which replica. A negative one is a consumer.
#[derive(Drop)]
pub(crate) struct Fetching<'a, 'r, 'l, W> {
    pub(crate) config: &'a Config,
    pub(crate) by: &'a Caller<'r, 'l, W>,
    pub(crate) replica: i32,
}

// What became of a partition that was asked, and what the reply takes of it: no records of one that the log refused.
fn note_fetched(alloc: Global, fetched: Fetched, came: &mut Came) -> Result<(), NoMemory>
    requires bounded { fetched.numbers.high ≤ MOST_LOG_BYTES }
    requires carriable { IsCarriable fetched.entered.became }
    ensures noted { OnOk result ((read : Items ℕ) × (fetched.records ≡ Ok read) × (came.new ≡ record {
      accepted = came.old.accepted ++ fetched.entered.became ∷ [];
      numbers = came.old.numbers ++ fetched.numbers ∷ [];
      readings = came.old.readings ++ record { numbers = fetched.numbers; records = records_as fetched.entered.became read } ∷ [];
    })) }
{
    let Fetched {
        entered,
        numbers,
        records,
    } = fetched;
    let read = records?;
    let records = match entered.became {
        Accepted::Seen { .. } => read,
        Accepted::Refused { .. } | Accepted::Appended { .. } => Bytes::new(alloc),
    };
    let reading = Reading { numbers, records };
    came.note(entered.became, reading)
}

// One partition of a fetch.
fn fetch_one(
    call: &Fetching<'_, '_, '_, impl Wait>,
    pass: &mut LogPass,
    points: &mut List<Point>,
    named: &Named<'_, FetchPart>,
    budget: &mut Budget,
    came: &mut Came,
) -> Result<(), NoMemory>
    requires made { pass.old.made ≡ call.now.by.now.logs.now }
    requires followers { followers_in call.now.by.now.logs.now ≡ followers_of call.now.config.now.topics }
    ensures made { pass.new.made ≡ call.now.by.now.logs.now }
    ensures come { OnOk result (HasFetched call.now.config.now call.now.by.now.seq (fetch_decisions call.now.config.now call.now.replica ((named.now.topic.now, named.now.part.now) ∷ []))
        call.now.replica (named.now.part.now ∷ []) (stand pass.old points.old came.old) budget.old (stand pass.new points.new came.new) budget.new) }
    ensures even { OnOk result (IsEven came.old → IsEven came.new) }
    ensures room { OnOk result (bytes_read came.new.readings + most_left budget.new ≤ bytes_read came.old.readings + most_left budget.old) }
    ensures stopped { OnErr result (IsStopped call.now.config.now call.now.by.now.seq (fetch_decisions call.now.config.now call.now.replica ((named.now.topic.now, named.now.part.now) ∷ []))
        (stand pass.old points.old came.old) pass.new points.new) }
{
    let alloc = call.by.logs.alloc();
    let asked = named.part;
    let Some(part) = call.config.part_of(named.topic, asked.index) else {
        return came.note(
            Accepted::Refused {
                code: codes::UNKNOWN_TOPIC_OR_PARTITION,
            },
            read_nothing(alloc),
        );
    };
    let wanted = Wanted {
        replica: call.replica,
        part,
        asked,
    };
    let fetched = fetch(call.by, pass, points, &wanted, budget)?;
    note_fetched(alloc, fetched, came)
}

fn fetch_topic(
    call: &Fetching<'_, '_, '_, impl Wait>,
    pass: &mut LogPass,
    points: &mut List<Point>,
    topic: &FetchTopicView<'_>,
    budget: &mut Budget,
    came: &mut Came,
) -> Result<(), NoMemory>
    requires made { pass.old.made ≡ call.now.by.now.logs.now }
    requires followers { followers_in call.now.by.now.logs.now ≡ followers_of call.now.config.now.topics }
    ensures made { pass.new.made ≡ call.now.by.now.logs.now }
    ensures come { OnOk result (HasFetched call.now.config.now call.now.by.now.seq (fetch_decisions call.now.config.now call.now.replica (fetch_named topic.now))
        call.now.replica (topic.now.parts) (stand pass.old points.old came.old) budget.old (stand pass.new points.new came.new) budget.new) }
    ensures even { OnOk result (IsEven came.old → IsEven came.new) }
    ensures room { OnOk result (bytes_read came.new.readings + most_left budget.new ≤ bytes_read came.old.readings + most_left budget.old) }
    ensures stopped { OnErr result (IsStopped call.now.config.now call.now.by.now.seq (fetch_decisions call.now.config.now call.now.replica (fetch_named topic.now))
        (stand pass.old points.old came.old) pass.new points.new) }
{
    for part in topic.parts.as_slice() {
        let named = Named {
            topic: topic.name,
            part,
        };
        fetch_one(call, pass, points, &named, budget, came)?;
    }
    Ok(())
}

/// Each partition that these topics name, in the order of the request. It isn't put into its caller, which accepts produces too.
#[inline(never)]
pub(crate) fn fetch_topics(
    call: &Fetching<'_, '_, '_, impl Wait>,
    pass: &mut LogPass,
    points: &mut List<Point>,
    topics: &[FetchTopicView<'_>],
    budget: &mut Budget,
    came: &mut Came,
) -> Result<(), NoMemory>
    requires made { pass.old.made ≡ call.now.by.now.logs.now }
    requires followers { followers_in call.now.by.now.logs.now ≡ followers_of call.now.config.now.topics }
    ensures made { pass.new.made ≡ call.now.by.now.logs.now }
    ensures come { OnOk result (HasFetched call.now.config.now call.now.by.now.seq (fetch_decisions call.now.config.now call.now.replica (fetch_parts topics.now))
        call.now.replica (asked_parts topics.now) (stand pass.old points.old came.old) budget.old (stand pass.new points.new came.new) budget.new) }
    ensures even { OnOk result (IsEven came.old → IsEven came.new) }
    ensures room { OnOk result (bytes_read came.new.readings + most_left budget.new ≤ bytes_read came.old.readings + most_left budget.old) }
    ensures stopped { OnErr result (IsStopped call.now.config.now call.now.by.now.seq (fetch_decisions call.now.config.now call.now.replica (fetch_parts topics.now))
        (stand pass.old points.old came.old) pass.new points.new) }
{
    for topic in topics {
        fetch_topic(call, pass, points, topic, budget, came)?;
    }
    Ok(())
}
