//! A full partition, another that takes its batch, and the reply to a produce to both.
ghost use Rattle.std.specs.Prelude.{◌≡◌, IfOk};
ghost use Rattle.kanswer.specs.LogReadings.{named_count};

use crate::samples::{LONG_FRONT, ONE};
use kanswer::{
    Accepted, Budget, Terms, Visitor, answer, decide_put, enter_batch, read_nothing, read_part,
};
use kbatch::{BatchView, view_batch};
use kbytes::{List, NoMemory};
use kwire::{AskView, Config, ProducePartView, ProduceTopicView, Reply, RequestView, Told};
use partlog::{PartLog, Who};
use std::alloc::{AllocError, Global};
use std::test::*;

const WHO: Who = Who { by: 3, seq: 7 };

const VISITOR: Visitor = Visitor {
    who: WHO,
    moment: 500,
};

// The topic `t` with two partitions and one follower.
fn config(alloc: Global) -> Option<Config> {
    let mut config = Config::new(alloc, 9092);
    config.add(b"t", 2, 1, 1).ok()?;
    Some(config)
}

// A batch of 1,048,576 bytes.
fn long_batch(alloc: Global) -> Result<Vec<u8>, AllocError> {
    let mut bytes = LONG_FRONT.to_vec(alloc)?;
    bytes.resize(1_048_575, b'a')?;
    bytes.push(0)?;
    Ok(bytes)
}

// Whether there is room for 64 such batches.
fn is_filled(log: &mut PartLog, batch: &BatchView<'_>) -> bool {
    for _ in 0..64 {
        if log.append_view(WHO, batch).is_err() {
            return false;
        }
    }
    true
}

// A log without room for another batch.
fn full_log(alloc: Global) -> Option<PartLog> {
    let bytes = long_batch(alloc).ok()?;
    let batch = view_batch(bytes.as_slice()).ok()?;
    let mut log = PartLog::new(alloc, 1).ok()?;
    is_filled(&mut log, &batch).then_some(log)
}

// What becomes of a partition of `t` in a produce of this version with acks 1.
fn put_one(config: &Config, version: i16, index: i32, log: &mut PartLog) -> Option<Accepted> {
    let terms = Terms {
        version,
        is_transactional: false,
        acks: 1,
    };
    let part = ProducePartView {
        index,
        records: Some(&ONE),
    };
    let (number, sent) = decide_put(config, terms, b"t", &part).ok()?;
    let entered = enter_batch(log, VISITOR, number, &sent).ok()?;
    Some(entered.became)
}

fn is_put(became: Option<Accepted>) -> bool {
    match became {
        Some(Accepted::Appended { part, base, count }) => (part, base, count) == (1, 0, 1),
        _ => false,
    }
}

fn is_refused(became: Option<Accepted>, asked: i16) -> bool {
    match became {
        Some(Accepted::Refused { code }) => code == asked,
        _ => false,
    }
}

// Both partitions of `t`, with acks 1.
fn a_produce<'a>(alloc: Global, version: i16) -> Result<RequestView<'a>, NoMemory>
    ensures { IfOk result (λ request. named_count request.ask ≡ 2) }
{
    let mut parts = List::new(alloc);
    parts.push(ProducePartView {
        index: 0,
        records: Some(&ONE),
    })?;
    parts.push(ProducePartView {
        index: 1,
        records: Some(&ONE),
    })?;
    let mut topics = List::new(alloc);
    topics.push(ProduceTopicView { name: b"t", parts })?;
    Ok(RequestView {
        correlation: 9,
        client: None,
        ask: AskView::Produce {
            version,
            transactional: None,
            acks: 1,
            timeout: 1000,
            topics,
        },
    })
}

const APPENDED: Accepted = Accepted::Appended {
    part: 1,
    base: 0,
    count: 1,
};

// The reply where the first is refused with this code, and the second takes its batch.
fn reply(
    alloc: Global,
    config: &Config,
    request: &RequestView<'_>,
    log: &PartLog,
    code: i16,
) -> Result<Reply, NoMemory>
    requires { named_count request.now.ask ≡ 2 }
{
    let mut budget = Budget::of(request);
    let second = read_part(alloc, request, 1, 0, log, &mut budget)?;
    let became = [Accepted::Refused { code }, APPENDED];
    let readings = [read_nothing(alloc), second];
    answer(alloc, config, request, &became, &readings)
}

fn is_refused_and_put(told: &Told, asked: i16, code: i16) -> bool {
    let Told::Produced { version, topics } = told else {
        return false;
    };
    let [topic] = topics.as_slice() else {
        return false;
    };
    let [full, empty] = topic.parts.as_slice() else {
        return false;
    };
    let is_refused = (full.code, full.base, full.start) == (code, -1, -1);
    let is_put = (empty.code, empty.base, empty.start) == (0, 0, 0);
    *version == asked && is_refused && is_put
}

// Whether such a produce is told so.
fn is_told(alloc: Global, config: &Config, log: &PartLog, version: i16, code: i16) -> bool {
    let Ok(request) = a_produce(alloc, version) else {
        return false;
    };
    match reply(alloc, config, &request, log, code) {
        Ok(reply) => reply.correlation == 9 && is_refused_and_put(&reply.told, version, code),
        Err(_) => false,
    }
}

// What a produce before version 4 is told of a full log, and one from then on.
const REFUSED: &[(i16, i16)] = &[(3, 6), (4, 56), (5, 56)];

#[test]
fn a_full_partition_is_refused_beside_another(rt: HostRuntime) {
    let config = config(rt.alloc()).expect(&rt, "a topic");
    let mut full = full_log(rt.alloc()).expect(&rt, "64 batches");
    let mut empty = PartLog::new(rt.alloc(), 1).expect(&rt, "memory");
    assert!(rt; is_put(put_one(&config, 3, 1, &mut empty)));
    for (version, code) in REFUSED {
        let (version, code) = (*version, *code);
        assert!(rt; is_refused(put_one(&config, version, 0, &mut full), code));
        assert!(rt; is_told(rt.alloc(), &config, &empty, version, code));
    }
    let numbers = full.numbers();
    assert!(rt; (numbers.end, numbers.bytes, empty.log()) == (64, 67_108_864, ONE.as_slice()));
}
