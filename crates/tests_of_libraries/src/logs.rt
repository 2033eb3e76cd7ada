//! A batch that is put by its owner.

use crate::samples::ONE;
use kbatch::read_batch;
use partlog::{Numbers, PartEvent, PartLog, Placed, Who};
use std::test::*;

const WHO: Who = Who { by: 3, seq: 7 };

const ONE_ENTRY: PartEvent = PartEvent::Append {
    by: 3,
    seq: 7,
    count: 1,
    len: 69,
};

// Neither the base offset nor the leader epoch is covered by the crc.
#[test]
fn each_batch_is_stamped_where_it_is_put(rt: HostRuntime) {
    let mut stamped = ONE;
    stamped[7] = 9;
    stamped[15] = 5;
    let batch = read_batch(rt.alloc(), &stamped).expect(&rt, "a batch");
    let mut part = PartLog::new(rt.alloc(), 0).expect(&rt, "memory");
    for (base, place) in [(0, 0), (1, 1)] {
        assert!(rt; part.append(WHO, &batch) == Ok(Placed { base, place }));
    }
    stamped[7] = 1;
    stamped[15] = 0;
    assert!(rt; part.log().starts_with(&ONE) && part.log().ends_with(&stamped));
    let numbers = Numbers {
        end: 2,
        high: 2,
        visible: 138,
        bytes: 138,
        insync: 1,
    };
    assert!(rt; (part.numbers(), part.events()) == (numbers, [ONE_ENTRY; 2].as_slice()));
}
