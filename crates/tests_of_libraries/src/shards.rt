//! `watch_lists`.
use std::test::*;
use watch_lists::{Shard, Watch};

const THIRD: Watch = Watch {
    key: 1,
    id: 3,
    generation: 2,
};

const SEVENTH: Watch = Watch {
    key: 1,
    id: 7,
    generation: 1,
};

#[test]
fn watchers_are_listed_replaced_dropped_and_purged(rt: HostRuntime) {
    let mut shard = Shard::new(rt.alloc(), 2, 10).expect(&rt, "memory");
    shard.list(1, 7, 1);
    shard.list(1, 3, 1);
    shard.list(1, 3, 2);
    shard.list(0, 3, 1);
    let row = [shard.each(1, 0), shard.each(1, 1), shard.each(1, 2)];
    assert!(rt; row == [Some(THIRD), Some(SEVENTH), None]);
    assert!(rt; (shard.watchers(0), shard.watchers(1)) == (1, 2));
    let dropped = (shard.drop_stale(1, 3, 1), shard.drop_stale(1, 3, 2));
    assert!(rt; dropped == (false, true));
    let mut live = [0; 10];
    live[7] = 1;
    assert!(rt; (shard.len(), shard.purge(&live)) == (2, 1));
    assert!(rt; (shard.each(1, 0), shard.each(0, 0)) == (Some(SEVENTH), None));
}
