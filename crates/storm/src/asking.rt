//! What a request of the load asks. `produce_form` and `fetch_form` write it over what another asked.

ghost use Rattle.std.specs.Prelude.{◌≡◌, ◌<◌, ◌≤◌, ◌^◌, ◌+◌, pos};
ghost use Rattle.storm.specs.Generator.{state_after};
ghost use Rattle.storm.specs.Places.{partition_of, batches_before};
ghost use Rattle.storm.specs.Requests.{follower_wish, consumer_wish};

use crate::draws::Draws;
use crate::kind::BLOCK;
use crate::load::MOST_REQUESTS;

/// The number of partitions of the load's one topic.
pub const PARTITIONS: u32 = 8;

/// The number of digits of a record's value.
pub const DIGITS: usize = 16;

/// The version of each produce.
pub const PRODUCE_VERSION: i16 = 3;

/// The version of each fetch.
pub const FETCH_VERSION: i16 = 4;

/// The timeout of a produce that is answered at once, in milliseconds.
pub const PROMPT_TIMEOUT: u32 = 1_000;

/// The most milliseconds that other requests wait.
pub const LONGEST_WAIT: u32 = 200;

/// The most bytes that a consumer waits for.
pub const MOST_AWAITED: u32 = 2_000;

/// The most bytes of a fetch's reply.
pub const MOST_FETCHED: i32 = 65_536;

/// The most bytes of a partition in a fetch's reply.
pub const MOST_OF_PARTITION: i32 = 4_096;

/// What a fetch asks, and by whom: the longest wait in milliseconds, the least bytes, and the offset.
#[derive(Clone, Copy)]
pub struct Wish {
    pub replica: i32,
    pub wait: u32,
    pub least: u32,
    pub offset: u32,
}

/// The topic of the load.
pub(crate) const TOPIC: &[u8] = b"storm";

/// The partition to which the request with this number goes.
pub(crate) fn partition_of(i: u32) -> i32
    requires { i < MOST_REQUESTS }
    ensures { result ≡ pos (partition_of i) }
{
    ((i + i / BLOCK) % PARTITIONS) as i32
}

// The offset after all batches that the blocks before this one append to a partition.
fn batches_before(block: u32) -> u32
    requires { block < MOST_REQUESTS }
    ensures is { result ≡ batches_before block }
    ensures most { result ≤ block + 1 }
{
    2 * ((block + 1) / 2)
}

/// What the follower's fetch with a block's number asks.
pub(crate) fn follower_wish(draws: &mut Draws, block: u32) -> Wish
    requires { block < MOST_REQUESTS }
    ensures is { result ≡ follower_wish draws.old.state block }
    ensures drawn { draws.new.state ≡ state_after draws.old.state 1 }
    ensures wait { result.wait < 2 ^ 31 }
    ensures least { result.least < 2 ^ 31 }
{
    Wish {
        replica: 1,
        wait: 1 + draws.draw(LONGEST_WAIT),
        least: 1,
        offset: batches_before(block),
    }
}

/// The same of a consumer's fetch.
#[tactic(auto, unfolding(crate::specs::Generator::state_after))]
pub(crate) fn consumer_wish(draws: &mut Draws, block: u32) -> Wish
    requires { block < MOST_REQUESTS }
    ensures is { result ≡ consumer_wish draws.old.state block }
    ensures drawn { draws.new.state ≡ state_after draws.old.state 3 }
    ensures wait { result.wait < 2 ^ 31 }
    ensures least { result.least < 2 ^ 31 }
{
    let wait = 1 + draws.draw(LONGEST_WAIT);
    let least = 1 + draws.draw(MOST_AWAITED);
    Wish {
        replica: -1,
        wait,
        least,
        offset: draws.draw(batches_before(block) + 1),
    }
}
