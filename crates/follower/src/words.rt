//! The words of the command line with which a follower is started.

ghost use Rattle.std.specs.Prelude.{◌≡◌, ◌≢◌, ◌≤◌, ◌<◌, ◌^◌, [], ◌∷◌, ℕ, IfNone, IfSome};
ghost use Rattle.std.specs.Fmt.{decimal};
ghost use Rattle.follower.specs.Commands.{IsOrdered, Order as TheOrder, said};

use itoa::Buffer;
use kwire::MOST_NAME_BYTES;
use std::marker::Model;

/// The greatest number of a port.
pub const MOST_PORT: u32 = 65_535;

/// The greatest index of a partition, number of a follower, and number of rounds.
pub const MOST_NUMBER: u32 = 2_147_483_647;

/// What a follower is to do. A contract sees it as an `Order`.
#[derive(Drop)]
pub(crate) struct Orders<'a> {
    pub(crate) port: u16,
    pub(crate) topic: &'a [u8],
    pub(crate) index: u32,
    pub(crate) replica: u32,
    pub(crate) rounds: u32,
}

impl<'a> Model for Orders<'a> {
    ghost use Rattle.follower.specs.Commands.{Order};

    ghost Value = { Order };

    ghost view = { λ o. record { port = o.port; topic = o.topic.now; index = o.index; replica = o.replica; rounds = o.rounds } };
}

// The number that the word says. A number has one spelling, without sign or leading zeros.
fn number(word: &str) -> Option<u64>
    ensures some { IfSome result (λ number. word.now ≡ decimal number) }
    ensures none { IfNone result ((number : ℕ) → number < 2 ^ 64 → word.now ≢ decimal number) }
{
    let Ok(number) = word.parse::<u64>() else {
        return None;
    };
    if Buffer::new().format(number) == word {
        Some(number)
    } else {
        None
    }
}

/// The number from `least` to `most` that the word says, in decimal digits without sign or leading zeros.
pub fn number_in(word: &str, least: u32, most: u32) -> Option<u32>
    ensures some { IfSome result (λ number. word.now ≡ decimal number) }
    ensures in_range { IfSome result (λ number. (least ≤ number) × (number ≤ most)) }
    ensures none { IfNone result ((number : ℕ) → least ≤ number → number ≤ most → word.now ≢ decimal number) }
{
    let Some(number) = number(word) else {
        return None;
    };
    if number < u64::from(least) {
        return None;
    }
    if u64::from(most) < number {
        return None;
    }
    Some(number as u32)
}

impl<'a> Orders<'a> {
    /// What these words order, and `None` exactly where they order nothing.
    pub(crate) fn of(words: &'a [String]) -> Option<Orders<'a>>
        ensures some { IfSome result (IsOrdered (said words.now)) }
        ensures none { IfNone result ((order : TheOrder) → IsOrdered (said words.now) order → ⊥) }
    {
        match words {
            [port, topic, index, replica, rounds] => Orders::with(
                port.as_str(),
                topic.as_str(),
                index.as_str(),
                replica.as_str(),
                rounds.as_str(),
            ),
            _ => None,
        }
    }

    // The same of five words.
    fn with(
        port: &str,
        topic: &'a str,
        index: &str,
        replica: &str,
        rounds: &str,
    ) -> Option<Orders<'a>>
        ensures some { IfSome result (IsOrdered (port.now ∷ topic.now ∷ index.now ∷ replica.now ∷ rounds.now ∷ [])) }
        ensures none { IfNone result ((order : TheOrder) → IsOrdered (port.now ∷ topic.now ∷ index.now ∷ replica.now ∷ rounds.now ∷ []) order → ⊥) }
    {
        if topic.len() > MOST_NAME_BYTES {
            return None;
        }
        let Some(port) = number_in(port, 1, MOST_PORT) else {
            return None;
        };
        let Some(index) = number_in(index, 0, MOST_NUMBER) else {
            return None;
        };
        let Some(replica) = number_in(replica, 1, MOST_NUMBER) else {
            return None;
        };
        let Some(rounds) = number_in(rounds, 0, MOST_NUMBER) else {
            return None;
        };
        Some(Orders {
            port: port as u16,
            topic: topic.as_bytes(),
            index,
            replica,
            rounds,
        })
    }
}
