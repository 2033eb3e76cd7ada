//! What the words of the command line ask for. `main` plays the trace by it.

ghost use Rattle.std.specs.Prelude.{◌≤◌, IfOk, IfSome};

use crate::fault::Fault;
use link_lanes::MOST_LANES;

/// How many workers play, and whether the run is drained.
#[derive(Clone, Copy)]
pub struct Order {
    pub workers: u32,
    pub drain: bool,
}

fn workers_of(word: &str) -> Result<u32, Fault>
    ensures { IfOk result (λ workers. (1 ≤ workers) × (workers ≤ 16)) }
{
    match word.parse::<u32>() {
        Ok(workers) if (1..=16).contains(&workers) => Ok(workers),
        _ => Err(Fault::Usage),
    }
}

/// The order that the words give: a number of workers, with or without `drain` after it.
pub fn order_of(words: &[String]) -> Result<Order, Fault>
    ensures { IfOk result (λ order. (1 ≤ order.workers) × (order.workers ≤ 16)) }
{
    match words {
        [number] => Ok(Order {
            workers: workers_of(number.as_str())?,
            drain: false,
        }),
        [number, word] if word.as_str() == "drain" => Ok(Order {
            workers: workers_of(number.as_str())?,
            drain: true,
        }),
        _ => Err(Fault::Usage),
    }
}

/// The number of lanes, if the words ask that lanes serve the lines.
pub fn lanes_of(words: &[String]) -> Option<u32>
    ensures { IfSome result (λ lanes. (1 ≤ lanes) × (lanes ≤ MOST_LANES)) }
{
    match words {
        [word, number] if word.as_str() == "lanes" => match number.as_str().parse::<u32>() {
            Ok(lanes) if (1..=MOST_LANES).contains(&lanes) => Some(lanes),
            _ => None,
        },
        _ => None,
    }
}
