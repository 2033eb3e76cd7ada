//! What is behind the locks of the room's shards and of its clock: each shard's scanner with the watchers of its gauges, and the
//! clock's scanner with the timers of its deadlines. The thread that has a turn of the lock lists operations here, and scans.
//!
//! The room uses `ShardDesk` and `ClockDesk`. It makes one for each scanner, puts it behind a turn lock, and with a turn
//! lists an operation that a pass has opened, or scans a gauge that was raised:
//!
//! ```text
//! desk.list(table, pass, generation, 0);     // under the gauge of the operation's first need
//! desk.scan(rt, table, gauge);               // every watcher of the gauge is checked
//!
//! clock.list(table, pass, generation);       // under the operation's deadline
//! clock.scan(rt, table);                     // every operation whose deadline has come is checked
//! ```
//!
//! # How a scan of a gauge goes
//!
//! The scanner hears up to which value the gauge is to be scanned, and begins. From then on each watcher of the gauge is a duty, which
//! the table's rule lets go only for a reason. So the desk goes through the watchers, the last one first. With each one it does this:
//!
//! ```text
//! meet    the pass's session word: if it isn't open at the watcher's generation, the watcher is stale and goes
//! learn   the description: the least tally, the deadline, the number of needs, and then each need's words
//! read    every need's gauge but the one that is scanned
//! leave   with a reading of that gauge: if the tally is below the least one, the duty is gone, and the watcher stays
//! win     else: one compare-and-exchange of the session word; the watcher goes, whether the exchange was made or not
//! ```
//!
//! The words that are learned may be a mixture of two operations, if the pass goes on meanwhile. If there are too many needs, or a
//! gauge that doesn't exist, the desk meets the pass again. Any other mixture does no harm: the exchange fails, since the word isn't
//! open at the generation any more. The sum of the caps in a mixture may be above 64 bits.
//!
//! # How a scan of the clock goes
//!
//! The scanner hears up to which moment, and begins. Now its duties are the operations whose deadline is past the moment of the last
//! scan, and not past this one. The wheels are turned to this moment, and hand out the passes whose timers have come:
//!
//! ```text
//! moment 900    pass 2 is listed with the deadline 1,200: a timer at 1,200
//!               pass 5 is listed with the deadline 3,000,000,000: a timer at 2,147,484,547, the farthest that it may be
//! moment 1,300  pass 2 comes out, a duty: it is met and learned as above, the clock is read, and it is won as expired
//! moment 2,147,484,600
//!               pass 5 comes out: its deadline is later, so it gets a timer again, now at 3,000,000,000
//! ```
//!
//! An operation whose deadline had come before it was listed has no timer and is no scan's duty: its own pass reads the clock after
//! the listing. A timer stays as the pass's next operation is listed in place of its entry, if it comes no later than that one's deadline: when
//! it comes out, the pass gets another. So the wheels are seldom touched when deadlines rise.
//!
//! # How the proof goes
//!
//! `Inspector` has the seat and what it keeps of its meeting: its words and values mirror what the seat's steps say. `ShardListing` has
//! the shard beside it, and each of its calls keeps both alike (`specs/scans/Shelf.antt`): what a meeting drops from the scanner's listing
//! is removed from the shard, and so is what was won; what is marked is listed. All watchers of a pass have one generation, which the
//! desk keeps by pass, so the stale ones are found without a search. During a scan the duties are on the watchers below a place, and a
//! check removes none below its own (`proofs/scans/Duties.antt`); at place 0 there is no duty left.
//!
//! `ClockListing` keeps each pass's entry as it is in the scanner's listing, beside the wheels. A pass is settled if no duty is on
//! it and its entry has its timer (`specs/scans/Coming.antt`). As a scan begins, all passes are settled but those whose timers came out
//! (`proofs/scans/Coming.antt`): a duty's deadline is past the last moment, so it had a timer, which comes no later than the deadline. A
//! check settles its pass and changes nothing of the others; after the last check all are settled again.

mod clock_desk;
mod clock_listing;
mod inspector;
mod kept;
mod numbers;
mod open_generation;
mod shard_desk;
mod shard_listing;
mod tally;
mod verdict;

pub use clock_desk::ClockDesk;
pub use shard_desk::ShardDesk;
