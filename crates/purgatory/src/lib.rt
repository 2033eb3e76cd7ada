//! The room: a request purgatory that any number of threads may use.
//!
//! A *purgatory* keeps delayed operations until they can be answered. An operation waits for numbers that only rise, its gauges, such as
//! the high watermark of a partition or all the goods ever delivered to a warehouse; and for a moment of the clock, its deadline. It is
//! *satisfied* once what its needs count of the gauges reaches its least tally, and *overdue* once the clock has reached its deadline.
//! Then its own pass or a scanner wins it, once, and the pass takes that end.
//!
//! # The calls
//!
//! ```text
//! let RoomParts { room, sources, passes } = Room::make(alloc, gauges, passes)?;
//!
//! room.raise(rt, source, pass, value);     // the gauge is now at this value; the pass owes a scan of it
//! room.settle(rt, pass);                   // pays: every operation that the value satisfies is won
//!
//! match room.register(rt, pass, op) {
//!     Registered::Won(done) => ..          // it could be answered at once
//!     Registered::Parked => ..             // it waits
//! }
//! room.wait(rt, pass, most);               // sleeps while it waits
//! room.poll(pass)                          // None while it waits, and then how it ended
//! ```
//!
//! Each thread has a pass of its own, with at most one operation; the thread that has a gauge's source raises it. The room itself is
//! shared.
//!
//! # How nobody is forgotten
//!
//! Two things may happen at once: a gauge rises, and an operation that it would satisfy is registered. At least one of the two threads
//! has to see what the other did. So both write before they read.
//!
//! - The thread that registers an operation lists it under every gauge and under the clock, sees the listing made (its marks), and only
//!   then reads every gauge and the clock. If these last readings satisfy the operation, its pass wins it itself.
//! - The thread that raises a gauge stores the value, asks that the gauge be scanned up to it, and scans: each operation that is listed
//!   under the gauge is checked against all its gauges, and won if it is satisfied.
//!
//! A scan that began after the value was stored sees every operation that was listed before; an operation that was listed later reads the
//! value itself. From the value to the scan there is at every moment a party with the duty: the source until it sees that the scan was
//! asked for, then the pass that asked, until it sees that a scan was begun up to the value, by whichever thread. A gauge is scanned under
//! the lock of its scanner: there are sixteen scanners for the gauges (`gauge mod 16`), and one for the clock.
//!
//! # How the proof goes
//!
//! The table's rule (`room_table`) holds whatever threads do. Here each call is described by the steps that the pass's own seat made, and
//! what follows from them: `Owner` is the seat with what the pass keeps beside it, `Keys` are its passes of the locks. What a desk keeps
//! behind its lock is known again at each turn, by the lock's name (`proofs/Doors.antt`). A call's clause is composed from those of its
//! parts by `Keeps`, `GoesListing`, `HasReadAll` and the like (`specs/Listed.antt`), each of which says which steps the seat made.
#![tactic(auto)]

mod closing;
mod crossing;
mod debts;
mod holding;
mod locks;
mod making;
mod outcome;
mod owner;
mod pass;
mod polling;
mod raising;
mod registering;
mod room;
pub mod scans;
mod settling;
mod source;
mod still;

pub use closing::{ClosedRoom, StillRoom};
pub use kbytes::{List, NoMemory};
pub use opcond::{Need, Op};
pub use outcome::{Done, Registered};
pub use pass::RoomPass;
pub use room::{Room, RoomParts};
pub use room_core::{CLOCK_SCANNER, How, MOST_GAUGES, MOST_NEEDS, MOST_PASSES, SCANNER_NUMBERS};
pub use room_table::TableWords;
pub use source::Source;
pub use still::RoomEnd;
