//! The room as words that threads share: each call of `RoomTable` is one atomic step on one word, and one event of the room's
//! machine, or, as a pass reads its own description back, none.
//!
//! The layer above may use the table, its seats and their calls, and cite what a seat knows by its steps (`specs/Seats.antt`).
//! This is how a gauge is raised and scanned, with the seats of its source, of a pass and of its scanner:
//!
//! ```text
//! table.store(&mut source, value);
//! let read = table.read(&mut caller, gauge);
//! table.ask(&mut caller, gauge, read);
//! table.hush(&mut source);                  // if this finds less than `value` asked for, read and ask again
//! table.hear(&mut scan, gauge);
//! table.begin(&mut scan, gauge);            // now every watcher of the gauge is a duty of the scanner
//! table.relieve(&mut caller, gauge);
//! ```
//!
//! # How the proof goes
//!
//! The table is an `atomic_table` without slots. A seat's view is a list of parts, each with the steps that it made; the rule
//! (`specs/Shown.antt`) says that the words and the parts of all views show one state that the machine carries. Each kind of step
//! has a lemma (`proofs/Sources.antt`, `Callers`, `Scanners`): which word and which part the event changes, and that the rest is as
//! it was. One lemma for all kinds (`proofs/Stepping.antt`) derives from it that the rule is kept: the machine's events keep what
//! is carried, no two words share a place, and no two seats share a part.
#![tactic(auto)]

mod checker;
mod checks;
mod closing;
mod hand;
mod layout;
mod meetings;
mod part;
mod passes;
mod plays;
mod rule;
mod scans;
mod seats;
mod sleep;
mod sleepers;
mod table;

pub use checker::Checker;
pub use closing::Closing;
pub use part::{CallerStep, Part, ScannerStep, SourceStep};
pub use seats::{CallerSeat, ScanSeat, SourceSeat};
pub use table::{RoomTable, TableParts, TableWords};
