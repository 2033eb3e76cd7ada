//! The room as a pure machine: each event is one atomic step of one thread on one word.
//!
//! The layer above may use `CoreEvent` and the laws: whatever events come, no open operation is forgotten. `CoreState` is the
//! machine as code.
#![tactic(auto)]

mod answering;
mod caller_part;
mod caller_steps;
mod core_state;
mod description;
mod duties;
mod empty;
mod event;
mod gauges;
mod listing;
mod numbers;
mod operation;
mod parts;
mod pass_steps;
mod run;
mod scan_steps;
mod scanner_acts;
mod scanner_checks;
mod scanner_part;
mod scanner_wins;
mod session_word;
mod shape;
pub mod theorems;
mod word;

pub use core_state::CoreState;
pub use description::{
    CAP_WORD, DEADLINE_WORD, DESCRIPTION_WORDS, GAUGE_WORD, LEAST_WORD, NEED_WORDS, NEEDS_WORD,
    START_WORD,
};
pub use event::{CoreEvent, How, Party};
pub use numbers::{
    CLOCK_MARK, CLOCK_SCANNER, MARKS, MOST_GAUGES, MOST_NEEDS, MOST_PASSES, OPEN_PHASE, PHASES,
    SCANNER_NUMBERS, SHARD_GAUGES, SHARDS,
};
pub use parts::{Duty, Entry, Heard, Meeting, Phase, Prize, Session, Source, Stage, Taken};
pub use run::run_events;
pub use shape::Shape;
pub use word::Word;
