//! The account of a run: what each session did and what each partition has, when an account is lawful, and what is printed.
//!
//! The layer above makes an `Account`, proves that it is lawful, and prints its summary. The brokers are held to its part `broker`: what a
//! trace plays to on one thread, and the books that the passes of threads keep. Its part `retelling` prints what each session was sent in a
//! run with threads, computed again from the account.
#![tactic(auto)]

mod account;
pub mod broker;
mod ending;
mod input_end;
mod numbers;
mod parts;
mod promises;
pub mod retelling;
mod serve_print;
mod storm_print;
mod summary;
mod tally;
mod totals;

pub use account::{
    Account, CLOCK_PART, Call, CallHow, MOST_CALLS, PartAccount, Point, SessionEnd, Transcript,
};
pub use ending::put_end_line;
pub use input_end::end_of_input;
pub use parts::part_accounts;
pub use promises::{
    lawful_logs_are_bounded, looks_stand, one_print, one_reply, one_serve_print, results_stand,
    worked_account, worked_calls, worked_leaves, worked_prints, worked_replies, worked_requests,
    worked_run,
};
pub use serve_print::print_serve;
pub use storm_print::print_storm;
pub use summary::print_replay;
