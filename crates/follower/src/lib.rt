//! A follower: it copies the log of a partition from its leader.
#![tactic(auto)]

mod batches;
mod course;
mod dial;
mod fault;
mod intake;
mod mem_dial;
mod promises;
mod replica;
mod run;
mod tcp_dial;
mod told;
mod words;

pub use course::follow;
pub use dial::Dial;
pub use fault::{FollowEnd, TakeFault};
pub use mem_dial::MemDial;
pub use promises::{
    copies_stay_prefixes, lawful_leaders_are_followed, lawful_logs_are_copied, rounds_are_one,
    verdicts_are_one, worked_session,
};
pub use replica::{LONGEST_WAIT, MOST_ASKED, Replica};
pub use run::run_follower;
pub use tcp_dial::TcpDial;
pub use words::{MOST_NUMBER, MOST_PORT, number_in};
