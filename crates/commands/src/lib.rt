//! The commands of a Kafka broker's request purgatory: a trace is replayed, on one thread or on workers, a load is generated and played, or
//! connections are served.
//!
//! The layer above calls `run` with the words of the command line, a source, a sink, a new port and a clock: those of the process, or in a test
//! some in memory. `run` does what the words say (`Command`), writes what comes of it to the sink, and answers how it ended (`Exit`): the exit
//! code, the first bad line, the account of the run, and the port and the clock. `exit_text` says what a code means.
#![tactic(auto)]

mod command;
mod exit;
mod on_workers;
mod printing;
mod replay;
mod runs;
mod serving;
mod storming;
mod streams;
mod trace;

pub use command::{Command, Load, MOST_CONNECTIONS, MOST_PORT, MOST_WORKERS, Service};
pub use exit::{Exit, Stop, exit_text};
pub use link_lanes::MOST_LANES;
pub use runs::run;
pub use storm::MOST_REQUESTS;
