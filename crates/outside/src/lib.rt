//! What a program meets outside: sources and sinks of bytes, links to peers, a port that gives links, and a clock.
//!
//! Each counts its faults, and answers `Failed` only where that count rose. The layer above is generic over the traits:
//! a contract there names the bytes that an object tells, and hands a fault on only with its cause. Each trait has an object
//! in memory, for tests, which fails where it is asked to, and one over std, for the program, of a few lines each.
//!
//! `shared` is what several threads share of it: a port and a clock that report what they told to whom, and a queue of links.
#![tactic(auto)]

mod clock;
mod copy;
mod ends;
mod failed;
mod intake;
mod link;
mod mem_clock;
mod mem_link;
mod mem_port;
mod mem_sink;
mod mem_source;
mod outlet;
mod plan;
mod port;
pub mod shared;
mod shelf;
mod sink;
mod source;
mod std_sink;
mod std_source;
mod system_clock;
mod tcp_link;
mod tcp_port;
mod writing;

pub use clock::{Clock, MOST_MOMENT};
pub use failed::Failed;
pub use link::Link;
pub use mem_clock::MemClock;
pub use mem_link::MemLink;
pub use mem_port::MemPort;
pub use mem_sink::MemSink;
pub use mem_source::MemSource;
pub use port::Port;
pub use sink::Sink;
pub use source::Source;
pub use std_sink::StdSink;
pub use std_source::StdSource;
pub use system_clock::SystemClock;
pub use tcp_link::TcpLink;
pub use tcp_port::TcpPort;
pub use writing::write_whole;
