//! Threads that serve the connections of one port, and the account of all that they did.
//!
//! `serve_links` opens a port and runs lanes, each in a thread of its own. A lane takes the next link from a queue, or where that is empty from
//! the port, which it then puts into the queue; it serves the link as one session of a broker that all lanes share, and hands it back to the
//! port. The run ends when no more links come, and every one that came was served once: its account is lawful, and has one transcript of
//! each link, which fits what the link's peer sent and was sent.
//!
//! What the lanes share of the world stands in `outside`: the port that reports what happened at it, and the queue through which links pass.
//! The laws of the books that lanes keep have a module of their own.
#![tactic(auto)]

mod books;
mod closing;
mod crossing;
mod gathering;
mod hall;
mod lane;
mod making;
mod new_link;
mod runs;
mod server;
mod server_parts;
mod sharing;

pub use books::{books_are_served, served_accounts_are_printable, served_links_are_booked};
pub use runs::{LaneRun, MOST_LANES, Serving, serve_links};
