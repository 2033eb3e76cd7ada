//! Recorded traces: their lines, the texts that are traces, and the printed line of a reply.
//!
//! The layer above reads a text as the lines of a trace, or learns its first bad line; it makes the configuration of the
//! trace's topics, writes lines, and prints the frames that a session is sent.
#![tactic(auto)]

mod digit_values;
mod digits;
mod line;
mod line_text;
mod number;
mod order;
mod pieces;
mod promises;
mod read_line;
mod reading;
mod refusal;
mod reply_line;
mod shares;
mod trace_reader;
mod words;

pub use digits::Digits;
pub use line::{
    LAST_MOMENT, LAST_SESSION, Line, LineFault, LineKind, MOST_NUMBER, MOST_SESSIONS,
    MOST_TRACE_BYTES, REPLAY_PORT, TraceFault,
};
pub use line_text::put_line;
pub use promises::{no_bad_line, one_first_bad_line, read_back};
pub use reading::{config_of, read_trace};
pub use reply_line::put_reply_line;
pub use trace_reader::TraceReader;
