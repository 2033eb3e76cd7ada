//! A generated load: the lines of a trace that many sessions play, made of a seed and a number of requests.
//!
//! The layer above makes the frame of each request by [`RequestFrames`], and plays the lines as those of a trace that was read: they are lines of a
//! trace (`loads_are_traces`). [`storm`] gives all in a list.
#![tactic(auto)]

mod asking;
mod draws;
mod fetch_form;
mod frame;
mod kind;
mod load;
mod produce_form;
mod promises;
mod request_frames;
mod writing_over;

pub use asking::{LONGEST_WAIT, Wish};
pub use kind::{BLOCK, Kind};
pub use load::{
    Load, MOST_REQUESTS, MOST_STEP, clock_after, load_config, session_of, sessions_in, storm,
    topic_line,
};
pub use promises::{each_block_is_counted, loads_are_traces, loads_can_be_drained};
pub use request_frames::RequestFrames;
