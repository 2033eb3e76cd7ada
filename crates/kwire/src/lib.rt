//! Kafka's wire format: frames of a stream, requests, the topics that they name, and replies.
//!
//! The layer above declares topics in a `Config`, takes frames from an `Inbox`, reads the body of a frame as a `Request`
//! or learns its first fault from the left, and writes a `Reply` as the bytes of its frame.
#![tactic(auto)]

mod api;
mod body;
pub mod codes;
mod config;
mod frame;
mod framing;
mod head;
mod inbox;
mod owned;
mod promises;
mod put_fetched;
mod put_items;
mod put_metadata;
mod put_produced;
mod put_reply;
mod put_request;
mod read_fetch;
mod read_items;
mod read_metadata;
mod read_produce;
mod repeats;
mod reply;
mod request;
mod view;

pub use body::{read_request, view_request};
pub use config::{Config, ConfigFault, MOST_FOLLOWERS, MOST_NAME_BYTES, MOST_PARTITIONS, Topic};
pub use frame::{Frame, WireFault};
pub use framing::{MOST_FRAME_BYTES, next_frame};
pub use inbox::Inbox;
pub use promises::{frames_are_one, frames_in_pieces, layouts_are_one, requests_are_one};
pub use put_fetched::put_fetched_part;
pub use put_items::end_frame;
pub use put_produced::put_produced_part;
pub use put_reply::{
    FETCHED_PART_BYTES, PRODUCED_PART_BYTES, REPLY_HEAD_BYTES, TOLD_TOPIC_BYTES, begin_reply,
    reply_bytes,
};
pub use put_request::request_bytes;
pub use reply::{
    FetchedPart, FetchedPartView, FetchedTopic, ProducedPart, ProducedTopic, Reply, Told, TopicInfo,
};
pub use request::{Ask, FetchPart, FetchTopic, MOST_NAMED, ProducePart, ProduceTopic, Request};
pub use view::{AskView, FetchTopicView, ProducePartView, ProduceTopicView, RequestView};
