//! The one-thread broker: sessions, partitions, the clock, requests that wait, and what a line of a trace brings.
//!
//! The layer above may make a `Lone`, hand it the lines, and close it for the account. Inside, the part `index` knows which sessions wait
//! for what, so that a line has those requests checked alone that may have become answerable.
#![tactic(auto)]

mod accept;
mod came;
mod closing;
mod completing;
mod desk;
mod engine;
mod handling;
mod index;
mod lone;
mod opening;
mod parked;
mod reply;
mod shrinking;
mod watched;

pub use lone::Lone;
