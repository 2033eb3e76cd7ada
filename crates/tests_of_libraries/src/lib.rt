//! Tests of the libraries by their public calls, from `kbytes` and `outside` to the room, and from Kafka's data to `follower`. Nothing here
//! is for other crates.
#![tactic(auto)]

#[cfg(test)]
mod accounts;
#[cfg(test)]
mod answers;
#[cfg(test)]
mod batches;
#[cfg(test)]
mod clocks;
#[cfg(test)]
mod fields;
#[cfg(test)]
mod followers;
#[cfg(test)]
mod frames;
#[cfg(test)]
mod links;
#[cfg(test)]
mod loads;
#[cfg(test)]
mod logs;
#[cfg(test)]
mod machine;
#[cfg(test)]
mod rooms;
#[cfg(test)]
mod samples;
#[cfg(test)]
mod shards;
#[cfg(test)]
mod streams;
#[cfg(test)]
mod table;
#[cfg(test)]
mod traces;
mod turn_examples;
#[cfg(test)]
mod turns;
#[cfg(test)]
mod wheels;
