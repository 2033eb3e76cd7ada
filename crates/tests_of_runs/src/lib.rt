//! Tests of whole runs, by public calls: of lines on workers (`trace_workers`), of lanes (`link_lanes`), and of `run` of `commands`. Nothing
//! here is for other crates.
#![tactic(auto)]

#[cfg(test)]
mod frames;
#[cfg(test)]
mod lanes;
#[cfg(test)]
mod on_workers;
#[cfg(test)]
mod pieces;
#[cfg(test)]
mod replays;
#[cfg(test)]
mod runs;
#[cfg(test)]
mod services;
#[cfg(test)]
mod slow_link;
#[cfg(test)]
mod slow_port;
#[cfg(test)]
mod standing_clock;
#[cfg(test)]
mod storms;
#[cfg(test)]
mod workers;
