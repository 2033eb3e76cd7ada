//! A load: its topic, one line for each request, the clock after each block, and the end.

ghost use Rattle.std.specs.Prelude.{◌≡◌, ◌<◌, ◌≤◌, ◌+◌, ◌*◌, ℕ, ◌++◌, IfOk, IfSome, OnOk};
ghost use Rattle.std.specs.Option.{option_to_list};
ghost use Rattle.storm.specs.Generator.{state_after};
ghost use Rattle.storm.specs.Lines.{topic_line, clock_lines, feed_line, lines_from, storm_lines};
ghost use Rattle.storm.specs.Places.{block_of, draws_of, session_of};
ghost use Rattle.trace_file.specs.Contents.{configuration_of, sessions_of};
ghost use Rattle.trace_file.specs.declared.line.Line.TheVariants.{Clock};

use crate::asking::{PARTITIONS, TOPIC};
use crate::kind::BLOCK;
use crate::request_frames::RequestFrames;
use kbytes::{List, NoMemory, copied};
use kwire::Config;
use std::alloc::Global;
use std::slice;
use trace_file::{Line, config_of};

/// A load, by its seed and the number of its requests.
#[derive(Clone, Copy)]
pub struct Load {
    pub seed: u64,
    pub requests: u32,
}

/// The most requests of a load.
pub const MOST_REQUESTS: u32 = 200_000;

/// The milliseconds that pass with each block.
pub const BLOCK_TIME: u64 = 10;

/// The most milliseconds by which the clock may go on at a time after the lines, until no request waits.
pub const MOST_STEP: u64 = 1_000;

/// The session that sends the request with this number.
pub fn session_of(i: u32) -> u32
    ensures { result ≡ session_of i }
{
    i % BLOCK
}

/// How many sessions a load of `n` requests has.
pub fn sessions_in(n: u32) -> u32
    ensures { (seed : ℕ) → result ≡ sessions_of (storm_lines seed n) }
{
    n.min(BLOCK)
}

/// The line that declares the topic of every load.
pub fn topic_line(alloc: Global) -> Result<Line, NoMemory>
    ensures { IfOk result (λ line. line ≡ topic_line) }
{
    Ok(Line::Topic {
        name: copied(alloc, TOPIC)?,
        partitions: PARTITIONS,
        followers: 1,
        min_insync: 1,
    })
}

/// The configuration that the lines of every load declare, with this port.
pub fn load_config(alloc: Global, port: u16) -> Result<Config, NoMemory>
    ensures { IfOk result (λ config. (seed n : ℕ) → config ≡ configuration_of port (storm_lines seed n)) }
{
    let topic = topic_line(alloc)?;
    config_of(alloc, slice::from_ref(&topic), port)
}

/// The line of the clock after the request with this number, if it is the last of its block or of all `n`.
pub fn clock_after(i: u32, n: u32) -> Option<Line>
    requires { i < n }
    ensures is { option_to_list result ≡ clock_lines n i }
    ensures moment { IfSome result (λ line. line ≡ Clock (BLOCK_TIME * (block_of i + 1))) }
{
    if i % BLOCK != BLOCK - 1 && i != n - 1 {
        return None;
    }
    let block = u64::from(i / BLOCK);
    Some(Line::Clock {
        t: BLOCK_TIME * (block + 1),
    })
}

// Adds that line.
fn put_clock(lines: &mut List<Line>, i: u32, n: u32) -> Result<(), NoMemory>
    requires { i < n }
    ensures { OnOk result (lines.new ≡ lines.old ++ clock_lines n i) }
{
    if let Some(clock) = clock_after(i, n) {
        lines.push(clock)?;
    }
    Ok(())
}

// The line of the request with this number, which a session sends as a whole frame.
#[tactic(auto, unfolding(crate::specs::Lines::feed_line))]
fn feed_line(alloc: Global, frames: &mut RequestFrames, i: u32) -> Result<Line, NoMemory>
    requires { i < MOST_REQUESTS }
    ensures is { IfOk result (λ line. line ≡ feed_line frames.old.state i) }
    ensures drawn { OnOk result (frames.new.state ≡ state_after frames.old.state (draws_of i)) }
{
    frames.make(i);
    Ok(Line::Feed {
        session: session_of(i),
        bytes: copied(alloc, frames.frame())?,
    })
}

// Puts the lines of all requests of a load of n.
fn put_requests(alloc: Global, lines: &mut List<Line>, seed: u64, n: u32) -> Result<(), NoMemory>
    requires { n ≤ MOST_REQUESTS }
    ensures { OnOk result (lines.new ≡ lines.old ++ lines_from seed n 0 n) }
{
    let mut frames = RequestFrames::new(alloc, seed)?;
    for i in 0..n {
        lines.push(feed_line(alloc, &mut frames, i)?)?;
        put_clock(lines, i, n)?;
    }
    Ok(())
}

/// The lines of a load of `n` requests: one topic with eight partitions and a follower, the requests of sixteen sessions
/// in turn, in blocks of one request a session, the clock after each block, and the end. Blocks produce and fetch by
/// turns; waits, least bytes and offsets are drawn from the seed.
pub fn storm(alloc: Global, seed: u64, n: u32) -> Result<List<Line>, NoMemory>
    requires some { 1 ≤ n }
    requires most { n ≤ MOST_REQUESTS }
    ensures { IfOk result (λ lines. lines ≡ storm_lines seed n) }
{
    let mut lines = List::new(alloc);
    lines.push(topic_line(alloc)?)?;
    put_requests(alloc, &mut lines, seed, n)?;
    lines.push(Line::End)?;
    Ok(lines)
}
