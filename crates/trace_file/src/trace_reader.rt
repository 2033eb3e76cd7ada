//! Reading a trace as its text comes in, part by part.

ghost use Rattle.std.specs.Prelude.{Bool, true, is_some, ◌≡◌, ◌<◌, ◌≤◌, ◌++◌, ◌+◌, ◌-◌, ◌^◌, ◌⊎◌, ℕ, [], List as Items, length, IfNone, IfOk, IfErr, IfSome, OnOk};
ghost use Rattle.trace_file.specs.FirstBad.{IsTraceRead, TellsFirstBad};
ghost use Rattle.trace_file.specs.TextRead.{EndsWithFeed, HasRead, HasTaken, IsCut, IsShort, feeds_in};
ghost use Rattle.trace_file.specs.Trace.{pieces_of};

use crate::line::{Line, LineFault, LineKind, MOST_TRACE_BYTES, TraceFault};
use crate::reading::{Reading, line_feeds};
use crate::shares::take_shares;
use kbytes::{Bytes, List, NoMemory};
use memchr::{memchr, memrchr};
use std::alloc::Global;
use std::thread::Threads;

/// Reads the text of a trace, or of a server's topics, in parts of any length. It keeps the lines, and of the text no more than the line that
/// has begun and isn't ended.
#[derive(Drop)]
pub struct TraceReader {
    reading: Reading,
    /// The line that has begun.
    begun: Bytes,
    /// How many bytes came, or one more than a trace may have.
    length: usize,
    /// How many line feeds came, once a line was bad or the text too long: of those bytes that a trace may have.
    feeds: usize,
}

// A part cut after its first line feed and after its last. `None` comes where it has none.
fn cut_lines(part: &[u8]) -> Option<(&[u8], &[u8], &[u8])>
    ensures whole { IfSome result (λ cut. part.now ≡ cut.0.now ++ (cut.1.now ++ cut.2.now)) }
    ensures first { IfSome result (λ cut. EndsWithFeed cut.0.now) }
    ensures lines { IfSome result (λ cut. (cut.1.now ≡ []) ⊎ EndsWithFeed cut.1.now) }
    ensures begun { IfSome result (λ cut. feeds_in cut.2.now ≡ 0) }
    ensures none { IfNone result (feeds_in part.now ≡ 0) }
{
    let first = memchr(b'\n', part)?;
    let last = memrchr(b'\n', part)?;
    Some((
        &part[..first + 1],
        &part[first + 1..last + 1],
        &part[last + 1..],
    ))
}

impl TraceReader {
    /// No bytes came. With `only_topics` the text is to be that of a server's topics, which has only lines `topic` and `end`.
    pub fn new(alloc: Global, only_topics: bool) -> TraceReader
        ensures { HasTaken only_topics [] result }
    {
        TraceReader {
            reading: Reading::new(alloc, only_topics),
            begun: Bytes::new(alloc),
            length: 0,
            feeds: 0,
        }
    }

    /// How many bytes more make the text longer than a trace may be: 0 where it is.
    pub fn room(&self) -> usize
        ensures { (only_topics : Bool) (text : Items ℕ) → HasTaken only_topics text self.now → result ≡ (MOST_TRACE_BYTES + 1) - length text }
    {
        (MOST_TRACE_BYTES + 1).saturating_sub(self.length)
    }

    // How many line feeds came.
    fn feeds(&self) -> usize
        ensures { (only_topics : Bool) (text : Items ℕ) → IsShort only_topics text self.now → result ≡ feeds_in text }
    {
        if self.reading.is_bad() {
            self.feeds
        } else {
            self.reading.len()
        }
    }

    // How many line feeds came, with a part before which there were so many, if a line is bad. Else the lines that were read tell it.
    fn feeds_after(&self, before: usize, part: &[u8]) -> usize
        requires { before + length part.now < 2 ^ 64 }
        ensures { is_some self.now.reading.fault ≡ true → result ≡ before + feeds_in part.now }
    {
        if self.reading.is_bad() {
            before + line_feeds(part)
        } else {
            0
        }
    }

    // Takes the lines that end in a part of a text that isn't too long, and keeps the one that has begun.
    fn read<R: Threads + Sync>(
        &mut self,
        rt: &R,
        alloc: Global,
        part: &[u8],
        threads: u32,
    ) -> Result<(), NoMemory>
        requires read { (only_topics : Bool) × (text : Items ℕ) × IsShort only_topics text self.old }
        requires threads { 1 ≤ threads }
        ensures same { (self.new.length ≡ self.old.length) × (self.new.feeds ≡ self.old.feeds) }
        ensures read { OnOk result ((only_topics : Bool) (text front : Items ℕ) → IsCut text front self.old.begun → HasRead only_topics (pieces_of front) self.old.reading
            → (front_now : Items ℕ) × IsCut (text ++ part.now) front_now self.new.begun × HasRead only_topics (pieces_of front_now) self.new.reading) }
    {
        let Some((first, lines, begun)) = cut_lines(part) else {
            return self.begun.extend(part);
        };
        self.begun.extend(first)?;
        self.reading.read(alloc, self.begun.as_slice())?;
        self.begun.truncate(0);
        take_shares(rt, alloc, &mut self.reading, lines, threads)?;
        self.begun.extend(begun)
    }

    /// Takes the next part of the text. Its lines are read by `threads` threads, the caller's among them.
    pub fn take<R: Threads + Sync>(
        self,
        rt: &R,
        alloc: Global,
        part: &[u8],
        threads: u32,
    ) -> Result<TraceReader, NoMemory>
        requires taken { (only_topics : Bool) × (text : Items ℕ) × HasTaken only_topics text self }
        requires threads { 1 ≤ threads }
        ensures { IfOk result (λ reader. (only_topics : Bool) (text : Items ℕ) → HasTaken only_topics text self → HasTaken only_topics (text ++ part.now) reader) }
    {
        let mut reader = self;
        if reader.length > MOST_TRACE_BYTES {
            return Ok(reader);
        }
        let before = reader.feeds();
        let left = MOST_TRACE_BYTES - reader.length;
        if part.len() > left {
            reader.feeds = before + line_feeds(&part[..left]);
            reader.length = MOST_TRACE_BYTES + 1;
            return Ok(reader);
        }
        reader.read(rt, alloc, part, threads)?;
        reader.feeds = reader.feeds_after(before, part);
        reader.length += part.len();
        Ok(reader)
    }

    /// The lines, if the parts make the text of a trace, or of topics, or else the first bad line.
    pub fn lines(self, alloc: Global) -> Result<List<Line>, TraceFault>
        requires { (only_topics : Bool) × (text : Items ℕ) × HasTaken only_topics text self }
        ensures trace { IfOk result (λ lines. (only_topics : Bool) (text : Items ℕ) → HasTaken only_topics text self → IsTraceRead text only_topics lines) }
        ensures bad { IfErr result (λ fault. (only_topics : Bool) (text : Items ℕ) → HasTaken only_topics text self → TellsFirstBad text only_topics fault) }
    {
        if self.length > MOST_TRACE_BYTES {
            return Err(TraceFault::Bad(LineFault {
                line: self.feeds as u32 + 1,
                kind: LineKind::TooLong,
            }));
        }
        let mut reading = self.reading;
        reading.read(alloc, self.begun.as_slice())?;
        reading.ended()
    }
}
