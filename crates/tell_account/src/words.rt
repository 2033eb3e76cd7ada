//! How single facts of an account are spelled in a line of the output.

use audit::{CallHow, Point, SessionEnd};
use kwire::WireFault;
use partlog::{ClockEvent, PartEvent};
use std::fmt;

/// Bytes as pairs of hex digits, or `-` if there are none.
#[derive(Clone, Copy)]
pub struct Hex<'a>(pub &'a [u8]);

impl fmt::Display for Hex<'_> {
    fn fmt<W: fmt::Write>(&self, f: &mut fmt::Formatter<W>) -> fmt::Result {
        if self.0.is_empty() {
            return write!(f, "-");
        }
        for byte in self.0 {
            write!(f, "{byte:02x}")?;
        }
        Ok(())
    }
}

/// The part and the place of a point.
#[derive(Clone, Copy)]
pub struct At(pub Point);

impl fmt::Display for At {
    fn fmt<W: fmt::Write>(&self, f: &mut fmt::Formatter<W>) -> fmt::Result {
        let Point { part, place } = self.0;
        write!(f, "{part} {place}")
    }
}

/// How a call ended.
#[derive(Clone, Copy)]
pub struct How(pub CallHow);

impl fmt::Display for How {
    fn fmt<W: fmt::Write>(&self, f: &mut fmt::Formatter<W>) -> fmt::Result {
        match self.0 {
            CallHow::Quiet => write!(f, "quiet"),
            CallHow::AtOnce => write!(f, "at-once"),
            CallHow::Satisfied { by } => write!(f, "satisfied {by}"),
            CallHow::Expired { by } => write!(f, "expired {by}"),
            CallHow::Parked => write!(f, "parked"),
            CallHow::Cut { won: None } => write!(f, "cut"),
            CallHow::Cut { won: Some(by) } => write!(f, "cut {by}"),
        }
    }
}

/// Why a request was refused.
#[derive(Clone, Copy)]
struct Why(WireFault);

impl fmt::Display for Why {
    fn fmt<W: fmt::Write>(&self, f: &mut fmt::Formatter<W>) -> fmt::Result {
        match self.0 {
            WireFault::BadRequest { at } => write!(f, "bad-request {at}"),
            WireFault::UnknownApi { key } => write!(f, "unknown-api {key}"),
            WireFault::Unsupported { key, version } => write!(f, "unsupported {key} {version}"),
            WireFault::TooMany { count } => write!(f, "too-many {count}"),
            WireFault::Twice { topic, partition } => write!(f, "twice {topic} {partition}"),
            WireFault::NoMemory => write!(f, "no-memory"),
        }
    }
}

/// How a session ended.
#[derive(Clone, Copy)]
pub struct Cause(pub SessionEnd);

impl fmt::Display for Cause {
    fn fmt<W: fmt::Write>(&self, f: &mut fmt::Formatter<W>) -> fmt::Result {
        match self.0 {
            SessionEnd::Closed => write!(f, "closed"),
            SessionEnd::Truncated { got } => write!(f, "truncated {got}"),
            SessionEnd::FrameTooLong { size } => write!(f, "too-long {size}"),
            SessionEnd::Refused { why } => {
                let why = Why(why);
                write!(f, "refused {why}")
            }
            SessionEnd::CallsFull => write!(f, "calls-full"),
            SessionEnd::ReadFault => write!(f, "read-fault"),
            SessionEnd::WriteFault => write!(f, "write-fault"),
            SessionEnd::NoMemory => write!(f, "no-memory"),
        }
    }
}

/// An entry of a partition's history.
#[derive(Clone, Copy)]
pub struct Entry(pub PartEvent);

impl fmt::Display for Entry {
    fn fmt<W: fmt::Write>(&self, f: &mut fmt::Formatter<W>) -> fmt::Result {
        match self.0 {
            PartEvent::Append {
                by,
                seq,
                count,
                len,
            } => write!(f, "append {by} {seq} {count} {len}"),
            PartEvent::Follow {
                by,
                seq,
                replica,
                offset,
                t,
            } => write!(f, "follow {by} {seq} {replica} {offset} {t}"),
            PartEvent::Look { by, seq } => write!(f, "look {by} {seq}"),
            PartEvent::Shrink { by, replica, t } => write!(f, "shrink {by} {replica} {t}"),
        }
    }
}

/// An entry of the clock's history.
#[derive(Clone, Copy)]
pub struct ClockEntry(pub ClockEvent);

impl fmt::Display for ClockEntry {
    fn fmt<W: fmt::Write>(&self, f: &mut fmt::Formatter<W>) -> fmt::Result {
        match self.0 {
            ClockEvent::Tick { t } => write!(f, "tick {t}"),
            ClockEvent::Look { by, seq } => write!(f, "look {by} {seq}"),
        }
    }
}
