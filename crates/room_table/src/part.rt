//! What contracts know of a seat: the parts of the room that are its own, each with the steps that it made, the newest first,
//! and the words that they found. No value of these types exists at run time.
use room_core::{How, Session, Shape};
use std::collections::LinkedList;

/// A step of a gauge's source.
pub enum SourceStep {
    /// It stored a value.
    Stored { value: u64 },
    /// It found up to which value a scan is asked for.
    Hushed { asked: u64 },
}

/// A step of a pass, as the owner of its operation.
pub enum CallerStep {
    /// It asked for a scan up to a value.
    Asked { gauge: u32, value: u64 },
    /// It found up to which value a scan was begun.
    Relieved { gauge: u32, begun: u64 },
    /// It wrote a word of its description.
    Described { at: u32, word: u64 },
    /// It opened the operation that it had described.
    Opened,
    /// It found this mark.
    SawMark { at: u32, mark: u64 },
    /// It found the value of a gauge.
    Read { gauge: u32, value: u64 },
    /// It found the value of the last gauge that its check wanted.
    Left { gauge: u32, value: u64 },
    /// It tried to win, and found this session word.
    Won { how: How, found: Session },
    /// It found this session word.
    Peeked { found: Session },
    /// It took what had become of its operation.
    Idled,
}

/// A step of a scanner.
pub enum ScannerStep {
    /// It found up to which value a scan of its gauge is asked for.
    Heard { gauge: u32, asked: u64 },
    /// It began a scan, and found up to which value one had been begun.
    Began { gauge: u32, begun: u64 },
    /// It found the session word of a pass.
    Met { pass: u32, found: Session },
    /// It found a word of the description of the pass that it had met.
    Learned { at: u32, word: u64 },
    /// It listed the operation that it had met, and marked it as listed.
    Listed { pass: u32, at: u32 },
    /// It found the value of a gauge.
    Read { gauge: u32, value: u64 },
    /// It found the value of the last gauge that its check wanted.
    Left { pass: u32, gauge: u32, value: u64 },
    /// It tried to win, and found this session word.
    Won { pass: u32, how: How, found: Session },
}

/// A part of the room: a gauge's source, a pass as a caller, or a scanner. It knows the room's shape.
pub enum Part {
    Source {
        shape: Shape,
        gauge: u32,
        steps: LinkedList<SourceStep>,
    },
    Caller {
        shape: Shape,
        pass: u32,
        steps: LinkedList<CallerStep>,
    },
    Scanner {
        shape: Shape,
        scanner: u32,
        steps: LinkedList<ScannerStep>,
    },
}

/// The parts of one seat.
pub(crate) type Parts = LinkedList<Part>;
