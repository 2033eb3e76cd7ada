//! A part of what is printed of a run.
use kbytes::Bytes;
use shared_broker::LogRange;

/// A part of what is printed of a run. The parts are written one after the other.
#[derive(Drop)]
pub enum PrintPart {
    /// These bytes.
    Text(Bytes),
    /// The line of a reply: the session's number, and the frame that it was sent, which has half as many bytes as the line. Its digits are
    /// made as the line is written.
    Reply {
        session: u32,
        frame: Bytes,
    },
    /// The same, of a frame whose last bytes stand in a partition's log: those before them, and the range of the log in the account of the run.
    Stored {
        session: u32,
        head: Bytes,
        range: LogRange,
    },
}
