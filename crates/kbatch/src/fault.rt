//! The causes for which `read_batch` and `view_batch` refuse bytes, and their texts.

ghost use Rattle.std.specs.Prelude.{◌≡◌};

use kbytes::NoMemory as Memory;
use std::error::Error;
use std::fmt;

/// Why bytes are no batch: the first of these, in this order, that applies. `NoMemory` comes after all the others.
#[derive(Clone, Copy, Debug, PartialEq, Eq)]
pub enum BatchFault {
    /// More than 1,048,588 bytes.
    TooLarge { len: usize },
    /// Fewer bytes than a header has.
    Short,
    /// The length in the header doesn't fit the number of bytes.
    Length { kept: i32 },
    /// The magic isn't 2.
    Magic { found: i8 },
    /// The CRC-32C in the header isn't that of the bytes.
    Crc { kept: u32, found: u32 },
    /// The records are compressed. 1 is gzip, 2 snappy, 3 lz4 and 4 zstd.
    Compressed { codec: u8 },
    /// The batch belongs to a transaction, or is a control batch.
    Control,
    /// The number of records is below 1, or the last offset delta isn't one less.
    Count { count: i32, last: i32 },
    /// At this place there is no well-formed record, or there are bytes after the last one.
    Records { at: usize },
    /// Out of memory.
    NoMemory,
}

impl fmt::Display for BatchFault {
    fn fmt<W: fmt::Write>(&self, f: &mut fmt::Formatter<W>) -> fmt::Result {
        match self {
            BatchFault::TooLarge { len } => write!(f, "{len} bytes are too many for a batch"),
            BatchFault::Short => write!(f, "the bytes end within the header"),
            BatchFault::Length { kept } => write!(f, "the length {kept} isn't the number of bytes"),
            BatchFault::Magic { found } => write!(f, "the magic {found} isn't 2"),
            BatchFault::Crc { kept, found } => write!(f, "the crc {kept} isn't {found}"),
            BatchFault::Compressed { codec } => write!(f, "the codec {codec} isn't supported"),
            BatchFault::Control => write!(f, "transactional and control batches aren't supported"),
            BatchFault::Count { count, last } => write!(
                f,
                "the count {count} doesn't go with the last offset delta {last}"
            ),
            BatchFault::Records { at } => write!(f, "no record ends as it should at {at}"),
            BatchFault::NoMemory => write!(f, "no memory was left"),
        }
    }
}

impl Error for BatchFault {}

impl From<Memory> for BatchFault {
    ghost use Rattle.kbatch.specs.declared.fault.BatchFault.TheVariants.{NoMemory};

    ghost from_gives = { λ _ e. e ≡ NoMemory };

    fn from(_refused: Memory) -> BatchFault {
        BatchFault::NoMemory
    }
}
