//! The causes for which `write_batch` refuses records, and their texts.

ghost use Rattle.std.specs.Prelude.{◌≡◌};

use kbytes::NoMemory as Memory;
use std::error::Error;
use std::fmt;

/// Why no batch is written.
#[derive(Clone, Copy, Debug, PartialEq, Eq)]
pub enum WriteFault {
    /// There are no records.
    NoRecords,
    /// The batch would have that many bytes, more than 1,048,588.
    TooLarge { bytes: u64 },
    /// Out of memory.
    NoMemory,
}

impl fmt::Display for WriteFault {
    fn fmt<W: fmt::Write>(&self, f: &mut fmt::Formatter<W>) -> fmt::Result {
        match self {
            WriteFault::NoRecords => write!(f, "a batch has one record at least"),
            WriteFault::TooLarge { bytes } => write!(f, "{bytes} bytes are too many for a batch"),
            WriteFault::NoMemory => write!(f, "no memory was left"),
        }
    }
}

impl Error for WriteFault {}

impl From<Memory> for WriteFault {
    ghost use Rattle.kbatch.specs.declared.write_fault.WriteFault.TheVariants.{NoMemory};

    ghost from_gives = { λ _ e. e ≡ NoMemory };

    fn from(_refused: Memory) -> WriteFault {
        WriteFault::NoMemory
    }
}
