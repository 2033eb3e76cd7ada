use std::error::Error;
use std::fmt;

/// Why a field doesn't read. `at` is the place of the field's first byte.
#[derive(Clone, Copy, Debug, PartialEq, Eq)]
pub enum ByteFault {
    /// The bytes end within the field.
    Short { at: usize },
    /// A length is below -1, or is -1 where null isn't allowed.
    BadLength { at: usize, value: i64 },
    /// A varint isn't in its shortest form, or leaves the range of its type.
    LongVarint { at: usize },
}

impl fmt::Display for ByteFault {
    fn fmt<W: fmt::Write>(&self, f: &mut fmt::Formatter<W>) -> fmt::Result {
        match self {
            ByteFault::Short { at } => write!(f, "the bytes end within the field at {at}"),
            ByteFault::BadLength { at, value } => write!(
                f,
                "the length {value} at {at} isn't allowed"
            ),
            ByteFault::LongVarint { at } => write!(
                f,
                "the varint at {at} isn't in its shortest form or is out of range"
            ),
        }
    }
}

impl Error for ByteFault {}
