use kbytes::NoMemory;
use std::alloc::{AllocError, AllocFailed};
use std::io;
use thiserror::Error;

/// Why nothing more was measured.
#[derive(Debug, Drop, Error)]
pub enum Fault {
    #[error("no memory is left")]
    NoMemory,
    #[error("an operation didn't wait, or wasn't answered")]
    Stopped,
    /// The clock can't be read, or the figures can't be written.
    #[error(transparent)]
    Io(#[from] io::Error),
}

impl From<NoMemory> for Fault {
    fn from(_: NoMemory) -> Fault {
        Fault::NoMemory
    }
}

impl From<AllocError> for Fault {
    fn from(_: AllocError) -> Fault {
        Fault::NoMemory
    }
}

impl<T: Drop> From<AllocFailed<T>> for Fault {
    fn from(_: AllocFailed<T>) -> Fault {
        Fault::NoMemory
    }
}
