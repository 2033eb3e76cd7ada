//! Why the program prints no account. `main` reports it on standard error.

use kbytes::NoMemory;
use std::alloc::{AllocError, AllocFailed};
use std::{fmt, io};
use trace_file::{LineFault, TraceFault};

/// Why nothing is printed, or not all of it.
#[derive(Debug, Drop)]
pub enum Fault {
    /// The words of the command line aren't a number from 1 to 16, with or without `drain` after it, nor `lanes` and a number from 1 to 64.
    Usage,
    /// The input isn't a trace: its first bad line.
    BadLine(LineFault),
    NoMemory,
    /// The input can't be read, or the output can't be written.
    Io(io::Error),
}

impl From<TraceFault> for Fault {
    fn from(fault: TraceFault) -> Fault {
        match fault {
            TraceFault::Bad(fault) => Fault::BadLine(fault),
            TraceFault::NoMemory => Fault::NoMemory,
        }
    }
}

impl From<NoMemory> for Fault {
    fn from(_: NoMemory) -> Fault {
        Fault::NoMemory
    }
}

impl From<AllocError> for Fault {
    fn from(_: AllocError) -> Fault {
        Fault::NoMemory
    }
}

impl<T: Drop> From<AllocFailed<T>> for Fault {
    fn from(_: AllocFailed<T>) -> Fault {
        Fault::NoMemory
    }
}

impl From<io::Error> for Fault {
    fn from(error: io::Error) -> Fault {
        if error.kind() == io::ErrorKind::OutOfMemory {
            Fault::NoMemory
        } else {
            Fault::Io(error)
        }
    }
}

impl fmt::Display for Fault {
    fn fmt<W: fmt::Write>(&self, f: &mut fmt::Formatter<W>) -> fmt::Result {
        match self {
            Fault::Usage => write!(
                f,
                "the words are a number of workers from 1 to 16, and drain or nothing, or lanes and a number from 1 to 64"
            ),
            Fault::BadLine(fault) => write!(f, "{fault}"),
            Fault::NoMemory => write!(f, "no memory was left"),
            Fault::Io(error) => write!(f, "{error}"),
        }
    }
}
