//! Why one line isn't taken, before `reading` adds its number.

ghost use Rattle.std.specs.Prelude.{◌≡◌};
ghost use Rattle.trace_file.specs.declared.refusal.Refusal.TheVariants.{NoMemory as OutOfMemory};

use crate::line::{LineFault, LineKind, TraceFault};
use kbytes::NoMemory;
use kwire::ConfigFault;

/// Why a line isn't taken.
#[derive(Clone, Copy, PartialEq, Eq)]
pub enum Refusal {
    Bad(LineKind),
    NoMemory,
}

impl Refusal {
    ghost use Rattle.trace_file.specs.Refusals.{fault_at};

    /// The refusal of the line with this number.
    pub fn at(self, line: u32) -> TraceFault
        ensures { result ≡ fault_at line self }
    {
        match self {
            Refusal::Bad(kind) => TraceFault::Bad(LineFault { line, kind }),
            Refusal::NoMemory => TraceFault::NoMemory,
        }
    }
}

impl From<NoMemory> for Refusal {
    ghost from_gives = { λ _ e. e ≡ OutOfMemory };

    fn from(_refused: NoMemory) -> Refusal {
        Refusal::NoMemory
    }
}

impl From<ConfigFault> for Refusal {
    ghost use Rattle.trace_file.specs.Refusals.{refusal_of};

    ghost from_gives = { λ fault e. e ≡ refusal_of fault };

    fn from(fault: ConfigFault) -> Refusal {
        match fault {
            ConfigFault::BadName | ConfigFault::TopicTwice | ConfigFault::BadCount => Refusal::Bad(
                LineKind::BadTopic,
            ),
            ConfigFault::NoMemory => Refusal::NoMemory,
        }
    }
}
