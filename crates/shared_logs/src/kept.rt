//! What a turn lock knows of the desks: the entries of their histories, and their names.
use crate::entries::{ClockEntry, LogEntry};
use crate::moment_desk::MomentDesk;
use crate::part_desk::PartDesk;
use turn_lock::Kept;

impl Kept for PartDesk {
    ghost use Rattle.shared_logs.specs.Desks.{part_name};
    ghost use Rattle.shared_logs.specs.Entries.{entry_by, log_entries};

    type Entry = LogEntry;

    ghost entries = { λ d. log_entries d.history };

    ghost by = { entry_by };

    ghost name = { part_name };

    fn count(&self) -> u64 {
        self.log().events().len() as u64
    }
}

impl Kept for MomentDesk {
    ghost use Rattle.shared_logs.specs.Desks.{moment_name};
    ghost use Rattle.shared_logs.specs.Entries.{clock_by, clock_entries};

    type Entry = ClockEntry;

    ghost entries = { λ d. clock_entries d.events d.tickers };

    ghost by = { clock_by };

    ghost name = { moment_name };

    fn count(&self) -> u64 {
        self.events().len() as u64
    }
}
