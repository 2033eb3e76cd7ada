use std::snapshot::Snapshot;

/// An entry of a port's history. `by` is the number of the pass that made it.
pub enum PortEntry<L> {
    /// The port was opened with this number.
    Opened {
        by: u32,
        number: u16,
    },
    /// The port gave a link, which got this number.
    Accepted {
        by: u32,
        number: u64,
    },
    /// The port answered that no more links come.
    Ended {
        by: u32,
    },
    /// An open or an accept failed.
    Faulted {
        by: u32,
    },
    /// The port took a link back under this number. Clauses see the link as it then was.
    Retired {
        by: u32,
        number: u64,
        link: Snapshot<L>,
    },
}

impl<L> Drop for PortEntry<L> {
    fn drop(self) {
        match self {
            PortEntry::Opened { by: _, number: _ } => {}
            PortEntry::Accepted { by: _, number: _ } => {}
            PortEntry::Ended { by: _ } | PortEntry::Faulted { by: _ } => {}
            PortEntry::Retired {
                by: _,
                number: _,
                link: _,
            } => {}
        }
    }
}
