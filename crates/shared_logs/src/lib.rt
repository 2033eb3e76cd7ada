//! The logs of a broker that threads share: each partition's and the clock's behind a lock of its own, and the room in which requests
//! wait for them.
//!
//! Each thread has a `LogPass`. Of each history the pass has seen a prefix, and every turn that it takes begins with that prefix: others
//! may have added to it, and nobody takes anything away. In a turn the pass leaves one entry of its own at most, or several by which it takes
//! out who lags, and raises the gauges that rose; `settle` then pays the scans that it owes. What a pass waits for it registers in the room, and polls. `call_turns` has the
//! turns of one call, each with the point of its entry.
//!
//! So the layer above needs to know of locks and gauges nothing but this: between two of its own entries others' entries came, and none
//! of its own (`OthersCame`); and at the close there is one history of each partition, which goes on from what every pass has seen
//! (`AreClosed`).
//!
//! # What is behind a lock
//!
//! A desk is a log with the sources of its gauges: `PartDesk` is a partition's, `MomentDesk` the clock's. Between any two calls the
//! gauges are at the numbers of the log's whole history. So the thread that has the desk's turn finds both alike, and one that waits in
//! the room for a gauge misses no change. Each call enters its entries, raises the gauges that changed and no other, and leaves it to the
//! pass to settle what it then owes, once its turn is over.
//!
//! # What a lock sees
//!
//! A turn lock (`turn_lock`) sees a history of entries, each of which names a pass. Of a partition these are its events, each append
//! with its batch as it is in the log (`LogEntry`): so what a pass has seen of a partition fixes the log's bytes as well as the
//! events. Of the clock they are its events, and since a tick names no pass, the desk keeps a list of the passes that ticked
//! (`ClockEntry`). No value of either type is made. The laws of `promises` lead from the entries back to the histories.
#![tactic(auto)]

pub mod call_turns;
mod clock_turns;
mod closing;
mod crossing;
mod desk_calls;
mod desks_crossing;
mod entries;
mod hands;
mod kept;
mod logs;
mod making;
mod moment_desk;
mod part_desk;
mod part_turns;
mod pass;
mod promises;
mod sources;
mod ticking;
mod turns;
mod visit;
mod waiting;
mod wanted;

pub use closing::{ClosedLogs, LogsEnd};
pub use entries::{ClockEntry, LogEntry};
pub use logs::SharedLogs;
pub use moment_desk::{MomentDesk, Tick};
pub use part_desk::PartDesk;
pub use pass::LogPass;
pub use promises::{
    entries_name_owners, entries_of_others, entries_tell_histories, histories_go_on,
    names_fix_desks,
};
pub use sources::PartSources;
pub use turns::{Fetched, Looked, Put, Read};
pub use visit::Visit;
pub use wanted::{AtLeast, Rest, Wanted};
