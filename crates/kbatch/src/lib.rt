//! Kafka's record batch, version 2, and its CRC-32C.
//!
//! For the layer above a `Batch` is always the bytes of a batch of some records (`IsBatch`). It counts the records, and
//! stamps the batch with a base offset, after which it is still a batch of the same records.
#![tactic(auto)]

mod batch;
mod crc;
mod decode;
mod fault;
mod head;
mod promises;
mod read;
mod record;
mod remainders;
mod size;
mod stamping;
mod view;
mod walk;
mod write;
mod write_fault;

pub use batch::Batch;
pub use crc::crc32c;
pub use fault::BatchFault;
pub use promises::written_is_read;
pub use read::{read_batch, view_batch};
pub use record::{Header, Record};
pub use stamping::stamp;
pub use view::BatchView;
pub use write::write_batch;
pub use write_fault::WriteFault;
