//! Lists, bytes and the fields of Kafka's wire format.
//!
//! The layer above may use `List` and `Bytes` as lists of known length, and read or write one field at a time.
#![tactic(auto)]

mod again;
mod bytes;
mod copies;
mod fault;
mod limits;
mod list;
mod no_memory;
mod reader;
mod varint;
mod writing;

pub use again::reads_again;
pub use bytes::Bytes;
pub use copies::{copied, copied_or_null};
pub use fault::ByteFault;
pub use limits::{MOST_MOMENT, MOST_SESSIONS};
pub use list::List;
pub use no_memory::NoMemory;
pub use reader::Reader;
pub use writing::{
    put_array, put_i8, put_i16, put_i32, put_i64, put_nullable_string, put_records, put_string,
    put_u32, put_varint, put_varlong,
};
