use kbytes::{Bytes, List};

/// A header of a record: a key, and a value or null.
#[derive(Drop)]
pub struct Header {
    pub key: Bytes,
    pub value: Option<Bytes>,
}

/// A record of a batch. `time` is the timestamp's distance in milliseconds from the batch's base timestamp.
#[derive(Drop)]
pub struct Record {
    pub attributes: i8,
    pub time: i64,
    pub key: Option<Bytes>,
    pub value: Option<Bytes>,
    pub headers: List<Header>,
}
