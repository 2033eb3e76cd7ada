//! What a call wants of a partition: the arguments that the turns hand down from `call_turns` to the desk.
use kwire::FetchPart;

/// What a fetch asks of the partition of this number. A negative replica is a consumer.
#[derive(Clone, Copy)]
pub struct Wanted<'a> {
    pub replica: i32,
    pub part: u32,
    pub asked: &'a FetchPart,
}

/// A look waits until this gauge, one of its partition's, is no less than the value.
#[derive(Clone, Copy)]
pub struct AtLeast {
    pub gauge: u32,
    pub value: u64,
}

/// What a fetch that waited reads of the partition of that gauge, from the byte place `start` on.
#[derive(Clone, Copy)]
pub struct Rest<'a> {
    pub late: AtLeast,
    pub replica: i32,
    pub asked: &'a FetchPart,
    pub start: u64,
}
