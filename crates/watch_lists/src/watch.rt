/// The id watches the key, for the operation of this generation.
#[derive(Clone, Copy, PartialEq, Eq)]
pub struct Watch {
    pub key: u32,
    pub id: u32,
    pub generation: u32,
}
