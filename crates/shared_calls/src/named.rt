/// A partition that a request names: its topic's name, and what is asked of it.
#[derive(Drop)]
pub(crate) struct Named<'a, P> {
    pub(crate) topic: &'a [u8],
    pub(crate) part: &'a P,
}
