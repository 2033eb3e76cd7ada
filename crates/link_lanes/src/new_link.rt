use outside::Link;
use outside::shared::queue::{Condition, Numbered};

/// What each link in the queue meets: nothing was taken from it or written to it, it has not failed, and it wasn't shut.
pub struct NewLink;

impl<L: Link> Condition<L> for NewLink {
    ghost use Rattle.outside.specs.NewLink.{IsNewLink};

    ghost fits = { λ item. IsNewLink (L.taken item.link) (L.written item.link) (L.faults item.link) (L.is_shut item.link) };
}
