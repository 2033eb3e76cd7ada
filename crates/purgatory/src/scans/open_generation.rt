//! What both listings ask of a session word: a watcher or an entry is live exactly if its generation is this one.
ghost use Rattle.std.specs.Prelude.{◌≡◌};
ghost use Rattle.purgatory.specs.scans.Shelf.{open_generation};

use room_core::{Phase, Session};

/// The generation at which a session word is open, or 0 if it isn't open.
pub(crate) fn open_generation(found: Session) -> u32
    ensures { result ≡ open_generation found }
{
    match found.phase {
        Phase::Open => found.generation,
        Phase::Idle | Phase::Won { how: _, by: _ } => 0,
    }
}
