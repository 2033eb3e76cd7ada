//! What one exchange of a session word does, for whoever tries it: passes and scanners go through the same two functions, so a
//! generation is won only once.
ghost use Rattle.std.specs.Prelude.{◌≡◌, OnErr, OnOk};
ghost use Rattle.room_core.specs.Checks.{exchanged, with_prize};
ghost use Rattle.room_core.specs.Meetings.{is_live};

use crate::event::How;
use crate::parts::{Phase, Prize, Session};
use kbytes::NoMemory;

/// Whether a session word is open at this generation.
pub(crate) fn is_live(session: Session, generation: u32) -> bool
    ensures { result ≡ is_live session generation }
{
    match session.phase {
        Phase::Open => session.generation == generation,
        Phase::Idle | Phase::Won { how: _, by: _ } => false,
    }
}

/// The session word after an attempt to exchange it: won if it was open at this generation, and else as it was.
#[tactic(auto, unfolding(crate::specs::Checks::exchanged))]
pub(crate) fn exchanged(session: Session, generation: u32, how: How, by: u32) -> Session
    ensures { result ≡ exchanged session generation how by }
{
    if !is_live(session, generation) {
        return session;
    }
    Session {
        generation: session.generation,
        phase: Phase::Won { how, by },
    }
}

/// Adds the prize to a winner's wins, if the session word was open at its generation.
#[tactic(auto, unfolding(crate::specs::Checks::with_prize))]
pub(crate) fn keep_prize(
    wins: &mut Vec<Prize>,
    session: Session,
    prize: Prize,
) -> Result<(), NoMemory>
    ensures kept { OnOk result (wins.new.items ≡ with_prize session prize.generation wins.old.items prize) }
    ensures same { OnErr result (wins.new.items ≡ wins.old.items) }
{
    if !is_live(session, prize.generation) {
        return Ok(());
    }
    wins.push(prize)?;
    Ok(())
}
