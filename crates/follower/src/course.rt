//! Following a leader: a request and its reply, round after round.
ghost use Rattle.std.specs.Prelude.{◌≡◌, ◌<◌, ◌^◌, IfNone, IfSome, OnSome};
ghost use Rattle.kwire.specs.Frames.{next_frame_of};
ghost use Rattle.kwire.specs.declared.frame.Frame.TheVariants.{Whole};
ghost use Rattle.follower.specs.Course.{HasFollowed};
ghost use Rattle.follower.specs.Flows.{link_of};
ghost use Rattle.follower.specs.Rounds.{EndsBy, HasBroken, HasRound, HasTakenFront, IsRefusedFront};

use crate::fault::{FollowEnd, TakeFault};
use crate::intake::Intake;
use crate::replica::Replica;
use outside::{Link, write_whole};
use std::alloc::Global;

// How following ends where a reply wasn't taken.
fn end_by(fault: TakeFault) -> FollowEnd
    ensures { EndsBy fault result }
{
    match fault {
        TakeFault::NoMemory => FollowEnd::NoMemory,
        other => FollowEnd::Take(other),
    }
}

// The reply at the front, which ends before the place `end`, is taken; or following ends.
fn take_reply(
    replica: &mut Replica,
    intake: &mut Intake,
    round: u32,
    end: usize,
) -> Option<FollowEnd>
    requires few { round < 2 ^ 31 }
    requires whole { next_frame_of intake.old.inbox ≡ Whole end }
    ensures taken { IfNone result (HasTakenFront round replica.old replica.new intake.old.inbox intake.new.inbox) }
    ensures refused { IfSome result (λ why. IsRefusedFront why round replica.old intake.old.inbox) }
    ensures same { OnSome result (replica.new ≡ replica.old) }
{
    match replica.take(round as i32, intake.body(end)) {
        Ok(_) => {
            intake.pass(end);
            None
        }
        Err(fault) => Some(end_by(fault)),
    }
}

// One round: the request is written, and its reply read and taken; or following ends.
fn make_round<L: Link>(
    link: &mut L,
    replica: &mut Replica,
    intake: &mut Intake,
    round: u32,
) -> Option<FollowEnd>
    requires few { round < 2 ^ 31 }
    ensures made { IfNone result (HasRound round replica.old replica.new intake.old.inbox intake.new.inbox
        (link_of (L.taken link.old) (L.left link.old) (L.written link.old) (L.faults link.old))
        (link_of (L.taken link.new) (L.left link.new) (L.written link.new) (L.faults link.new))) }
    ensures broken { IfSome result (λ end. HasBroken end round replica.old intake.old.inbox
        (link_of (L.taken link.old) (L.left link.old) (L.written link.old) (L.faults link.old))
        (link_of (L.taken link.new) (L.left link.new) (L.written link.new) (L.faults link.new))) }
    ensures same { OnSome result (replica.new ≡ replica.old) }
{
    let Ok(frame) = replica.ask(round as i32) else {
        return Some(FollowEnd::NoMemory);
    };
    let Ok(()) = write_whole(link, frame.as_slice()) else {
        return Some(FollowEnd::WriteFault);
    };
    match intake.fill(link) {
        Ok(end) => take_reply(replica, intake, round, end),
        Err(why) => Some(why),
    }
}

/// Follows a leader over its link for so many rounds: asks for what follows the end of the copy and takes the reply, round after round, with
/// correlation ids from 0 on. It reads only while no whole reply is there.
pub fn follow<L: Link>(alloc: Global, link: &mut L, replica: &mut Replica, rounds: u32) -> FollowEnd
    requires few { rounds < 2 ^ 31 }
    ensures followed { HasFollowed rounds replica.old replica.new result
        (link_of (L.taken link.old) (L.left link.old) (L.written link.old) (L.faults link.old))
        (link_of (L.taken link.new) (L.left link.new) (L.written link.new) (L.faults link.new)) }
{
    if rounds == 0 {
        return FollowEnd::Done;
    }
    let Ok(mut intake) = Intake::new(alloc) else {
        return FollowEnd::NoMemory;
    };
    for round in 0..rounds {
        if let Some(end) = make_round(link, replica, &mut intake, round) {
            return end;
        }
    }
    FollowEnd::Done
}
