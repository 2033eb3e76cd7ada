//! Computes the reply of a call again: what became of its partitions (`retell`), what was read of them (`reread`), and the answer.

ghost use Rattle.std.specs.Prelude.{ℕ, ◌≡◌, ◌<◌, ◌≤◌, ◌+◌, ◌^◌, ◌∷◌, true, drop, length, map, List as Items, All, IfOk};
ghost use Rattle.std.specs.List.{AllByRecursion};
ghost use Rattle.kwire.specs.IsRequest.{IsRequest};
ghost use Rattle.kwire.specs.IsSpellable.{IsSpellable};
ghost use Rattle.kanswer.specs.Answer.{answer};
ghost use Rattle.kanswer.specs.LogReadings.{IsCarriable, named_count};
ghost use Rattle.kanswer.specs.Waiting.{Shown};
ghost use Rattle.kanswer.specs.declared.accepted.Accepted.{Accepted as TheAccepted};
ghost use Rattle.audit.specs.Fits.{IsReplyOf, is_answered};
ghost use Rattle.audit.specs.Histories.{history_of};
ghost use Rattle.audit.specs.IsLawful.{HasLogs};
ghost use Rattle.audit.specs.LawfulCall.{IsLawfulCall};
ghost use Rattle.audit.specs.retelling.WasShown.{AreShown, HasPast, look_places, told_places};

use crate::retelling::accepting::{Scene, retell};
use crate::retelling::past::Past;
use crate::retelling::rereading::reread;
use crate::retelling::retold::Retold;
use crate::{Account, Call, CallHow, Point};
use kanswer::{Accepted, answer};
use kbytes::{List, NoMemory};
use kwire::{MOST_PARTITIONS, Reply, RequestView, view_request};
use std::alloc::Global;

// The place at which a partition was looked at, or 0, and how many looks are used up after it.
fn next_place(became: &Accepted, looks: &[Point], next: usize) -> (u64, usize)
    requires { next < 2 ^ 62 }
    ensures place { (results : Items TheAccepted) → look_places (became.now ∷ results) (drop next looks.now)
        ≡ result.0 ∷ look_places results (drop result.1 looks.now) }
    ensures few { result.1 ≤ next + 1 }
{
    match became {
        Accepted::Refused { .. } => (0, next),
        Accepted::Appended { .. } | Accepted::Seen { .. } => match looks.get(next) {
            Some(look) => (look.place, next + 1),
            None => (0, next),
        },
    }
}

// The places of these looks, one for each partition whose log was asked, and 0 for one that was refused.
fn look_places(alloc: Global, accepted: &[Accepted], looks: &[Point]) -> Result<List<u64>, NoMemory>
    ensures { IfOk result (λ places. places ≡ look_places accepted.now looks.now) }
{
    let mut places = List::new(alloc);
    let mut next = 0;
    for became in accepted {
        let (place, later) = next_place(became, looks, next);
        places.push(place)?;
        next = later;
    }
    Ok(places)
}

// The points after the first.
fn behind_first(points: &[Point]) -> &[Point]
    ensures { result.now ≡ drop 1 points.now }
{
    if points.is_empty() {
        return points;
    }
    &points[1..]
}

// The places at which a reply shows the partitions: those of the call's own entries, or of its last looks. An expired call looked
// at the clock before them.
fn told_places(
    alloc: Global,
    call: &Call,
    accepted: &[Accepted],
    own: List<u64>,
) -> Result<List<u64>, NoMemory>
    ensures { IfOk result (λ places. places ≡ told_places call.now.how accepted.now own call.now.finish) }
{
    let finish = call.finish.as_slice();
    match call.how {
        CallHow::Satisfied { .. } => look_places(alloc, accepted, finish),
        CallHow::Expired { .. } => look_places(alloc, accepted, behind_first(finish)),
        CallHow::AtOnce | CallHow::Quiet | CallHow::Parked | CallHow::Cut { .. } => Ok(own),
    }
}

// The reply to a request, from what became of each partition and the place at which it is shown.
fn answer_at(
    alloc: Global,
    scene: &Scene<'_>,
    request: &RequestView<'_>,
    accepted: &[Accepted],
    places: &[u64],
) -> Result<Reply, NoMemory>
    requires results { length accepted.now ≡ named_count request.now.ask }
    requires places { length places.now ≡ length accepted.now }
    requires pasts { AllByRecursion (HasPast (length scene.now.pasts.now)) accepted.now }
    requires carried { All IsCarriable accepted.now }
    requires asked { (body : Items ℕ) × IsRequest body request.now }
    ensures reply { IfOk result (λ reply. (shown : Items Shown) → AreShown scene.now.pasts.now accepted.now places.now shown
        → reply ≡ answer scene.now.config.now request.now shown) }
    ensures framed { IfOk result (λ reply. (shown : Items Shown) → AreShown scene.now.pasts.now accepted.now places.now shown
        → IsSpellable reply) }
{
    // topics as they may be declared, whose descriptions fit in a frame
    prove!(scene.config.parts() <= MOST_PARTITIONS);
    let readings = reread(alloc, scene.pasts, request, accepted, places)?;
    answer(alloc, scene.config, request, accepted, readings.as_slice())
}

/// The reply that an answered call of an account was given. It has a frame. `pasts` are those of the account's partitions.
pub fn reply_to(
    alloc: Global,
    account: &Account,
    pasts: &[Past],
    call: &Call,
) -> Result<Reply, NoMemory>
    requires lawful { IsLawfulCall account.now call.now }
    requires answered { is_answered call.now.how ≡ true }
    requires logs { HasLogs account.now }
    requires pasts { pasts.now ≡ map history_of account.now.parts }
    ensures reply { IfOk result (IsReplyOf account.now call.now) }
    ensures framed { IfOk result IsSpellable }
{
    // the frame of a call is a request, so reading it can only run out of memory
    let Ok(request) = view_request(alloc, call.frame.as_slice()) else {
        return Err(NoMemory);
    };
    let scene = Scene {
        config: &account.config,
        pasts,
        points: call.accept.as_slice(),
    };
    let mut retold = Retold::new(alloc);
    retell(&scene, &request, &mut retold)?;
    let (accepted, own) = retold.into_parts();
    let accepted = accepted.as_slice();
    let places = told_places(alloc, call, accepted, own)?;
    answer_at(alloc, &scene, &request, accepted, places.as_slice())
}
