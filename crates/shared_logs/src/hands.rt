//! The passes are taken apart for `closing`: the seats go to the room, and each lock gets its own passes back. Where the room doesn't
//! close, they are put together again.
ghost use Rattle.std.specs.Prelude.{◌≡◌, ◌<◌, [], ◌++◌, All, IfOk, length};
ghost use Rattle.shared_logs.specs.Apart.{AreJoined, AreRests, gathered};
ghost use Rattle.shared_logs.specs.declared.hands.Hand.{Hand as HandView};

use crate::pass::LogPass;
use crate::{MomentDesk, PartDesk};
use kbytes::{List, NoMemory};
use purgatory::RoomPass;
use std::alloc::Global;
use turn_lock::TurnPass;

/// What a pass of the logs has besides its seat in the room.
#[derive(Drop)]
pub struct Hand {
    number: u32,
    parts: Vec<TurnPass<PartDesk>>,
    pub(crate) clock: TurnPass<MomentDesk>,
    moment: u64,
    ticked: u64,
}

/// The seats of the passes, and what else they have, each in the order opposite to that of the passes. None of these is left.
pub(crate) fn take_apart(
    alloc: Global,
    passes: &mut List<LogPass>,
) -> Result<(List<RoomPass>, List<Hand>), NoMemory>
    ensures passes { IfOk result (λ apart. passes.old ≡ gathered apart.0 apart.1) }
    ensures joined { IfOk result (λ apart. AreJoined apart.0 apart.1) }
    ensures none { IfOk result (λ apart. passes.new ≡ []) }
{
    let mut seats = List::new(alloc);
    let mut hands = List::new(alloc);
    while let Some(pass) = passes.pop() {
        let LogPass {
            number,
            room,
            parts,
            clock,
            moment,
            ticked,
        } = pass;
        seats.push(room)?;
        hands.push(Hand {
            number,
            parts,
            clock,
            moment,
            ticked,
        })?;
    }
    Ok((seats, hands))
}

/// Puts the passes together again, in the order that they had. There is room for them in the list from which they were taken.
pub(crate) fn put_together(
    mut passes: List<LogPass>,
    mut seats: List<RoomPass>,
    mut hands: List<Hand>,
) -> Result<List<LogPass>, NoMemory>
    requires { AreJoined seats hands }
    ensures { IfOk result (λ whole. whole ≡ passes ++ gathered seats hands) }
{
    while let Some(room) = seats.pop() {
        let Some(hand) = hands.pop() else {
            unreachable!()
        };
        let Hand {
            number,
            parts,
            clock,
            moment,
            ticked,
        } = hand;
        passes.push(LogPass {
            number,
            room,
            parts,
            clock,
            moment,
            ticked,
        })?;
    }
    Ok(passes)
}

/// Of each hand the pass of the first partition that it has, and the hands without these.
pub(crate) fn first_of_each(
    alloc: Global,
    hands: List<Hand>,
) -> Result<(List<Hand>, List<TurnPass<PartDesk>>), NoMemory>
    requires { All (λ (hand : HandView). 0 < length hand.parts.items) hands }
    ensures { IfOk result (λ apart. AreRests hands apart.1 apart.0) }
{
    let mut rest = List::new(alloc);
    let mut firsts = List::new(alloc);
    for mut hand in hands.into_vec() {
        firsts.push(hand.parts.remove(0))?;
        rest.push(hand)?;
    }
    Ok((rest, firsts))
}
