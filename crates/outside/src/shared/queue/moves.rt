//! The rule of the queue, and what each call does to what passes know.
use crate::shared::queue::condition::Condition;
use crate::shared::queue::hand::Hand;
use crate::shared::queue::numbered::Numbered;
use crossbeam_queue::protocol::{Join, Lesson, Outcome, Protocol, Split};
use std::marker::PhantomData;

/// What was put is what was taken and what the queue holds, and all that it holds meets the condition.
pub struct Fair<N> {
    condition: PhantomData<N>,
}

impl<L, N: Condition<L>> Protocol<Numbered<L>, Hand<L>> for Fair<N> {
    ghost use Rattle.outside.specs.shared.queue.Balanced.{Balanced};
    ghost use Rattle.outside.specs.shared.queue.Hands.{first_hand};

    ghost holds = { Balanced N.fits };

    ghost first = { first_hand };
}

/// One part goes to a new pass, which has put and taken nothing.
pub struct Cut;

impl<L> Split<Hand<L>> for Cut {
    ghost use Rattle.outside.specs.shared.queue.Hands.{lesser_hand, part_hand};

    ghost left = { lesser_hand };

    ghost right = { part_hand };
}

impl<L> Join<Hand<L>> for Cut {
    ghost use Rattle.outside.specs.shared.queue.Hands.{both_hands, spent_hand};

    ghost both = { both_hands };

    ghost spent = { spent_hand };
}

pub struct Puts;

impl<L> Outcome<Numbered<L>, Hand<L>> for Puts {
    ghost use Rattle.std.specs.Prelude.{◌≡◌};
    ghost use Rattle.outside.specs.shared.queue.Hands.{hand_put};

    ghost then = { λ v x w. w ≡ hand_put x v };
}

impl<L> Lesson<Numbered<L>, Hand<L>> for Puts {
    ghost use Rattle.outside.specs.shared.queue.Balanced.{Told};

    ghost fact = { Told };
}

pub struct Takes<N> {
    condition: PhantomData<N>,
}

impl<L, N: Condition<L>> Outcome<Numbered<L>, Hand<L>> for Takes<N> {
    ghost use Rattle.std.specs.Prelude.{◌≡◌};
    ghost use Rattle.outside.specs.shared.queue.Hands.{hand_taken};

    ghost then = { λ v x w. N.fits x × (w ≡ hand_taken x v) };
}

impl<L, N: Condition<L>> Lesson<Numbered<L>, Hand<L>> for Takes<N> {
    ghost use Rattle.outside.specs.shared.queue.Balanced.{Told};

    ghost fact = { Told };
}

/// What a whole pass learns of what the queue holds.
pub struct Whole<N> {
    condition: PhantomData<N>,
}

impl<L, N: Condition<L>> Lesson<Numbered<L>, Hand<L>> for Whole<N> {
    ghost use Rattle.std.specs.Prelude.{All};
    ghost use Rattle.outside.specs.shared.queue.Balanced.{Told};

    ghost fact = { λ v items. Told v items × All N.fits items };
}
