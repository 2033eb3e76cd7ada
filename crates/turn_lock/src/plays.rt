//! What each step on the table shows.
ghost use Rattle.std.specs.Prelude.{[], ◌++◌, take, drop};
ghost use Rattle.turn_lock.specs.Moves.{drew, looked, passed_on};

use crate::kept::Kept;
use crate::known::Known;
use atomic_table::{Join, Play, Split};
use std::collections::LinkedList;

/// A ticket is drawn.
pub(crate) struct Draw;

impl<T: Kept> Play<Option<T>, LinkedList<Known<T::Entry>>> for Draw {
    ghost then = { drew };
}

/// The ticket that is served is looked at, and where it is the pass's own the value is taken.
pub(crate) struct Look;

impl<T: Kept> Play<Option<T>, LinkedList<Known<T::Entry>>> for Look {
    ghost then = { looked T.entries T.by T.name };
}

/// The turn is passed on.
pub(crate) struct PassOn;

impl<T: Kept> Play<Option<T>, LinkedList<Known<T::Entry>>> for PassOn {
    ghost then = { passed_on T.entries };
}

/// A pass is handed out.
pub(crate) struct HandOut;

impl<E> Split<LinkedList<Known<E>>> for HandOut {
    ghost left = { λ v. drop 1 v };

    ghost right = { λ v. take 1 v };
}

/// A pass comes back.
pub(crate) struct TakeBack;

impl<E> Join<LinkedList<Known<E>>> for TakeBack {
    ghost both = { λ v w. v ++ w };

    ghost spent = { [] };
}
