//! A marker type for each step on the table: it names the definition that says what the step found and what the seat then knows.
//! The steps pass these to `atomic_table`; they have no values.
ghost use Rattle.std.specs.Prelude.{[], ◌++◌, take, drop};
ghost use Rattle.room_table.specs.Tells.{asked, began, caller_left, caller_read, caller_won, described, heard, hushed, idled, learned_word, marked_word, met_word, opened, peeked_own, recalled, relieved, saw_mark, scanner_left, scanner_read, scanner_won, stored};

use crate::part::Parts;
use atomic_table::{Join, Play, Split};

pub(crate) struct Stores;

impl Play<u64, Parts> for Stores {
    ghost then = { stored };
}

pub(crate) struct Hushes;

impl Play<u64, Parts> for Hushes {
    ghost then = { hushed };
}

pub(crate) struct Asks;

impl Play<u64, Parts> for Asks {
    ghost then = { asked };
}

pub(crate) struct Relieves;

impl Play<u64, Parts> for Relieves {
    ghost then = { relieved };
}

pub(crate) struct Describes;

impl Play<u64, Parts> for Describes {
    ghost then = { described };
}

pub(crate) struct Recalls;

impl Play<u64, Parts> for Recalls {
    ghost then = { recalled };
}

pub(crate) struct Opens;

impl Play<u64, Parts> for Opens {
    ghost then = { opened };
}

pub(crate) struct SeesMark;

impl Play<u64, Parts> for SeesMark {
    ghost then = { saw_mark };
}

pub(crate) struct CallerReads;

impl Play<u64, Parts> for CallerReads {
    ghost then = { caller_read };
}

pub(crate) struct CallerLeaves;

impl Play<u64, Parts> for CallerLeaves {
    ghost then = { caller_left };
}

pub(crate) struct CallerWins;

impl Play<u64, Parts> for CallerWins {
    ghost then = { caller_won };
}

pub(crate) struct Peeks;

impl Play<u64, Parts> for Peeks {
    ghost then = { peeked_own };
}

pub(crate) struct Idles;

impl Play<u64, Parts> for Idles {
    ghost then = { idled };
}

pub(crate) struct Hears;

impl Play<u64, Parts> for Hears {
    ghost then = { heard };
}

pub(crate) struct Begins;

impl Play<u64, Parts> for Begins {
    ghost then = { began };
}

pub(crate) struct Meets;

impl Play<u64, Parts> for Meets {
    ghost then = { met_word };
}

pub(crate) struct Learns;

impl Play<u64, Parts> for Learns {
    ghost then = { learned_word };
}

pub(crate) struct Lists;

impl Play<u64, Parts> for Lists {
    ghost then = { marked_word };
}

pub(crate) struct ScannerReads;

impl Play<u64, Parts> for ScannerReads {
    ghost then = { scanner_read };
}

pub(crate) struct ScannerLeaves;

impl Play<u64, Parts> for ScannerLeaves {
    ghost then = { scanner_left };
}

pub(crate) struct ScannerWins;

impl Play<u64, Parts> for ScannerWins {
    ghost then = { scanner_won };
}

/// The first part of a seat is split off, as a seat of its own.
pub(crate) struct HandOut;

impl Split<Parts> for HandOut {
    ghost left = { λ view. drop 1 view };

    ghost right = { λ view. take 1 view };
}

/// A seat comes back into another, with its parts first.
pub(crate) struct TakeBack;

impl Join<Parts> for TakeBack {
    ghost both = { λ view other. other ++ view };

    ghost spent = { [] };
}
