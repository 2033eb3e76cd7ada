//! The half of an object in memory that is read: sources and links give their bytes through it.
ghost use Rattle.std.specs.Prelude.{◌≡◌, ◌++◌, [], min, length, take, drop};

use crate::copy::copy_front;
use kbytes::Bytes;
use std::marker::Model;

/// Bytes that are given in their order.
#[derive(Drop)]
pub(crate) struct Intake {
    bytes: Bytes,
    at: usize,
}

impl Model for Intake {
    ghost use Rattle.std.specs.Prelude.{◌≤◌, drop, length, take};
    ghost use Rattle.outside.specs.Halves.{Input};

    ghost Value = { Input };

    ghost view = { λ i. record { taken = take i.at i.bytes; left = drop i.at i.bytes } };

    ghost invariant = { λ i. i.at ≤ length i.bytes };
}

impl Intake {
    pub(crate) fn new(bytes: Bytes) -> Intake
        ensures { result ≡ record { taken = []; left = bytes } }
    {
        Intake { bytes, at: 0 }
    }

    /// Gives as many of the bytes left as fit, and answers how many.
    pub(crate) fn give(&mut self, into: &mut [u8]) -> usize
        ensures count { result ≡ min (length self.old.left) (length into.old) }
        ensures given { into.new ≡ take result self.old.left ++ drop result into.old }
        ensures left { self.new.left ≡ drop result self.old.left }
        ensures taken { self.new.taken ≡ self.old.taken ++ take result self.old.left }
    {
        let count = copy_front(&self.bytes.as_slice()[self.at..], into);
        self.at += count;
        count
    }
}
