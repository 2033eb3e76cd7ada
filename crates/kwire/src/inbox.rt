//! The bytes of a session that have come in and aren't taken yet.

ghost use Rattle.std.specs.Prelude.{◌≡◌, ◌≤◌, [], ◌++◌, length, drop, OnOk, OnErr};

use kbytes::{Bytes, NoMemory};
use std::alloc::Global;
use std::marker::Model;

/// Bytes that are added at the end and taken from the front. A contract sees those that are left.
#[derive(Drop)]
pub struct Inbox {
    alloc: Global,
    bytes: Bytes,
    // The bytes before this place were taken.
    start: usize,
}

impl Model for Inbox {
    ghost use Rattle.std.specs.Prelude.{List, ℕ, drop, length, ◌≤◌};

    ghost Value = { List ℕ };

    ghost view = { λ i. drop i.start i.bytes };

    ghost invariant = { λ i. i.start ≤ length i.bytes };
}

impl Inbox {
    /// No bytes. It takes no memory.
    pub fn new(alloc: Global) -> Inbox
        ensures { result ≡ [] }
    {
        Inbox {
            alloc,
            bytes: Bytes::new(alloc),
            start: 0,
        }
    }

    /// Adds the piece at the end. The memory of bytes that were taken is used again once they are at least as many as those that are left.
    pub fn feed(&mut self, piece: &[u8]) -> Result<(), NoMemory>
        ensures ok { OnOk result (self.new ≡ self.old ++ piece.now) }
        ensures err { OnErr result (self.new ≡ self.old) }
    {
        let left = self.bytes.len() - self.start;
        if left == 0 {
            self.start = 0;
            self.bytes.truncate(0);
            return self.bytes.extend(piece);
        }
        if self.start < left {
            return self.bytes.extend(piece);
        }
        let mut kept = Bytes::new(self.alloc);
        kept.extend(&self.bytes.as_slice()[self.start..])?;
        kept.extend(piece)?;
        self.bytes = kept;
        self.start = 0;
        Ok(())
    }

    /// The bytes that are left.
    pub fn bytes(&self) -> &[u8]
        ensures { result.now ≡ self.now }
    {
        &self.bytes.as_slice()[self.start..]
    }

    /// Takes that many bytes from the front, in constant time.
    pub fn drop_front(&mut self, count: usize)
        requires { count ≤ length self.old }
        ensures { self.new ≡ drop count self.old }
    {
        let left = self.bytes().len() - count;
        self.start = self.bytes.len() - left;
    }
}
