//! The half of an object in memory that is written: sinks and links keep there what they take.
ghost use Rattle.std.specs.Prelude.{◌≡◌, ◌≤◌, ◌-◌, ◌++◌, [], IfOk, IsTrue, ◌↔◌, min, length, take};

use crate::copy::copy_front;
use kbytes::NoMemory;
use std::alloc::Global;
use std::marker::Model;

/// Bytes that were written, with room for more.
#[derive(Drop)]
pub(crate) struct Outlet {
    room: Vec<u8>,
    len: usize,
}

impl Model for Outlet {
    ghost use Rattle.std.specs.Prelude.{◌≤◌, take, vec_len};
    ghost use Rattle.outside.specs.Halves.{Output};

    ghost Value = { Output };

    ghost view = { λ o. record { written = take o.len o.room.items; room = vec_len o.room } };

    ghost invariant = { λ o. o.len ≤ vec_len o.room };
}

impl Outlet {
    /// Nothing written yet, and room for this many bytes, for which it takes the memory here.
    pub(crate) fn new(alloc: Global, room: u64) -> Result<Outlet, NoMemory>
        ensures { IfOk result (λ outlet. outlet ≡ record { written = []; room = room }) }
    {
        Ok(Outlet {
            room: vec![in alloc; 0; room as usize]?,
            len: 0,
        })
    }

    /// The bytes that were written.
    pub(crate) fn bytes(&self) -> &[u8]
        ensures { result.now ≡ self.now.written }
    {
        &self.room[..self.len]
    }

    pub(crate) fn is_full(&self) -> bool
        ensures { IsTrue result ↔ (self.now.room ≤ length self.now.written) }
    {
        self.len == self.room.len()
    }

    /// Keeps as many bytes of the part as there is room for, and answers how many.
    pub(crate) fn keep(&mut self, part: &[u8]) -> usize
        ensures count { result ≡ min (length part.now) (self.old.room - length self.old.written) }
        ensures written { self.new.written ≡ self.old.written ++ take result part.now }
        ensures room { self.new.room ≡ self.old.room }
    {
        let count = copy_front(part, &mut self.room[self.len..]);
        self.len += count;
        count
    }
}
