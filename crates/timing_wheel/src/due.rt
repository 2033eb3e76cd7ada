ghost use Rattle.std.specs.Prelude.{◌≡◌, ◌<◌, [], ◌∷◌, ◌++◌, length, IfOk, IsPermutation};
ghost use Rattle.std.specs.List.Sorted.{IsNonDecreasing};

use kbytes::NoMemory;
use std::alloc::Global;
use std::marker::Model;

/// Room for the ids that `Wheels::pop_due` hands out. It is made once and cleared after each use.
#[derive(Drop)]
pub struct Due {
    ids: Vec<u32>,
    room: u32,
}

impl Model for Due {
    ghost use Rattle.std.specs.Prelude.{◌≤◌, length, vec_capacity};
    ghost use Rattle.timing_wheel.specs.DueList.{DueList};

    ghost Value = { DueList };

    ghost view = { λ d. record { ids = d.ids.items; room = d.room } };

    ghost invariant = { λ d. (d.room ≤ vec_capacity d.ids) };
}

impl Due {
    /// Room for as many ids as wheels of this many entries can hand out.
    pub fn new(alloc: Global, entries: u32) -> Result<Due, NoMemory>
        ensures { IfOk result (λ due. due ≡ record { ids = []; room = entries }) }
    {
        let ids = Vec::with_capacity(alloc, entries as usize)?;
        Ok(Due { ids, room: entries })
    }

    /// The due ids, in rising order.
    pub fn ids(&self) -> &[u32]
        ensures { result.now ≡ self.now.ids }
    {
        self.ids.as_slice()
    }

    /// Drops the ids. The room stays.
    pub fn clear(&mut self)
        ensures { self.new ≡ record self.old { ids = [] } }
    {
        self.ids.clear();
    }

    /// Adds an id, where there is room.
    pub(crate) fn push(&mut self, id: u32)
        requires { length self.old.ids < self.old.room }
        ensures { self.new ≡ record self.old { ids = self.old.ids ++ id ∷ [] } }
    {
        let _ = self.ids.push(id);
    }

    pub(crate) fn sort(&mut self)
        ensures room { self.new.room ≡ self.old.room }
        ensures same { IsPermutation self.old.ids self.new.ids }
        ensures rising { IsNonDecreasing self.new.ids }
    {
        self.ids.sort_unstable();
    }
}
