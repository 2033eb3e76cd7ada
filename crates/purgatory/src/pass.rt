//! The pass: a thread needs one to act in a room. `Room::make` hands all of them out, and `Room::still` takes them back.
use crate::locks::Keys;
use crate::owner::Owner;
use std::marker::Model;

/// The right to act in the room: to raise gauges, to register operations, one at a time, and to settle what that leaves to do. Between
/// any two calls it has no operation, or one that waits. A pass that is dropped while it owes a scan leaves that undone: an operation
/// that the value satisfies waits on, until the gauge is raised again. So settle first.
#[derive(Drop)]
pub struct RoomPass {
    pub(crate) owner: Owner,
    pub(crate) keys: Keys,
}

impl Model for RoomPass {
    ghost use Rattle.room_table.specs.Seats.{caller_now};
    ghost use Rattle.purgatory.specs.Going.{IsAtRest};
    ghost use Rattle.purgatory.specs.Rooms.{PassView};

    ghost Value = { PassView };

    ghost view = { λ p. record { seat = p.owner; locks = p.keys } };

    ghost invariant = { λ p. IsAtRest (caller_now p.owner).stage };
}

impl RoomPass {
    ghost use Rattle.std.specs.Prelude.{◌≡◌, ◌↔◌, IsTrue};
    ghost use Rattle.room_core.specs.Gauges.{IsPass};
    ghost use Rattle.room_table.specs.Seats.{caller_now};
    ghost use Rattle.purgatory.specs.Ends.{IsWaiting};
    ghost use Rattle.purgatory.specs.Going.{IsAtRest};

    /// The pass's number, counted from 0.
    pub fn number(&self) -> u32
        ensures is { result ≡ self.now.seat.pass }
        ensures there { IsPass self.now.seat.table.shape result }
        ensures rests { IsAtRest (caller_now self.now.seat).stage }
    {
        self.owner.number()
    }

    /// The generation of its operation, or of the last one that it had, or 0 if it had none yet. It may register another operation if
    /// this is below 2^32 - 1.
    pub fn generation(&self) -> u32
        ensures { result ≡ (caller_now self.now.seat).generation }
    {
        self.owner.generation()
    }

    /// Whether it has an operation, which then waits.
    pub fn waits(&self) -> bool
        ensures { IsTrue result ↔ IsWaiting self.now }
    {
        !self.owner.is_idle()
    }
}
