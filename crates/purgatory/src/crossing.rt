//! A check by the compiler, which nobody calls: threads may share a room, and a room, its passes, its sources and a still room may
//! go to another thread.
use crate::closing::StillRoom;
use crate::pass::RoomPass;
use crate::room::Room;
use crate::source::Source;

fn may_go<X: Send>(_value: &X) {}

fn may_be_shared<X: Sync>(_value: &X) {}

fn cross(room: &Room, pass: &RoomPass, source: &Source, still: &StillRoom) {
    may_be_shared(room);
    may_go(room);
    may_go(pass);
    may_go(source);
    may_go(still);
}
