//! The point of an entry, for the calls of `call_turns`: it is put down before the turn, and filled in or taken back after it.
ghost use Rattle.std.specs.Prelude.{◌≡◌, [], ◌∷◌, ◌++◌, List as Items, OnErr, OnOk};
ghost use Rattle.audit.specs.declared.account.Point.{Point as ThePoint};

use audit::Point;
use kbytes::{List, NoMemory};

/// Puts a point down whose place isn't known yet.
pub(crate) fn put_down(points: &mut List<Point>, part: u32) -> Result<(), NoMemory>
    ensures put { OnOk result (points.new ≡ points.old ++ record { part = part; place = 0 } ∷ []) }
    ensures refused { OnErr result (points.new ≡ points.old) }
{
    points.push(Point { part, place: 0 })
}

/// The entry of the last point is at this place.
pub(crate) fn fill_in(points: &mut List<Point>, place: u64)
    ensures { (front : Items ThePoint) (last : ThePoint) → points.old ≡ front ++ last ∷ []
        → points.new ≡ front ++ record last { place = place } ∷ [] }
{
    if let Some(last) = points.as_mut_slice().last_mut() {
        last.place = place;
    }
}

/// The last point has no entry.
pub(crate) fn take_back(points: &mut List<Point>)
    ensures { (front : Items ThePoint) (last : ThePoint) → points.old ≡ front ++ last ∷ [] → points.new ≡ front }
{
    let _taken = points.pop();
}
