ghost use Rattle.std.specs.Prelude.{ℕ, ◌+◌, ◌<◌, ◌≤◌, ◌^◌};
ghost use Rattle.timing_wheel.specs.Place.{end_of, level_of};

use crate::numbers::LEVELS;
use crate::timer::Timer;

/// Law: a deadline less than 2^31 ms ahead has a level. Its wheel ends past the deadline, and no
/// lower one does.
pub fn level_exists(timer: Timer)
    requires past { timer.put < timer.deadline }
    requires near { timer.deadline < timer.put + 2 ^ 31 }
    ensures level { level_of timer < LEVELS }
    ensures reaches { timer.deadline < end_of (level_of timer) timer.put }
    ensures least { (lower : ℕ) → lower < level_of timer → end_of lower timer.put ≤ timer.deadline }
{}
