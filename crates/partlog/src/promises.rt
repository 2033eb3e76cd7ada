//! Laws of a log and its history. They do nothing.
ghost use Rattle.std.specs.Prelude.{ℕ, ◌≤◌, List, ◌++◌};
ghost use Rattle.partlog.specs.declared.clock_event.ClockEvent.{ClockEvent};
ghost use Rattle.partlog.specs.declared.event.PartEvent.{PartEvent};
ghost use Rattle.partlog.specs.Fallen.{NoneFell};
ghost use Rattle.partlog.specs.Gauges.{numbers_of};
ghost use Rattle.partlog.specs.History.{History};
ghost use Rattle.partlog.specs.Kept.{IsKept};
ghost use Rattle.partlog.specs.Moment.{moment_of};
ghost use Rattle.partlog.specs.Readable.{IsReadable};
ghost use Rattle.partlog.specs.State.{state_of, state_before, front_of};

/// Law: reading a log up to its visible bytes reads the batches wholly below the high watermark, and reading it up to its
/// end bytes reads all. The same holds of each earlier state of the log with the numbers of that state, whatever was
/// appended since.
pub fn visible_is_readable()
    ensures now { (history : History) → IsKept history.log history.events
        → IsReadable (state_of history).batches (state_of history) }
    ensures before { (history : History) (place : ℕ) → IsKept history.log history.events
        → IsReadable (state_of history).batches (state_before history place) }
{}

/// Law: the invariant of a log and its history also held at each earlier place of the history.
pub fn fronts_are_kept()
    ensures { (history : History) (place : ℕ) → IsKept history.log history.events
        → IsKept (front_of history place).log (front_of history place).events }
{}

/// Law: while a history only grows, neither the log end, the high watermark, the visible bytes, the end bytes nor the
/// clock's moment falls.
pub fn numbers_never_fall()
    ensures grown { (log bytes : List ℕ) (followers : ℕ) (events more : List PartEvent) → IsKept log events
        → NoneFell (numbers_of (state_of (record { log = log; followers = followers; events = events })))
        (numbers_of (state_of (record { log = log ++ bytes; followers = followers; events = events ++ more }))) }
    ensures along { (history : History) (place later : ℕ) → IsKept history.log history.events → place ≤ later
        → NoneFell (numbers_of (state_before history place)) (numbers_of (state_before history later)) }
    ensures moment { (events more : List ClockEvent) → moment_of events ≤ moment_of (events ++ more) }
{}
