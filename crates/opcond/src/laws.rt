//! Laws of tallies. They do nothing.
ghost use Rattle.std.specs.Prelude.{◌≡◌, ℕ, ◌+◌, ◌<◌, ◌≤◌, List, length, slice_index, slice_index_or, slice_set};
ghost use Rattle.opcond.specs.declared.need.Need.{Need as OneNeed};
ghost use Rattle.opcond.specs.Operation.{Operation};
ghost use Rattle.opcond.specs.Rising.{HaveRisen};
ghost use Rattle.opcond.specs.Tally.{IsOverdue, IsSatisfied, counted, tally};

/// Law: a tally never falls when values rise.
pub fn tally_rises()
    ensures { (needs : List OneNeed) (before after : List ℕ) → HaveRisen before after
        → tally needs before ≤ tally needs after }
{}

/// Law: where one value changes, the part of its own need changes, and no other.
pub fn one_part_changes()
    ensures { (needs : List OneNeed) (values : List ℕ) (i value : ℕ) (need : OneNeed)
        → i < length needs → i < length values
        → tally needs (slice_set values i value) + counted (slice_index_or needs i need) (slice_index values i)
        ≡ tally needs values + counted (slice_index_or needs i need) value }
{}

/// Law: what is satisfied stays so when values rise, and what is overdue stays so when the clock does.
pub fn answerable_stays()
    ensures satisfied { (op : Operation) (before after : List ℕ) → HaveRisen before after
        → IsSatisfied op before → IsSatisfied op after }
    ensures overdue { (op : Operation) (moment later : ℕ) → moment ≤ later
        → IsOverdue op moment → IsOverdue op later }
{}
