//! Laws of loads. They do nothing.

ghost use Rattle.std.specs.Prelude.{◌≡◌, ◌<◌, ◌≤◌, ◌+◌, ℕ, Contains};
ghost use Rattle.std.specs.List.{flat_map};
ghost use Rattle.storm.specs.Places.{batches_before, batches_by, kind_of};
ghost use Rattle.storm.specs.Lines.{storm_lines};
ghost use Rattle.storm.specs.Requests.{ask_of};
ghost use Rattle.storm.specs.Waits.{WaitsBriefly, drained_by};
ghost use Rattle.trace_file.specs.declared.line.Line.{Line as TheLine};
ghost use Rattle.trace_file.specs.PrintedLine.{text_of};
ghost use Rattle.trace_file.specs.Trace.{IsTrace};

use crate::asking::LONGEST_WAIT;
use crate::load::{MOST_REQUESTS, MOST_STEP};
use trace_file::{LAST_MOMENT, read_back};

/// Law: the lines of every load are those of a trace, whose text is theirs, one after the other.
pub fn loads_are_traces()
    ensures { (seed n : ℕ) → n ≤ MOST_REQUESTS → IsTrace (flat_map text_of (storm_lines seed n)) (storm_lines seed n) }
{
    read_back();
}

/// Law: the offset from which a block's followers fetch counts the batches of every block before it.
pub fn each_block_is_counted()
    ensures first { batches_before 0 ≡ 0 }
    ensures next { (block : ℕ) → batches_before (block + 1) ≡ batches_before block + batches_by (kind_of block) }
{}

/// Law: the draining of every load ends below the limit of moments. Each request waits at most `LONGEST_WAIT`, and no moment of the
/// load's lines is so late that the clock could not go on by a step for each request, and by one deadline and one step more.
pub fn loads_can_be_drained()
    ensures waits { (x i : ℕ) → WaitsBriefly (ask_of x i) }
    ensures step { LONGEST_WAIT < MOST_STEP }
    ensures limit { (seed n t : ℕ) → n ≤ MOST_REQUESTS → Contains (storm_lines seed n) (TheLine.Clock t) → drained_by n t < LAST_MOMENT }
{}
