//! The values of an operation's gauges, as the pass reads them in the room: `completing` reads until they satisfy the operation, and
//! `looking` waits for states that are no older.
ghost use Rattle.std.specs.Prelude.{◌≡◌, ℕ, ◌*◌, ◌≤◌, All, length};
ghost use Rattle.kanswer.specs.Waiting.{gauge_value};
ghost use Rattle.opcond.specs.Tally.{IsSatisfied};
ghost use Rattle.partlog.specs.State.{PartState};
ghost use Rattle.purgatory.specs.Going.{KeepsOperation};
ghost use Rattle.room_table.specs.Seats.{caller_now};
ghost use Rattle.shared_logs.specs.Coming.{HasStepped};
ghost use Rattle.shared_calls.specs.declared.values.TheConstants.{MOST_NEEDS};
ghost use Rattle.shared_calls.specs.Fresh.{IsFresh};

use opcond::{Need, Op, is_satisfied};
use shared_logs::call_turns::Caller;
use shared_logs::{LogPass, SharedLogs};
use std::sync::Wait;

/// The most needs of an operation.
pub(crate) const MOST_NEEDS: usize = 64;

/// A value for each need of an operation, in their order, before others.
pub(crate) type Values = [u64; MOST_NEEDS];

// Each need's gauge is read once.
fn read_values(logs: &SharedLogs, pass: &mut LogPass, needs: &[Need]) -> Values
    requires made { pass.old.made ≡ logs.now }
    requires few { length needs.now ≤ MOST_NEEDS }
    requires gauges { All (λ need. need.gauge ≤ 3 * length logs.now.parts) needs.now }
    ensures made { pass.new.made ≡ logs.now }
    ensures stepped { HasStepped pass.old pass.new }
    ensures kept { KeepsOperation (caller_now pass.old.seat) (caller_now pass.new.seat) }
{
    let mut values = [0; MOST_NEEDS];
    for at in 0..needs.len() {
        values[at] = logs.gauge(pass, needs[at].gauge);
    }
    values
}

/// Reads the gauges until their values satisfy the operation.
pub(crate) fn satisfying(by: &Caller<'_, '_, impl Wait>, pass: &mut LogPass, op: &Op) -> Values
    requires made { pass.old.made ≡ by.now.logs.now }
    requires gauges { All (λ need. need.gauge ≤ 3 * length by.now.logs.now.parts) op.now.needs }
    ensures made { pass.new.made ≡ by.now.logs.now }
    ensures stepped { HasStepped pass.old pass.new }
    ensures kept { KeepsOperation (caller_now pass.old.seat) (caller_now pass.new.seat) }
    ensures satisfied { IsSatisfied op.now result }
{
    let needs = op.needs();
    for _ in by.rt.forever() {
        let values = read_values(by.logs, pass, needs);
        if is_satisfied(op, &values[..needs.len()]) {
            return values;
        }
    }
    unreachable!()
}

/// The greatest of the values that were read for a need of this gauge; 0 where there is none.
pub(crate) fn least_of(needs: &[Need], values: &Values, gauge: u32) -> u64
    requires few { length needs.now ≤ MOST_NEEDS }
    ensures { (gauges : ℕ → ℕ) (part : ℕ) (state : PartState) → gauges part ≡ gauge → result ≤ gauge_value gauge state
        → IsFresh gauges needs.now values.now part state }
{
    let mut least = 0;
    for at in 0..needs.len() {
        if needs[at].gauge == gauge {
            least = least.max(values[at]);
        }
    }
    least
}
