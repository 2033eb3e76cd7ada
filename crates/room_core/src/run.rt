//! A whole run from the start, as tests make it: its clauses say of the code's tables what the laws say of every run.
ghost use Rattle.std.specs.Prelude.{ℕ, IfOk};
ghost use Rattle.room_core.specs.Carried.{IsCarried};
ghost use Rattle.room_core.specs.Duty.{IsOpen, IsOverdueNow, IsSatisfiedNow};
ghost use Rattle.room_core.specs.Gauges.{IsShape};
ghost use Rattle.room_core.specs.Quiet.{IsQuiet};
ghost use Rattle.room_core.specs.Run.{IsRun};
ghost use Rattle.room_core.specs.Sound.{IsSound};
ghost use Rattle.room_core.specs.Start.{start_of};
ghost use Rattle.room_core.specs.Tables.{state_of};

use crate::core_state::CoreState;
use crate::event::CoreEvent;
use crate::shape::Shape;
use kbytes::NoMemory;
use std::alloc::Global;

/// The room after these events from the start. An event that isn't allowed changes nothing. The room is sound, and where nothing is
/// left to do in it no open operation is answerable.
pub fn run_events(alloc: Global, shape: Shape, events: &[CoreEvent]) -> Result<CoreState, NoMemory>
    requires { IsShape shape }
    ensures run { IfOk result (λ s. IsRun (start_of shape) events.now (state_of s)) }
    ensures carried { IfOk result (λ s. IsCarried (state_of s)) }
    ensures sound { IfOk result (λ s. IsSound (state_of s)) }
    ensures quiet { IfOk result (λ s. IsQuiet (state_of s) → (pass : ℕ) → IsOpen (state_of s) pass
        → (IsSatisfiedNow (state_of s) pass → ⊥) × (IsOverdueNow (state_of s) pass → ⊥)) }
{
    let mut state = CoreState::start(alloc, shape)?;
    for event in events {
        let _made = state.step(*event)?;
    }
    Ok(state)
}
