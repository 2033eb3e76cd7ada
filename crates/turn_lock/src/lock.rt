ghost use Rattle.std.specs.Prelude.{◌≡◌, ◌≤◌};

use crate::kept::Kept;
use crate::line::{About, Board, Place, SERVING, TICKET, VALUE};
use crate::pass::TurnPass;
use crate::patience::{Benches, Patience, sleep_on};
use crate::plays::{Draw, HandOut, Look, PassOn, TakeBack};
use crate::turn::Turn;
use atomic_table::Table;
use kbytes::{List, NoMemory};
use std::alloc::Global;
use std::snapshot::Snapshot;
use std::sync::Wait;

// The first ticket that is never served.
const LATE: u64 = 1 << 62;

/// A ticket lock round one value. A pass draws its ticket once nobody else has one, or after it has waited for that.
#[derive(Drop)]
pub struct TurnLock<T: Kept> {
    board: Board<T>,
    passes: u32,
    benches: Benches,
    ghost sized: { (board.shared.table_id.words ≡ 2) × (board.shared.table_id.slots ≡ 1) },
    ghost some: { 1 ≤ passes },
    ghost counted: { passes ≡ board.shared.key.passes },
}

impl<T: Kept> TurnLock<T> {
    ghost use Rattle.std.specs.Prelude.{ℕ, ◌==◌, ◌<◌, ◌^◌, List as Items, [], ◌∷◌, ◌++◌, map, length, drop, count_by, All, IfOk};
    ghost use mathlib.Core.Option.{none};
    ghost use Rattle.turn_lock.specs.declared.known.Stage.TheVariants.{Idle, Has};
    ghost use Rattle.turn_lock.specs.StartsWith.{StartsWith};
    ghost use Rattle.turn_lock.specs.OfPass.{of_pass};
    ghost use Rattle.turn_lock.specs.AddedBy.{AddedBy};
    ghost use Rattle.turn_lock.specs.Passes.{at_stage, known_of, IsOut, fresh, fresh_from, begun, ended};
    ghost use Rattle.turn_lock.specs.Moves.{stage_of, Took};
    ghost use Rattle.turn_lock.specs.Turns.{HasTurn};
    ghost use Rattle.turn_lock.specs.Locks.{lock_id, lock_name, lock_passes, known, IsPassOf, IsReady, AreFresh};

    /// A lock round a value that has no entries, and its passes in the order of their numbers.
    /// It is refused where no memory is left, and the value is dropped.
    pub fn make(
        alloc: Global,
        value: T,
        passes: u32,
    ) -> Result<(TurnLock<T>, List<TurnPass<T>>), NoMemory>
    where
        T: Drop,
        requires some { 1 ≤ passes }
        requires empty { T.entries value ≡ [] }
        ensures lock { IfOk result (λ r. (lock_name T.name r.0 ≡ T.name value) × (lock_passes r.0 ≡ passes)) }
        ensures passes { IfOk result (λ r. (length r.1 ≡ passes) × AreFresh (lock_id r.0) (T.name value) r.1) }
    {
        let about = About {
            passes,
            value: Snapshot::of(&value),
        };
        let mut slots = Vec::with_capacity(alloc, 1)?;
        slots.push(Some(value))?;
        let Ok((board, seat)) = Table::new(alloc, &[0, 0], slots, &about) else {
            return Err(NoMemory);
        };
        let lock = TurnLock {
            board,
            passes,
            benches: Benches::new(),
        };
        let all = lock.hand_out(alloc, seat)?;
        Ok((lock, all))
    }

    // The passes, in the order of their numbers.
    fn hand_out(&self, alloc: Global, mut seat: Place<T>) -> Result<List<TurnPass<T>>, NoMemory>
        requires { (seat.table_id ≡ lock_id self.now)
            × (seat.me ≡ (fresh_from (lock_name T.name self.now) 0 self.now.passes, [])) }
        ensures { IfOk result (λ all. (length all ≡ lock_passes self.now)
            × AreFresh (lock_id self.now) (lock_name T.name self.now) all) }
    {
        let mut all = List::new(alloc);
        for number in 0..self.passes {
            let seat = self.board.shared.split_seat::<HandOut>(&mut seat);
            all.push(TurnPass { seat })?;
        }
        Ok(all)
    }

    // Draws a ticket.
    fn draw(&self, seat: &mut Place<T>) -> u64
        requires { (seat.old.table_id ≡ lock_id self.now)
            × (seat.old.me ≡ (at_stage Idle (known_of seat.old.me.0) ∷ [], [])) }
        ensures { (seat.new.table_id ≡ seat.old.table_id) × (seat.new.id ≡ seat.old.id)
            × (seat.new.me ≡ (at_stage (stage_of result) (known_of seat.old.me.0) ∷ [], [])) }
    {
        self.board.shared.fetch_add::<Draw>(seat, TICKET, 1)
    }

    // Waits a little for the turn of the ticket, while this one is served. Apart from `wait`, which seldom needs it.
    #[inline(never)]
    fn pause<R: Wait>(&self, rt: &R, patience: &mut Patience, ticket: u64, serving: u64) {
        if patience.rest(ticket.saturating_sub(serving)) {
            return;
        }
        let top = &self.board.shared;
        if self.benches.sleep::<T>(rt, top, ticket, patience.sleep()) {
            patience.wake();
        }
    }

    // Waits for the turn of the ticket. It is over at once where nobody else wants the lock, so it is put into what calls it.
    #[inline(always)]
    fn wait<R: Wait>(&self, rt: &R, seat: &mut Place<T>, ticket: u64)
        requires { (seat.old.table_id ≡ lock_id self.now)
            × (seat.old.me ≡ (at_stage (stage_of ticket) (known_of seat.old.me.0) ∷ [], [])) }
        ensures { (seat.new.table_id ≡ seat.old.table_id) × (seat.new.id ≡ seat.old.id) × (ticket < 2 ^ 62)
            × Took T.entries T.by T.name ticket (known_of seat.old.me.0) seat.new.me }
    {
        let mut patience = Patience::new();
        for _ in rt.forever() {
            let top = &self.board.shared;
            if ticket >= LATE {
                sleep_on::<T>(rt, top);
                continue;
            }
            let serving = top.load::<Look>(seat, SERVING);
            if serving == ticket {
                return;
            }
            self.pause(rt, &mut patience, ticket, serving);
        }
        unreachable!()
    }

    /// Waits for the pass's turn. The history found begins with all that the pass had seen, and has of the pass
    /// just those entries that it added.
    #[inline(always)]
    pub fn turn(&self, rt: &impl Wait, pass: &mut TurnPass<T>) -> Turn<T>
        requires pass { IsPassOf T.name self.now pass.old × IsReady pass.old }
        ensures name { (T.name result.value ≡ lock_name T.name self.now) }
        ensures history { StartsWith (T.entries result.value) (known pass.old).seen }
        ensures own { of_pass T.by (known pass.old).number (T.entries result.value) ≡ (known pass.old).mine }
        ensures pass { IsPassOf T.name self.now pass.new × HasTurn pass.new result
            × (known pass.new ≡ begun T.entries result.ticket result.value (known pass.old)) }
    {
        self.benches.come::<T>(rt, &self.board.shared);
        let ticket = self.draw(&mut pass.seat);
        self.wait(rt, &mut pass.seat, ticket);
        let found = self.board.shared.exchange(&mut pass.seat, VALUE, None);
        let Some(value) = found else { unreachable!() };
        Turn {
            value,
            ticket,
            from: Snapshot::of(&pass.seat),
        }
    }

    /// Puts the value back and passes the turn on. The pass has seen the value's history.
    #[inline(always)]
    pub fn end(&self, pass: &mut TurnPass<T>, turn: Turn<T>)
        requires pass { IsPassOf T.name self.now pass.old × HasTurn pass.old turn }
        requires name { T.name turn.value ≡ lock_name T.name self.now }
        requires history { AddedBy T.by (known pass.old).number (known pass.old).seen (T.entries turn.value) }
        ensures pass { IsPassOf T.name self.now pass.new × IsReady pass.new }
        ensures seen { known pass.new ≡ ended T.entries turn.value (known pass.old) }
    {
        let Turn {
            value,
            ticket,
            from: _,
        } = turn;
        let shared = &self.board.shared;
        let found = shared.exchange(&mut pass.seat, VALUE, Some(value));
        let None = found else { unreachable!() };
        shared.store::<PassOn>(&mut pass.seat, SERVING, ticket + 1);
        self.benches.wake::<T>(shared, ticket + 1);
    }

    // Takes all passes back into one seat.
    fn gather(&self, mut passes: List<TurnPass<T>>) -> Place<T>
        requires some { 0 < length passes }
        requires each { All (λ p. IsPassOf T.name self.now p × IsReady p) passes }
        ensures { (result.table_id ≡ lock_id self.now) × (result.me ≡ (map known passes, [])) }
    {
        let Some(last) = passes.pop() else {
            unreachable!()
        };
        let mut all = last.into_seat();
        while let Some(pass) = passes.pop() {
            let mut seat = pass.into_seat();
            self.board.shared.join_seat::<TakeBack>(&mut seat, all);
            all = seat;
        }
        all
    }

    /// Takes all passes back, and gives the value out. They are different passes, and all that the lock has. The
    /// history begins with what each pass had seen, and has each pass's own entries once, in its order, and no other
    /// entries.
    pub fn close(self, passes: List<TurnPass<T>>) -> T
        requires all { length passes ≡ lock_passes self }
        requires each { All (λ p. IsPassOf T.name self p × IsReady p) passes }
        ensures name { T.name result ≡ lock_name T.name self }
        ensures each { All (λ p. StartsWith (T.entries result) (known p).seen
            × (of_pass T.by (known p).number (T.entries result) ≡ (known p).mine)) passes }
        ensures whose { All (λ e. T.by e < lock_passes self) (T.entries result) }
        ensures once { (number : ℕ) → number < lock_passes self
            → count_by (λ p. (known p).number == number) passes ≡ 1 }
    {
        let seat = self.gather(passes);
        let TurnLock {
            board,
            passes: _,
            benches: _,
        } = self;
        let mut closed = board.close_with(seat);
        let found = closed.take(VALUE);
        closed.free();
        let Some(value) = found else { unreachable!() };
        value
    }
}
