//! The table itself: `purgatory` makes it once for a room, and gets all seats with it. When they are all back, only the words
//! are left.
ghost use Rattle.std.specs.Prelude.{◌≡◌, ◌<◌, ◌++◌, [], IfOk, length, slice_index};
ghost use Rattle.room_core.specs.Gauges.{IsShape};
ghost use Rattle.room_table.specs.Closing.{AreAllBack, closing_view};
ghost use Rattle.room_table.specs.Handed.{AreCallers, AreScanners, AreShown, AreSources, fresh_callers, fresh_scanners, fresh_sources};

use crate::hand::{
    hand_callers, hand_scanners, hand_sources, take_callers, take_scanners, take_sources,
};
use crate::layout::size;
use crate::plays::TakeBack;
use crate::rule::{Board, Place, Top};
use crate::seats::{CallerSeat, ScanSeat, SourceSeat};
use crate::sleepers::Sleepers;
use atomic_table::{Closed, Table};
use kbytes::{List, NoMemory};
use room_core::Shape;
use std::alloc::Global;
use std::marker::Model;

/// The words of the room, which threads share.
#[derive(Drop)]
pub struct RoomTable {
    pub(crate) board: Board,
    pub(crate) shape: Shape,
    pub(crate) sleepers: Sleepers,
}

impl Model for RoomTable {
    ghost use Rattle.std.specs.Prelude.{◌≡◌};
    ghost use Rattle.room_core.specs.Gauges.{IsShape};
    ghost use Rattle.room_table.specs.Layout.{size_of};
    ghost use Rattle.room_table.specs.Seats.{TableView, table_view};

    ghost Value = { TableView };

    ghost view = { λ t. table_view t.board.shared.table_id t.shape };

    ghost invariant = { λ t. IsShape t.shape × (t.board.shared.key ≡ t.shape) × (t.board.shared.table_id.words ≡ size_of t.shape) × (t.board.shared.table_id.slots ≡ 0) };
}

/// A new table and its seats.
#[derive(Drop)]
pub struct TableParts {
    pub table: RoomTable,
    /// By gauge.
    pub sources: List<SourceSeat>,
    /// By pass.
    pub callers: List<CallerSeat>,
    /// By number; the clock's scanner is the last.
    pub scanners: List<ScanSeat>,
}

/// The words of a closed table. A contract sees the list of them.
pub struct TableWords {
    closed: Closed<u64, Global>,
}

impl Model for TableWords {
    ghost use Rattle.std.specs.Prelude.{◌≡◌, ℕ, List as Items};
    ghost use Rattle.std.specs.Slots.{slots_items, slots_len, IsFull};

    ghost Value = { Items ℕ };

    ghost view = { λ w. slots_items w.closed.words };

    ghost invariant = { λ w. IsFull w.closed.words × (slots_len w.closed.slots ≡ 0) };
}

impl Drop for TableWords {
    fn drop(self) {
        let Self { closed } = self;
        closed.free();
    }
}

impl TableWords {
    /// The word with this number.
    pub fn word(&self, at: u32) -> u64
        requires { at < length self.now }
        ensures { result ≡ slice_index self.now at }
    {
        self.closed.word(at as usize)
    }
}

impl RoomTable {
    /// A table of this shape, whose words are all 0, and its seats. Fails only when out of memory.
    pub fn make(alloc: Global, shape: Shape) -> Result<TableParts, NoMemory>
        requires { IsShape shape }
        ensures shape { IfOk result (λ p. p.table.shape ≡ shape) }
        ensures sources { IfOk result (λ p. p.sources ≡ fresh_sources p.table) }
        ensures callers { IfOk result (λ p. p.callers ≡ fresh_callers p.table) }
        ensures scanners { IfOk result (λ p. p.scanners ≡ fresh_scanners p.table) }
    {
        let words = vec![in alloc; 0; size(shape)]?;
        let (board, mut seat) = Table::of_words(alloc, words.as_slice(), &shape)?;
        let top: &Top = &board.shared;
        let sources = hand_sources(alloc, top, shape, &mut seat)?;
        let callers = hand_callers(alloc, top, shape, &mut seat)?;
        let scanners = hand_scanners(alloc, top, shape, seat)?;
        Ok(TableParts {
            table: RoomTable {
                board,
                shape,
                sleepers: Sleepers::none(),
            },
            sources,
            callers,
            scanners,
        })
    }

    /// Takes all seats back, and returns the words. The words and what the seats know show a state that the room's machine carries,
    /// and each part of it is one seat's.
    pub fn close(
        self,
        sources: List<SourceSeat>,
        callers: List<CallerSeat>,
        mut scanners: List<ScanSeat>,
    ) -> TableWords
        requires sources { AreSources self sources }
        requires callers { AreCallers self callers }
        requires scanners { AreScanners self scanners }
        ensures { AreShown self sources callers scanners result }
    {
        let some = self.shape.scanners > 0;
        prove!(some);
        let Some(last) = scanners.pop() else {
            unreachable!()
        };
        let mut closing = self.closing(last);
        take_scanners(&mut closing, scanners);
        take_callers(&mut closing, callers);
        take_sources(&mut closing, sources);
        closing.close()
    }

    // A seat comes back into another.
    pub(crate) fn take_back(&self, seat: &mut Place, other: Place)
        requires seats { (seat.old.table_id ≡ self.now.id) × (other.table_id ≡ self.now.id) }
        requires none { other.me.1 ≡ [] }
        ensures table { seat.new.table_id ≡ seat.old.table_id }
        ensures parts { seat.new.me ≡ (other.me.0 ++ seat.old.me.0, seat.old.me.1) }
    {
        self.board.shared.join_seat::<TakeBack>(seat, other);
    }

    // The words, once all seats have come back into this one.
    pub(crate) fn words_by(self, seat: Place) -> TableWords
        requires table { seat.table_id ≡ self.id }
        requires all { AreAllBack (closing_view self seat.me.0) }
        ensures { let back = closing_view self seat.me.0 in AreShown self back.sources back.callers back.scanners result }
    {
        let RoomTable {
            board,
            shape: _,
            sleepers: _,
        } = self;
        TableWords {
            closed: board.close_with(seat),
        }
    }
}
