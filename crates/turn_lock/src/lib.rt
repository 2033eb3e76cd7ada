//! A ticket lock whose history each pass can trust.
//!
//! As in a shop, a customer draws a ticket (`turn`) and waits until its number is shown. It
//! then has the value to itself, until it puts the value back and the next number is shown (`end`).
//! Who finds customers with tickets waits for a while before drawing one (`src/patience.rt` says why).
//!
//! What is new is what the lock says. Its value may keep a history (`Kept`): a list of entries that
//! each name a pass. Nothing is known of a value under a plain lock but its type. Here a pass carries
//! the history as it saw it last, and the next history that it finds begins with that one. A turn
//! adds entries of its own pass alone, so the history found has just the entries that the pass added
//! itself, in its order. When all passes are back (`close`) this holds for each of them at once. And
//! the value has a name, plain data, which stays as it was.
//!
//! # The two kinds of value
//!
//! A value with a history says what its entries are, and which pass an entry names:
//!
//! ```text
//! impl Kept for Numbers {
//!     type Entry = u64;
//!     ghost entries = { λ n. n.items.items };
//!     ghost by = { λ e. e / 1000 };                // the pass of a number is its thousands
//!     ghost name = { λ n. n.series ∷ [] };
//!     fn count(&self) -> u64 { self.items.len() as u64 }
//! }
//! ```
//!
//! A value without entries, as a shelf of things, is known by its type's own invariant and its name:
//!
//! ```text
//! impl Kept for Shelf {
//!     type Entry = ();
//!     ghost entries = { λ s. [] };
//!     ghost by = { λ e. 0 };
//!     ghost name = { λ s. s.number ∷ [] };
//!     fn count(&self) -> u64 { 0 }
//! }
//! ```
//!
//! The crate `tests_of_libraries` has both whole, with a turn of the first (`src/turn_examples.rt`).
//!
//! # How the proof goes
//!
//! The lock is an `atomic_table` with two words, the next ticket and the ticket that is served, and
//! one slot, in which the value lies. Threads share nothing else, and all of them step on it through
//! seats: a seat has a view, plain data that exists in proofs alone and that only its own steps
//! change. Here a view is a list of what passes know (`Known`): the pass's number, the lock's name,
//! the history as it was seen last, the pass's own entries, and where the pass is in the line.
//!
//! The rule (`specs/InLine.antt`) is a fact about the words, the slot and all views, which holds
//! between any two steps. It says that there is one history: that of the value at home, or, while a
//! pass has the value, the one that it found. For each pass the history begins with what the pass
//! saw, and what it has of the pass is the pass's own entries. A ticket that waits is drawn, is not
//! yet passed over, and belongs to one pass. At most one pass has the turn, and one has it exactly
//! where the value is out. Each number is in one view.
//!
//! A step is allowed where it keeps the rule, whatever the table is at that moment. Each move has one
//! lemma (`proofs/Steps.antt`):
//!
//! - Draw, a fetch-and-add of the next ticket: the ticket found was nobody's, so it now belongs to
//!   this pass. The number doesn't wrap, since a pass whose ticket is 2^62 or more waits forever.
//! - Look, a load of the ticket that is served: where it is the pass's own, no other pass can have
//!   the turn, so the value is at home. The seat takes the slot, and the view becomes its history.
//! - Lift out and put back, plain moves: a slot that a seat holds is that seat's alone.
//! - Pass on, a store of the next ticket: the history grows by entries of this pass alone, so what
//!   the other passes saw still begins it and their own entries are the same. The slot goes home.
//! - Split and join, when passes are made and come back: the views change hands and stay the same.
//!
//! At the close one seat has the views of all passes and no other view is left, so no pass has the
//! turn, the value is at home, and the rule says of its history what `close` promises.
//!
//! No proof says that a turn ever comes. How a pass waits is in `src/patience.rt`.
#![tactic(auto)]

mod crossing;
mod kept;
mod known;
mod line;
mod lock;
mod pass;
mod patience;
mod plays;
mod turn;

pub use kept::Kept;
pub use known::{Known, Stage};
pub use lock::TurnLock;
pub use pass::TurnPass;
pub use turn::Turn;
