//! The specification of the broker: histories, sessions, and one unordered list of waiting requests, which is scanned after
//! every line.
//!
//! The broker on one thread cites the play of lines (`specs/broker/Play.antt`), and four laws: every list of lines plays to one account
//! and one text, the account is lawful, it is that of the run of the lines, and after each line the broker is at rest.
//!
//! The broker that threads share cites the books of its passes (`specs/broker/books.antt`): that the account of all books is lawful, and
//! how a book goes on when its pass acts (`proofs/broker/books/Laws.antt`). No code of this part runs.

pub mod books;
mod promises;

pub use books::{
    books_are_lawful, books_go_on, calls_are_accepted, calls_are_completed, replies_stay,
    winners_are_counted, worked_books, worked_leaves, worked_waits,
};
pub use promises::{
    lines_play, play_is_lawful, play_is_run, play_rests, worked_play, worked_scans, worked_ticks,
};
