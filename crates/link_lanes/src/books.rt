//! The books of lanes: what each of the threads that serve connections knows of the links that it served, and what all of these books
//! say together of the account and of the links.
//!
//! A lane takes one link after the other, serves it on its pass of the broker, and retires it. Its book has the numbers that it
//! accepted, those that it passed on to other lanes and took from them, and those that it retired, each with the link as it then was.
//! The lanes' proofs cite how a book goes on when a link was served, and that the books of all lanes give each link one transcript, which
//! fits what the link's peer sent and was sent (`AreServed`). No code of this module runs.

mod promises;

pub use promises::{books_are_served, served_accounts_are_printable, served_links_are_booked};
