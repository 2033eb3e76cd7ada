//! A recorded trace that several threads play on one broker.
//!
//! A session of the trace (`TraceSession`) acts by a pass of the shared broker: it takes the bytes of its lines, handles one frame after the other,
//! waits while a request waits, and ends as its input shows. Its transcript fits what it received (`HasReceived`, `Rests`). A worker (`Worker`) has
//! some of the sessions, and perhaps the clock. It plays the lines that are its own, in their order, and after each lets its sessions go on until
//! none can. [`run_lines`] deals sessions and clock to workers, lets each play its lines in a thread of its own, and then goes on alone until
//! nothing can act any more. However the threads interleave, the account is lawful and is that of the lines (`IsWorkerRun`).
//!
//! # The course of a run
//!
//! ```text
//! deal      each pass of a new broker becomes a session's, the last one the clock's; of W workers, worker w has the sessions w, w + W, w + 2 W ..
//! work      each worker plays the lines that are its own, in their order
//! gather    one thread has all sessions and the clock again
//! close     they go on until none can act, and the broker is closed; if a request was won meanwhile, it is collected and they go on again
//! ```
#![tactic(auto)]

mod crossing;
mod dealing;
mod desk;
mod gate;
mod giving_back;
mod joined;
mod loading;
mod played;
mod print_part;
mod promises;
mod reply_lines;
mod runs;
mod session;
mod session_promises;
mod steps;
mod stored;
mod worker;

pub use desk::Desk;
pub use gate::{Gate, NoGate};
pub use giving_back::give_back;
pub use print_part::PrintPart;
pub use promises::{joined_accounts_are_runs, traces_have_runs};
pub use runs::{print_lines, run_lines, run_load};
pub use session::TraceSession;
pub use session_promises::resting_sessions_fit;
pub use worker::Worker;
