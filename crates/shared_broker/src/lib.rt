//! The broker that threads share: produce and fetch requests on partitions behind locks, and a room in which requests wait that can't be answered
//! yet.
//!
//! # The calls
//!
//! ```text
//! let (broker, passes) = Broker::make(alloc, config, count)?;      // a pass for each thread or session
//!
//! broker.begin(pass, number);                                      // a session begins
//! match broker.handle(rt, pass, frame) {                           // one request, without its size
//!     Handled::Reply(frame) => ..                                  // the whole frame of the reply
//!     Handled::Quiet => ..                                         // it asks for none
//!     Handled::Parked { deadline } => ..                           // it waits
//!     Handled::Ended(end) => ..                                    // it is no request; the session is to be finished so
//!     Handled::NoMemory => ..
//! }
//! broker.wait(rt, pass, most);                                     // sleeps while it waits
//! broker.collect(rt, pass)                                         // NotYet while it waits, and then the reply
//! broker.tick(rt, pass, t)?;                                       // moves the clock to t; who lags leaves the in-sync set
//! broker.finish(pass, end)?;
//!
//! match broker.close(rt, passes) { BrokerEnd::Closed(account) => .. }
//! ```
//!
//! Where the replies are neither sent nor kept, as in a storm, there are `handle_unsent` and `collect_unsent`: they make no frames. Where a reply is
//! kept until the broker is closed, `find` tells in which log its records stand, so that they needn't be kept.
//!
//! However the threads interleave, the account of `close` is lawful (`HasClosed`): each pass keeps a book of what it saw and did
//! (`books` of `audit`), and the books of all passes make one account.
#![tactic(auto)]

mod broker;
mod calling;
mod closing;
mod collecting;
mod completing;
mod crossing;
mod current;
mod finding;
mod parked;
mod pass;
mod sessions;

pub use broker::Broker;
pub use calling::Handled;
pub use closing::BrokerEnd;
pub use collecting::Collected;
pub use finding::{LogRange, Sought};
pub use parked::Parked;
pub use pass::Pass;
