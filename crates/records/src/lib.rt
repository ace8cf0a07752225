//! What everyone who keeps a ring has in common: the entry of a key, the steps of the three hands, and the answer to a
//! borrow. How each is read as the list machine's stands in specs/Reading.antt.

#![tactic(auto)]

mod answers;
mod entry;

pub use answers::{Granted, Outcome, Refusal, Report, Room, Steps};
pub use entry::{Entry, lower, raise};
