//! The page pool: frames that hold pages of a larger store, over the CLOCK-Pro ring, for any store and any kind of key.

#![tactic(auto)]

mod calls;
mod faults;
mod flushing;
mod moving;
mod opening;
mod state;

pub use faults::PoolFault;
pub use state::{Loan, Pool, PoolNo};
