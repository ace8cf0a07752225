//! A desk: a pool whose loans are kept in hands. It serves one order, or a list of them one after another, and
//! the promise over every history stands after each.

#![tactic(auto)]

mod calling;
mod hands;
mod orders;
mod serving;
mod state;

pub use orders::{Ask, Hand, Lent, Order, Replies, Reply, Sizes};
pub use serving::{blank_cells, serve};
pub use state::Desk;
