//! The desk as a value.

use pool::{Loan, Pool};

/// A pool whose loans are kept in hands: the n-th granted borrow has hand n, which is empty once its loan was returned.
pub struct Desk {
    pub pool: Pool,
    pub hands: Vec<Option<Loan>>,
}
