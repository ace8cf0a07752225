//! What a desk is asked for, and what it replies.

use keys::FrameNo;
use pool::{PoolFault, PoolNo};
use records::Report;
use std::alloc::AllocError;

/// The number of a hand: the n-th granted borrow of the desk has hand n, counted from 0.
#[derive(Clone, Copy, PartialEq, Eq, Debug)]
pub struct Hand(pub usize);

/// What may be asked for. A loan is named by its hand.
#[derive(PartialEq, Eq, Debug, Drop)]
pub enum Ask<K> {
    Borrow(K),
    View(Hand),
    Alter {
        hand: Hand,
        offset: usize,
        bytes: Vec<u8>,
    },
    Return(Hand),
    Flush,
}

/// So many frame bytes, and so many cells.
#[derive(Clone, Copy, PartialEq, Eq, Debug)]
pub struct Sizes {
    pub bytes: usize,
    pub cells: usize,
}

/// What is asked for, and the memory that the call is lent: the desk's own, or other memory of these sizes.
#[derive(PartialEq, Eq, Debug, Drop)]
pub struct Order<K> {
    pub ask: Ask<K>,
    pub lent: Option<Sizes>,
}

/// A granted borrow. Its loan is in the newest hand.
#[derive(Clone, Copy, PartialEq, Eq, Debug)]
pub struct Lent<K> {
    pub frame: FrameNo,
    pub pool: PoolNo,
    pub report: Report<K>,
}

/// What a desk replies.
#[derive(PartialEq, Eq, Debug, Drop)]
pub enum Reply<K> {
    Lent(Lent<K>),
    /// A granted view: the page.
    Shown(Vec<u8>),
    /// A granted alteration or return.
    Done,
    /// A granted flush: how many pages it wrote.
    Wrote(u32),
    Refused(PoolFault),
    /// The hand has no loan: it was returned, or never granted. No call was made.
    NoLoan,
}

/// What came of a list of orders.
#[derive(PartialEq, Eq, Debug, Drop)]
pub struct Replies<K> {
    /// A reply for each order that was served, in their order.
    pub list: Vec<Reply<K>>,
    /// Whether all were served, or memory ran out before.
    pub end: Result<(), AllocError>,
}
