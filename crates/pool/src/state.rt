//! The pool and a loan, as values.

ghost use Rattle.std.specs.Prelude.{◌≡◌};

use keys::FrameNo;
use ring::Ring;

/// The number of a pool, given to it when it is opened. It tells the loans of one pool from those of another.
#[derive(Clone, Copy, PartialEq, Eq, Debug)]
pub struct PoolNo(pub u32);

/// An open pool: plain numbers. Its frame bytes, its cells and its store are lent to each call.
#[derive(Drop)]
pub struct Pool {
    pub(crate) number: PoolNo,
    /// m, how many frames it has.
    pub(crate) frames: u32,
    pub(crate) ring: Ring,
}

/// A loan: the right to look at the page in a frame, elsewhere called a pin. Only a granted borrow makes one, nothing
/// doubles it, and it is not `Drop`: whoever has one returns it.
pub struct Loan {
    pub(crate) frame: FrameNo,
    pub(crate) pool: PoolNo,
}

impl Loan {
    /// The frame that the page lies in.
    pub fn frame(&self) -> FrameNo
        ensures { result ≡ self.now.frame }
    {
        self.frame
    }

    /// The number of the pool that granted it.
    pub fn pool(&self) -> PoolNo
        ensures { result ≡ self.now.pool }
    {
        self.pool
    }
}

impl Pool {
    /// The pool's number.
    pub fn number(&self) -> PoolNo
        ensures { result ≡ self.now.number }
    {
        self.number
    }

    /// m, how many frames the pool has.
    pub fn frame_count(&self) -> u32
        ensures { result ≡ self.now.frames }
    {
        self.frames
    }
}
