//! The entry of a ring, the questions that are asked of it, and the cold allocation.

ghost use Rattle.std.specs.Prelude.{◌≡◌};
ghost use Rattle.machine.specs.Hands.{lowered, raised};
ghost use Rattle.records.specs.Questions.{remembered, idle, cold_resident, lies_in};

use keys::FrameNo;

/// A key's record in the ring.
#[derive(Clone, Copy, PartialEq, Eq, Debug)]
pub struct Entry<K> {
    pub key: K,
    pub hot: bool,
    /// The frame that its page lies in; `None` where the page has left and the key is only remembered.
    pub frame: Option<FrameNo>,
    /// The test mark.
    pub test: bool,
    /// The reference bit.
    pub bit: bool,
    pub loans: u8,
    /// The altered mark.
    pub altered: bool,
}

impl<K> Entry<K> {
    /// Whether its page has left, so that the key is only remembered.
    pub fn is_remembered(&self) -> bool
        ensures { result ≡ remembered self.now }
    {
        self.frame.is_none()
    }

    /// Whether it is resident without a loan.
    pub fn is_idle(&self) -> bool
        ensures { result ≡ idle self.now }
    {
        self.frame.is_some() && self.loans == 0
    }

    /// Whether it is resident and cold.
    pub fn is_cold_resident(&self) -> bool
        ensures { result ≡ cold_resident self.now }
    {
        self.frame.is_some() && !self.hot
    }

    /// Whether its page lies in a frame.
    pub fn lies_in(&self, frame: FrameNo) -> bool
        ensures { result ≡ lies_in frame.0 self.now }
    {
        self.frame == Some(frame)
    }
}

/// The cold allocation, lowered.
pub fn lower(c: u32) -> u32
    ensures { result ≡ lowered c }
{
    if 1 < c { c - 1 } else { c }
}

/// The cold allocation, raised in a pool of m frames.
pub fn raise(m: u32, c: u32) -> u32
    ensures { result ≡ raised m c }
{
    if c < m.saturating_sub(1) { c + 1 } else { c }
}
