//! Looking through the ring, from the tail.

ghost use Rattle.std.specs.Prelude.{◌≡◌};
ghost use Rattle.std.specs.List.{list_any};
ghost use Rattle.machine.specs.Entry.{is_hot, remembered, idle, free, named, lies_in, marked};
ghost use Rattle.records.specs.Reading.{entry_of};
ghost use Rattle.plain.specs.Lists.{place, tally};

use crate::entries::{is_idle, is_in};
use crate::hands::State;
use keys::{FrameNo, Key};

impl<K: Key> State<K> {
    /// The place of the entry with this key.
    pub(crate) fn place_of(&self, key: &K) -> Option<usize>
        ensures { result ≡ place K.Key.meaning (named (K.Key.meaning key.now)) self.now.ring.items }
    {
        self.ring.iter().position(|e| key.same(&e.key))
    }

    /// The place of the entry whose page lies in a frame.
    pub(crate) fn place_in(&self, frame: FrameNo) -> Option<usize>
        ensures { result ≡ place K.Key.meaning (lies_in frame.0) self.now.ring.items }
    {
        self.ring.iter().position(|e| is_in(e, frame))
    }

    /// The place of the candidate: the first entry that is resident and cold without a loan.
    pub(crate) fn candidate(&self) -> Option<usize>
        ensures { result ≡ place K.Key.meaning free self.now.ring.items }
    {
        self.ring.iter().position(|e| !e.hot && is_idle(e))
    }

    /// The place of the first entry with the test mark.
    pub(crate) fn first_marked(&self) -> Option<usize>
        ensures { result ≡ place K.Key.meaning marked self.now.ring.items }
    {
        self.ring.iter().position(|e| e.test)
    }

    // stays: `hot` and `remembered` add 0 or 1 for each entry. `filter` and `count` ask a question for each, which took a quarter
    // more of a whole borrow in a ring of four frames.
    /// How many entries are hot.
    pub(crate) fn hot(&self) -> usize
        ensures { result ≡ tally K.Key.meaning is_hot self.now.ring.items }
    {
        let mut n = 0;
        for e in &self.ring {
            n += usize::from(e.hot);
        }
        n
    }

    /// How many entries are remembered.
    pub(crate) fn remembered(&self) -> usize
        ensures { result ≡ tally K.Key.meaning remembered self.now.ring.items }
    {
        let mut n = 0;
        for e in &self.ring {
            n += usize::from(e.frame.is_none());
        }
        n
    }

    /// Whether some page is resident without a loan.
    pub(crate) fn has_idle(&self) -> bool
        ensures { result ≡ list_any (λ e. idle (entry_of K.Key.meaning e)) self.now.ring.items }
    {
        self.ring.iter().any(|e| is_idle(e))
    }
}
