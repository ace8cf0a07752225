//! The tests of an entry and the cold allocation, and what a hand or a call makes of an entry.

ghost use Rattle.std.specs.Prelude.{◌≡◌, ◌<◌};
ghost use Rattle.machine.specs.Hands.{turned, turned_cold, tested, left, promoted, retested, lowered, raised};
ghost use Rattle.machine.specs.Borrow.{entered, lent, repaid, marking};
ghost use Rattle.machine.specs.Entry.{idle, lies_in};
ghost use Rattle.records.specs.Reading.{entry_of, listed};

use keys::{FrameNo, Key};
use records::Entry;

// stays: the tests and the two changes of the cold allocation stand here as they do in `records`, for the ring. A slip in one
// text has to show where the simulator is compared with the ring.

/// Whether an entry is resident without a loan.
pub(crate) fn is_idle<K: Key>(e: &Entry<K>) -> bool
    ensures { result ≡ idle (entry_of K.Key.meaning e.now) }
{
    match e.frame {
        Some(_) => e.loans == 0,
        None => false,
    }
}

/// Whether an entry's page lies in a frame.
pub(crate) fn is_in<K: Key>(e: &Entry<K>, wanted: FrameNo) -> bool
    ensures { result ≡ lies_in wanted.0 (entry_of K.Key.meaning e.now) }
{
    match e.frame {
        Some(f) => wanted == f,
        None => false,
    }
}

/// The cold allocation, lowered.
pub(crate) fn lower(c: u32) -> u32
    ensures { result ≡ lowered c }
{
    if 1 < c { c - 1 } else { c }
}

/// The cold allocation, raised.
pub(crate) fn raise(m: u32, c: u32) -> u32
    ensures { result ≡ raised m c }
{
    if c < m.saturating_sub(1) { c + 1 } else { c }
}

/// What the hot step puts at the head for the entry at the tail.
pub(crate) fn after_hot_step<K: Key + Copy>(e: Entry<K>) -> Option<Entry<K>>
    ensures { listed K.Key.meaning result ≡ turned (entry_of K.Key.meaning e) }
{
    match (e.hot, e.bit, e.frame) {
        (true, true, _) => Some(Entry { bit: false, ..e }),
        (true, false, _) => Some(Entry {
            hot: false,
            test: false,
            ..e
        }),
        (false, _, Some(_)) => Some(Entry { test: false, ..e }),
        (false, _, None) => None,
    }
}

/// What the hot step makes of the cold allocation.
pub(crate) fn cold_after_hot_step<K: Key>(e: &Entry<K>, c: u32) -> u32
    ensures { result ≡ turned_cold (entry_of K.Key.meaning e.now) c }
{
    match (e.hot, e.frame, e.test) {
        (true, _, _) => c,
        (false, Some(_), true) => lower(c),
        (false, Some(_), false) => c,
        (false, None, _) => lower(c),
    }
}

/// What the test step leaves in the place of an entry with the test mark.
pub(crate) fn after_test_step<K: Key + Copy>(e: Entry<K>) -> Option<Entry<K>>
    ensures { listed K.Key.meaning result ≡ tested (entry_of K.Key.meaning e) }
{
    e.frame.map(|_| Entry { test: false, ..e })
}

/// What stays of a victim, in its place.
pub(crate) fn after_eviction<K: Key + Copy>(e: Entry<K>) -> Option<Entry<K>>
    ensures { listed K.Key.meaning result ≡ left (entry_of K.Key.meaning e) }
{
    e.test.then_some(Entry {
        hot: false,
        frame: None,
        test: true,
        bit: false,
        loans: 0,
        altered: false,
        ..e
    })
}

/// A candidate with bit and test mark becomes hot and loses both.
pub(crate) fn promote<K: Key + Copy>(e: Entry<K>) -> Entry<K>
    ensures { entry_of K.Key.meaning result ≡ promoted (entry_of K.Key.meaning e) }
{
    Entry {
        hot: true,
        test: false,
        bit: false,
        ..e
    }
}

/// A candidate with the bit only loses it and is given the test mark.
pub(crate) fn retest<K: Key + Copy>(e: Entry<K>) -> Entry<K>
    ensures { entry_of K.Key.meaning result ≡ retested (entry_of K.Key.meaning e) }
{
    Entry {
        test: true,
        bit: false,
        ..e
    }
}

/// The new entry of a page that was read into a frame.
pub(crate) fn fresh<K: Key + Copy>(key: K, hot: bool, frame: FrameNo) -> Entry<K>
    ensures { entry_of K.Key.meaning result ≡ entered (K.Key.meaning key) hot frame.0 }
{
    let bit = false;
    Entry {
        key,
        hot,
        frame: Some(frame),
        test: !hot,
        bit,
        loans: 1,
        altered: false,
    }
}

/// A hit: the bit is set, and there is one loan more.
pub(crate) fn lend<K: Key + Copy>(e: Entry<K>) -> Entry<K>
    requires { e.loans < 255 }
    ensures { entry_of K.Key.meaning result ≡ lent (entry_of K.Key.meaning e) }
{
    Entry {
        bit: true,
        loans: e.loans + 1,
        ..e
    }
}

/// A return: one loan less.
pub(crate) fn repay<K: Key + Copy>(e: Entry<K>) -> Entry<K>
    ensures { entry_of K.Key.meaning result ≡ repaid (entry_of K.Key.meaning e) }
{
    Entry {
        loans: e.loans.saturating_sub(1),
        ..e
    }
}

/// The altered mark, set or cleared.
pub(crate) fn mark<K: Key + Copy>(e: Entry<K>, altered: bool) -> Entry<K>
    ensures { entry_of K.Key.meaning result ≡ marking altered (entry_of K.Key.meaning e) }
{
    Entry { altered, ..e }
}
