//! Pages between frames and store: a victim's page out of its frame, and a key's page into a frame.

ghost use Rattle.std.specs.Prelude.{◌≡◌, ◌+◌, ◌*◌, ◌^◌, ◌<◌, true, length};
ghost use Rattle.stores.specs.Meaning.{held, page_of, with_page};
ghost use Rattle.stores.specs.Parts.{part_of, laid};
ghost use Rattle.pool.specs.Moving.{HasPart, Takes, sent_by, TakesAfter, sent_after, filled_after};

use keys::{FrameNo, Key};
use records::{Granted, Outcome};
use ring::Victim;
use std::ops::Range;
use stores::Store;

// Where the page in a frame lies within the frame bytes, with pages of `size` bytes.
pub(crate) fn place(frame: FrameNo, size: usize) -> Range<usize>
    requires { frame.0 * size + size < 2 ^ 64 }
    ensures start { result.start ≡ frame.0 * size }
    ensures end { result.end ≡ frame.0 * size + size }
{
    let at = frame.0 as usize * size;
    at..at + size
}

// stays: frame bytes and store are lent to each call, so they are arguments; a frame and a key are what is asked of them.

// Writes the page in a frame to the store, under the key. The store takes it.
pub(crate) fn write_page<K: Key, S: Store<K>>(frames: &[u8], store: &mut S, frame: FrameNo, key: &K)
    requires part { HasPart (S.Store.meant store.old).size frame.0 (length frames.now) }
    requires holds { held (S.Store.meant store.old) (K.Key.meaning key.now) ≡ true }
    requires open { (S.Store.meant store.old).is_open ≡ true }
    ensures { S.Store.meant store.new ≡ with_page (K.Key.meaning key.now) (part_of (S.Store.meant store.old).size frames.now frame.0) (S.Store.meant store.old) }
{
    let place = place(frame, store.page_size());
    store.write(key, &frames[place]).unwrap();
}

// Fills a frame with the key's page. The store holds the key.
fn read_page<K: Key, S: Store<K>>(frames: &mut [u8], store: &mut S, frame: FrameNo, key: &K)
    requires part { HasPart (S.Store.meant store.old).size frame.0 (length frames.old) }
    requires holds { held (S.Store.meant store.old) (K.Key.meaning key.now) ≡ true }
    ensures filled { frames.new ≡ laid (frame.0 * (S.Store.meant store.old).size) (page_of (S.Store.meant store.old) (K.Key.meaning key.now)) frames.old }
    ensures store { S.Store.meant store.new ≡ S.Store.meant store.old }
{
    let place = place(frame, store.page_size());
    store.read(key, &mut frames[place]).unwrap();
}

// On a fault: the victim's page goes out if it was altered, and then the key's page comes in.
fn exchange<K: Key + Copy, S: Store<K>>(
    frames: &mut [u8],
    store: &mut S,
    frame: FrameNo,
    victim: Option<Victim<K>>,
    key: &K,
)
    requires part { HasPart (S.Store.meant store.old).size frame.0 (length frames.old) }
    requires takes { Takes K.Key.meaning victim (S.Store.meant store.old) }
    requires holds { held (sent_by K.Key.meaning victim (part_of (S.Store.meant store.old).size frames.old frame.0) (S.Store.meant store.old)) (K.Key.meaning key.now) ≡ true }
    ensures filled { frames.new ≡ laid (frame.0 * (S.Store.meant store.old).size) (page_of (sent_by K.Key.meaning victim (part_of (S.Store.meant store.old).size frames.old frame.0) (S.Store.meant store.old)) (K.Key.meaning key.now)) frames.old }
    ensures store { S.Store.meant store.new ≡ sent_by K.Key.meaning victim (part_of (S.Store.meant store.old).size frames.old frame.0) (S.Store.meant store.old) }
{
    if let Some(
        Victim {
            key: gone,
            altered: true,
        },
    ) = victim
    {
        write_page(frames, store, frame, &gone);
    }
    read_page(frames, store, frame, key);
}

// Moves the pages of a granted borrow. After a hit none moves.
pub(crate) fn settle<K: Key + Copy, S: Store<K>>(
    frames: &mut [u8],
    store: &mut S,
    granted: &Granted<Victim<K>>,
    key: &K,
)
    requires part { HasPart (S.Store.meant store.old).size granted.now.frame.0 (length frames.old) }
    requires takes { TakesAfter K.Key.meaning granted.now.report.outcome granted.now.report.victim (S.Store.meant store.old) }
    requires holds { held (sent_after K.Key.meaning granted.now.report.outcome granted.now.report.victim (part_of (S.Store.meant store.old).size frames.old granted.now.frame.0) (S.Store.meant store.old)) (K.Key.meaning key.now) ≡ true }
    ensures filled { frames.new ≡ filled_after granted.now.report.outcome (granted.now.frame.0 * (S.Store.meant store.old).size) (page_of (sent_after K.Key.meaning granted.now.report.outcome granted.now.report.victim (part_of (S.Store.meant store.old).size frames.old granted.now.frame.0) (S.Store.meant store.old)) (K.Key.meaning key.now)) frames.old }
    ensures store { S.Store.meant store.new ≡ sent_after K.Key.meaning granted.now.report.outcome granted.now.report.victim (part_of (S.Store.meant store.old).size frames.old granted.now.frame.0) (S.Store.meant store.old) }
{
    if granted.report.outcome != Outcome::Hit {
        exchange(frames, store, granted.frame, granted.report.victim, key);
    }
}
