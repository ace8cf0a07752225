//! The interface of a store over a kind of key.

ghost use Rattle.std.specs.Prelude.{◌≡◌, length, is_ok, if◌then◌else◌};
ghost use Rattle.stores.specs.Faults.{refused};
ghost use Rattle.stores.specs.Meaning.{Meaning, WholePages, held, page_of, with_page, read_refusal, write_refusal};

use crate::faults::StoreFault;
use keys::Key;

/// A store under keys of the kind `K`. What it means is its page size, its mark, sealed or open, and one page for each
/// key that it holds. Size, mark and the set of held keys never change.
pub trait Store<K: Key> {
    ghost meant: { Self → Meaning };

    /// P, the bytes of a page. With the answer comes the law of every store: each held page has P bytes.
    fn page_size(&self) -> usize
        ensures size { result ≡ (meant self.now).size }
        ensures law { WholePages (meant self.now) };

    /// Whether pages may be written.
    fn is_open(&self) -> bool
        ensures { result ≡ (meant self.now).is_open };

    /// Whether the store holds the key.
    fn holds(&self, key: &K) -> bool
        ensures { result ≡ held (meant self.now) (K.Key.meaning key.now) };

    /// Fills the buffer with the key's page. What the store means stays; a store may move bookkeeping of its own.
    fn read(&mut self, key: &K, buffer: &mut [u8]) -> Result<(), StoreFault>
        ensures answer { refused result ≡ read_refusal (meant self.old) (K.Key.meaning key.now) (length buffer.old) }
        ensures filled { buffer.new ≡ (if is_ok result then page_of (meant self.old) (K.Key.meaning key.now) else buffer.old) }
        ensures store { meant self.new ≡ meant self.old };

    /// Replaces the key's page, and no other.
    fn write(&mut self, key: &K, page: &[u8]) -> Result<(), StoreFault>
        ensures answer { refused result ≡ write_refusal (meant self.old) (K.Key.meaning key.now) (length page.now) }
        ensures store { meant self.new ≡ (if is_ok result then with_page (K.Key.meaning key.now) page.now (meant self.old) else meant self.old) };
}
