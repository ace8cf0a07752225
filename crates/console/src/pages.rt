//! Pages of any store, as text.

ghost use Rattle.std.specs.Prelude.{◌≡◌, IfOk, string_bytes};
ghost use Rattle.console.specs.Lines.{page_text};

use crate::lines::RefusalLine;
use crate::listings::hex;
use keys::Key;
use std::alloc::{AllocError, Global};
use stores::Store;

/// The key's page in hexadecimal, or the line of the refusal; the store stays as it was.
pub fn page_text<K: Key, S: Store<K>>(
    heap: Global,
    store: &mut S,
    key: &K,
) -> Result<String, AllocError>
    ensures text { IfOk result (λ s. string_bytes s ≡ page_text (S.Store.meant store.old) (K.Key.meaning key.now)) }
    ensures store { S.Store.meant store.new ≡ S.Store.meant store.old }
{
    let mut buffer = vec![in heap; 0u8; store.page_size()]?;
    match store.read(key, buffer.as_mut_slice()) {
        Ok(()) => hex(heap, buffer.as_slice()),
        Err(fault) => RefusalLine(fault).to_string(heap),
    }
}
