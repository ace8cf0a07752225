//! Lists of entries, tail first: changing one entry.

ghost use Rattle.std.specs.Prelude.{◌≡◌, suc, ◌<◌, [], ◌∷◌, ◌++◌, take, drop, vec_len, vec_capacity};
ghost use Rattle.std.specs.Option.{option_to_list};

use records::Entry;

/// Puts another entry, or none, in the place of one.
// stays: the library's `splice` may want memory, and no call after opening does.
pub(crate) fn put<K: Copy>(ring: &mut Vec<Entry<K>>, at: usize, new: Option<Entry<K>>)
    requires { at < vec_len ring.old }
    ensures items { ring.new.items ≡ take at ring.old.items ++ (option_to_list new ++ drop (suc at) ring.old.items) }
    ensures capacity { vec_capacity ring.new ≡ vec_capacity ring.old }
{
    match new {
        Some(e) => ring[at] = e,
        None => {
            ring.remove(at);
        }
    }
}

/// Takes an entry out, and puts another, or none, at the head.
pub(crate) fn to_head<K: Copy>(ring: &mut Vec<Entry<K>>, at: usize, new: Option<Entry<K>>)
    requires { at < vec_len ring.old }
    ensures items { ring.new.items ≡ (take at ring.old.items ++ drop (suc at) ring.old.items) ++ option_to_list new }
    ensures capacity { vec_capacity ring.new ≡ vec_capacity ring.old }
{
    ring.remove(at);
    if let Some(e) = new {
        ring.push_reserved(e);
    }
}
