//! Opening a pool: the questions, then the set-up that supposes their yes.

ghost use Rattle.std.specs.Prelude.{◌≡◌, ℕ, ◌&&◌, length, None, IfErr, nat_le};
ghost use Rattle.promise.specs.State.{open_refusal};
ghost use Rattle.promise.specs.Serves.{by_pool};
ghost use Rattle.pool.specs.Faults.{refused, layer_of};
ghost use Rattle.pool.specs.Reading.{carried};
ghost use Rattle.pool.specs.Asked.{holding, sizes, Opened};

use crate::faults::PoolFault;
use crate::state::{Pool, PoolNo};
use chains::Cell;
use keys::Key;
use records::Entry;
use ring::Ring;
use stores::{Store, is_page_size};

const FEWEST_FRAMES: u32 = 2;

const MOST_FRAMES: u32 = 4096;

// 2: may a pool have m frames?
fn is_frame_count(m: u32) -> bool
    ensures { result ≡ (nat_le 2 m && nat_le m 4096) }
{
    (FEWEST_FRAMES..=MOST_FRAMES).contains(&m)
}

// 3 and 4: are there m × P frame bytes, and two cells for each frame?
pub(crate) fn check_sizes<K>(
    m: u32,
    size: usize,
    frames: &[u8],
    cells: &[Cell<Entry<K>>],
) -> Result<(), PoolFault>
    ensures number { refused result ≡ sizes m size (length frames.now) (length cells.now) }
    ensures layer { IfErr result (λ f. layer_of f ≡ by_pool) }
{
    if frames.len() as u128 != m as u128 * size as u128 {
        return Err(PoolFault::FrameBytes);
    }
    if cells.len() != 2 * m as usize {
        return Err(PoolFault::Cells);
    }
    Ok(())
}

impl Pool {
    /// The questions of opening a pool of m frames over the store, with these frame bytes and cells.
    pub fn check<K: Key, S: Store<K>>(
        store: &S,
        m: u32,
        frames: &[u8],
        cells: &[Cell<Entry<K>>],
    ) -> Result<(), PoolFault>
        ensures { refused result ≡ open_refusal (S.Store.meant store.now).size m (length frames.now) (length cells.now) }
    {
        let size = store.page_size();
        if !is_page_size(size) {
            return Err(PoolFault::PageSize);
        }
        if !is_frame_count(m) {
            return Err(PoolFault::FrameCount);
        }
        check_sizes(m, size, frames, cells)
    }

    /// The pool, empty; `check` has said yes. All cells are emptied, and the frame bytes stay as they are found.
    pub fn open<K: Key + Copy, S: Store<K>>(
        number: PoolNo,
        m: u32,
        store: &S,
        frames: &[u8],
        cells: &mut [Cell<Entry<K>>],
    ) -> Pool
        requires { open_refusal (S.Store.meant store.now).size m (length frames.now) (length cells.old) ≡ None }
        ensures opened { Opened K.Key.meaning number.0 m frames.now (S.Store.meant store.now) (holding result frames.now cells.new (S.Store.meant store.now)) }
        ensures number { result.number ≡ number }
        ensures count { result.frames ≡ m }
        ensures loans { (f : ℕ) → carried K.Key.meaning result cells.new f ≡ 0 }
    {
        // with the answer comes the law that every page of the store has P bytes
        let _size = store.page_size();
        let ring = Ring::open(cells, m);
        Pool {
            number,
            frames: m,
            ring,
        }
    }
}
