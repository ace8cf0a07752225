//! The desk serves one order, or a list of them.

ghost use Rattle.std.specs.Prelude.{◌≡◌, [], length, IfOk, None, vec_len, MatchResult, ◌≢◌};
ghost use Rattle.pool.specs.Asked.{holding, sizes};
ghost use Rattle.desk.specs.Reading.{desk_of};
ghost use Rattle.desk.specs.Serving.{AtDesk, Ordered, Same, Served, Turned, Untouched};

use crate::calling;
use crate::orders::{Ask, Order, Replies, Reply, Sizes};
use crate::state::Desk;
use chains::Cell;
use keys::Key;
use pool::{Loan, Pool};
use records::Entry;
use std::alloc::{AllocError, Global};
use stores::Store;

/// Cells as they are before a pool is opened over them.
pub fn blank_cells<K: Copy>(heap: Global, count: usize) -> Result<Vec<Cell<Entry<K>>>, AllocError>
    ensures { IfOk result (λ v. vec_len v ≡ count) }
{
    vec![in heap; chains::blank(); count]
}

// A call with other memory, which is not of the pool's sizes.
fn call_with<K: Key + Copy, S: Store<K>>(
    heap: Global,
    pool: &mut Pool,
    store: &mut S,
    hands: &mut Vec<Option<Loan>>,
    ask: &Ask<K>,
    lent: Sizes,
) -> Result<Reply<K>, AllocError>
    requires { sizes pool.old.frames (S.Store.meant store.old).size lent.bytes lent.cells ≢ None }
    ensures { MatchResult result (λ r. Turned K.Key.meaning ask.now lent pool.old (S.Store.meant store.old) hands.old.items r pool.new (S.Store.meant store.new) hands.new.items) (λ _. Untouched pool.old (S.Store.meant store.old) hands.old.items pool.new (S.Store.meant store.new) hands.new.items) }
{
    let mut frames = vec![in heap; 0u8; lent.bytes]?;
    let mut cells = blank_cells::<K>(heap, lent.cells)?;
    calling::call(
        heap,
        pool,
        frames.as_mut_slice(),
        cells.as_mut_slice(),
        store,
        hands,
        ask,
    )
}

/// One order, with the pool and the hands lent apart. Want of memory is an error, and nothing was done then.
pub fn serve<K: Key + Copy, S: Store<K>>(
    heap: Global,
    pool: &mut Pool,
    frames: &mut [u8],
    cells: &mut [Cell<Entry<K>>],
    store: &mut S,
    hands: &mut Vec<Option<Loan>>,
    order: &Order<K>,
) -> Result<Reply<K>, AllocError>
    requires { AtDesk K.Key.meaning (holding pool.old frames.old cells.old (S.Store.meant store.old)) hands.old.items }
    ensures at { AtDesk K.Key.meaning (holding pool.new frames.new cells.new (S.Store.meant store.new)) hands.new.items }
    ensures made { MatchResult result (λ r. Ordered K.Key.meaning order.now (desk_of K.Key.meaning (holding pool.old frames.old cells.old (S.Store.meant store.old)) hands.old.items) r (desk_of K.Key.meaning (holding pool.new frames.new cells.new (S.Store.meant store.new)) hands.new.items)) (λ _. Same (holding pool.old frames.old cells.old (S.Store.meant store.old)) hands.old.items (holding pool.new frames.new cells.new (S.Store.meant store.new)) hands.new.items) }
{
    let own = Sizes {
        bytes: frames.len(),
        cells: cells.len(),
    };
    let lent = order.lent.unwrap_or(own);
    if lent == own {
        calling::call(heap, pool, frames, cells, store, hands, &order.ask)
    } else {
        call_with(heap, pool, store, hands, &order.ask, lent)
    }
}

impl Desk {
    /// One order at the desk: `serve` with its pool and hands.
    pub fn serve<K: Key + Copy, S: Store<K>>(
        &mut self,
        heap: Global,
        frames: &mut [u8],
        cells: &mut [Cell<Entry<K>>],
        store: &mut S,
        order: &Order<K>,
    ) -> Result<Reply<K>, AllocError>
        requires { AtDesk K.Key.meaning (holding self.old.pool frames.old cells.old (S.Store.meant store.old)) self.old.hands.items }
        ensures at { AtDesk K.Key.meaning (holding self.new.pool frames.new cells.new (S.Store.meant store.new)) self.new.hands.items }
        ensures made { MatchResult result (λ r. Ordered K.Key.meaning order.now (desk_of K.Key.meaning (holding self.old.pool frames.old cells.old (S.Store.meant store.old)) self.old.hands.items) r (desk_of K.Key.meaning (holding self.new.pool frames.new cells.new (S.Store.meant store.new)) self.new.hands.items)) (λ _. Same (holding self.old.pool frames.old cells.old (S.Store.meant store.old)) self.old.hands.items (holding self.new.pool frames.new cells.new (S.Store.meant store.new)) self.new.hands.items) }
    {
        serve(
            heap,
            &mut self.pool,
            frames,
            cells,
            store,
            &mut self.hands,
            order,
        )
    }

    // The orders one after another, with a reply for each, until the list or the memory is at its end.
    fn serve_each<K: Key + Copy, S: Store<K>>(
        &mut self,
        heap: Global,
        frames: &mut [u8],
        cells: &mut [Cell<Entry<K>>],
        store: &mut S,
        orders: &[Order<K>],
        replies: &mut Vec<Reply<K>>,
    ) -> Result<(), AllocError>
        requires at { AtDesk K.Key.meaning (holding self.old.pool frames.old cells.old (S.Store.meant store.old)) self.old.hands.items }
        requires none { replies.old.items ≡ [] }
        ensures at { AtDesk K.Key.meaning (holding self.new.pool frames.new cells.new (S.Store.meant store.new)) self.new.hands.items }
        ensures served { Served K.Key.meaning orders.now (desk_of K.Key.meaning (holding self.old.pool frames.old cells.old (S.Store.meant store.old)) self.old.hands.items) replies.new.items (desk_of K.Key.meaning (holding self.new.pool frames.new cells.new (S.Store.meant store.new)) self.new.hands.items) }
        ensures whole { IfOk result (λ _. vec_len replies.new ≡ length orders.now) }
    {
        for order in orders {
            replies.reserve(1)?;
            let reply = self.serve(heap, frames, cells, store, order)?;
            replies.push_reserved(reply);
        }
        Ok(())
    }

    /// A list of orders, one after another. If memory runs out, those before were served, and the reply for each is there.
    pub fn serve_all<K: Key + Copy, S: Store<K>>(
        &mut self,
        heap: Global,
        frames: &mut [u8],
        cells: &mut [Cell<Entry<K>>],
        store: &mut S,
        orders: &[Order<K>],
    ) -> Replies<K>
        requires { AtDesk K.Key.meaning (holding self.old.pool frames.old cells.old (S.Store.meant store.old)) self.old.hands.items }
        ensures at { AtDesk K.Key.meaning (holding self.new.pool frames.new cells.new (S.Store.meant store.new)) self.new.hands.items }
        ensures served { Served K.Key.meaning orders.now (desk_of K.Key.meaning (holding self.old.pool frames.old cells.old (S.Store.meant store.old)) self.old.hands.items) result.list.items (desk_of K.Key.meaning (holding self.new.pool frames.new cells.new (S.Store.meant store.new)) self.new.hands.items) }
        ensures whole { IfOk result.end (λ _. vec_len result.list ≡ length orders.now) }
    {
        let mut list = Vec::new(heap);
        let end = self.serve_each(heap, frames, cells, store, orders, &mut list);
        Replies { list, end }
    }
}
