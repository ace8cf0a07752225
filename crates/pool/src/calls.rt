//! The calls of an open pool. Each is lent the frame bytes, the cells and the store. It asks first whether the memory has its
//! sizes, and supposes nothing where it has not; then come its own questions, and then the work.

ghost use Rattle.std.specs.Prelude.{◌≡◌, ℕ, ◌≤◌, true, ◌&&◌, is_ok, IfErr, None, ◌==◌, nat_lt};
ghost use Rattle.rows.specs.Rows.{Stands};
ghost use Rattle.promise.specs.Serves.{to_borrow, to_view, to_alter, to_return, to_flush, by_pool};
ghost use Rattle.pool.specs.Asked.{holding, sizes_of, Supposed, Asked};
ghost use Rattle.pool.specs.Faults.{refused, layer_of};
ghost use Rattle.pool.specs.Loans.{lent_at, returned_at, Own};
ghost use Rattle.pool.specs.Reading.{loan_in, lent_by, shown_by, altered_by, returned_by, flushed_by, carried};

use crate::faults::PoolFault;
use crate::moving::{place, settle};
use crate::opening::check_sizes;
use crate::state::{Loan, Pool};
use chains::Cell;
use keys::{FrameNo, Key};
use records::{Entry, Report};
use ring::by_key;
use stores::{Store, StoreFault, lay};

// stays: frames, cells and store are parameters of each call. Memory is lent to each, and each takes it in its own way:
// `borrow` all three as `&mut`, `view` all three as `&`, the others some. One struct `Lent { frames: &mut [u8], cells: &mut
// [..], store: &mut S }` would ask `&mut` of every caller, and three clauses more of each method, that a reference keeps its
// name.
impl Pool {
    // 3 and 4: is the lent memory of this pool's sizes?
    fn fits<K: Key, S: Store<K>>(
        &self,
        frames: &[u8],
        cells: &[Cell<Entry<K>>],
        store: &S,
    ) -> Result<(), PoolFault>
        ensures number { refused result ≡ sizes_of (holding self.now frames.now cells.now (S.Store.meant store.now)) }
        ensures layer { IfErr result (λ f. layer_of f ≡ by_pool) }
    {
        check_sizes(self.frames, store.page_size(), frames, cells)
    }

    // 12: has the loan this pool's number, and does its frame carry a loan?
    fn is_good<K: Key + Copy>(&self, cells: &[Cell<Entry<K>>], loan: &Loan) -> bool
        requires { Stands cells.now self.now.ring.table }
        ensures { result ≡ (loan.now.pool.0 == self.now.number.0 && nat_lt 0 (carried K.Key.meaning self.now cells.now loan.now.frame.0)) }
    {
        loan.pool == self.number && self.ring.loans_at(cells, loan.frame) > 0
    }

    /// Borrows a key: its page comes into a frame, and stays there until the loan is returned. The answer is the loan and the
    /// report.
    pub fn borrow<K: Key + Copy, S: Store<K>>(
        &mut self,
        frames: &mut [u8],
        cells: &mut [Cell<Entry<K>>],
        store: &mut S,
        key: K,
    ) -> Result<(Loan, Report<K>), PoolFault>
        requires { Supposed K.Key.meaning (holding self.old frames.old cells.old (S.Store.meant store.old)) }
        ensures asked { Asked K.Key.meaning (to_borrow (K.Key.meaning key)) (holding self.old frames.old cells.old (S.Store.meant store.old)) (lent_by K.Key.meaning result) (holding self.new frames.new cells.new (S.Store.meant store.new)) }
        ensures loans { (f : ℕ) → carried K.Key.meaning self.new cells.new f ≡ lent_at result f (carried K.Key.meaning self.old cells.old f) }
        ensures own { Own self.old result }
    {
        self.fits(frames, cells, store)?;
        if !store.holds(&key) {
            return Err(StoreFault::NotHeld.into());
        }
        let granted = self.ring.borrow_over(cells, self.frames, key)?;
        settle(frames, store, &granted, &key);
        let loan = Loan {
            frame: granted.frame,
            pool: self.number,
        };
        Ok((loan, by_key(granted.report)))
    }

    /// The page under a loan: its frame's part of the frame bytes.
    pub fn view<'a, K: Key + Copy, S: Store<K>>(
        &self,
        frames: &'a [u8],
        cells: &[Cell<Entry<K>>],
        store: &S,
        loan: &Loan,
    ) -> Result<&'a [u8], PoolFault>
        requires { Supposed K.Key.meaning (holding self.now frames.now cells.now (S.Store.meant store.now)) }
        ensures { Asked K.Key.meaning (to_view (loan_in loan.now)) (holding self.now frames.now cells.now (S.Store.meant store.now)) (shown_by result) (holding self.now frames.now cells.now (S.Store.meant store.now)) }
    {
        self.fits(frames, cells, store)?;
        if !self.is_good(cells, loan) {
            return Err(PoolFault::NotOnLoan);
        }
        Ok(&frames[place(loan.frame, store.page_size())])
    }

    /// Lays bytes on the page under a loan, from an offset, and marks it as altered.
    pub fn alter<K: Key + Copy, S: Store<K>>(
        &mut self,
        frames: &mut [u8],
        cells: &mut [Cell<Entry<K>>],
        store: &S,
        loan: &Loan,
        offset: usize,
        bytes: &[u8],
    ) -> Result<(), PoolFault>
        requires { Supposed K.Key.meaning (holding self.old frames.old cells.old (S.Store.meant store.now)) }
        ensures asked { Asked K.Key.meaning (to_alter (loan_in loan.now) offset bytes.now) (holding self.old frames.old cells.old (S.Store.meant store.now)) (altered_by result) (holding self.new frames.new cells.new (S.Store.meant store.now)) }
        ensures loans { (f : ℕ) → carried K.Key.meaning self.new cells.new f ≡ carried K.Key.meaning self.old cells.old f }
    {
        self.fits(frames, cells, store)?;
        if !self.is_good(cells, loan) {
            return Err(PoolFault::NotOnLoan);
        }
        if !store.is_open() {
            return Err(StoreFault::Sealed.into());
        }
        let size = store.page_size();
        if offset > size || bytes.len() > size - offset {
            return Err(PoolFault::PastPage);
        }
        lay(frames, place(loan.frame, size).start + offset, bytes);
        self.ring.mark_page(cells, loan.frame, true);
        Ok(())
    }

    /// Returns a loan. A refusal hands the same loan back, still to be returned.
    pub fn give_back<K: Key + Copy, S: Store<K>>(
        &mut self,
        frames: &[u8],
        cells: &mut [Cell<Entry<K>>],
        store: &S,
        loan: Loan,
    ) -> Result<(), (PoolFault, Loan)>
        requires { Supposed K.Key.meaning (holding self.old frames.now cells.old (S.Store.meant store.now)) }
        ensures asked { Asked K.Key.meaning (to_return (loan_in loan)) (holding self.old frames.now cells.old (S.Store.meant store.now)) (returned_by result) (holding self.new frames.now cells.new (S.Store.meant store.now)) }
        ensures loans { (f : ℕ) → carried K.Key.meaning self.new cells.new f ≡ returned_at loan result f (carried K.Key.meaning self.old cells.old f) }
        ensures granted { sizes_of (holding self.old frames.now cells.old (S.Store.meant store.now)) ≡ None → loan.pool ≡ self.old.number → 1 ≤ carried K.Key.meaning self.old cells.old loan.frame.0 → is_ok result ≡ true }
        ensures back { IfErr result (λ p. p.1 ≡ loan) }
    {
        if let Err(fault) = self.fits(frames, cells, store) {
            return Err((fault, loan));
        }
        if !self.is_good(cells, &loan) {
            return Err((PoolFault::NotOnLoan, loan));
        }
        let Loan { frame, pool: _ } = loan;
        self.ring.give_back(cells, frame);
        Ok(())
    }

    /// Writes every altered page to the store, in order of frame, and clears the marks. The answer is how many it wrote.
    pub fn flush<K: Key + Copy, S: Store<K>>(
        &mut self,
        frames: &[u8],
        cells: &mut [Cell<Entry<K>>],
        store: &mut S,
    ) -> Result<u32, PoolFault>
        requires { Supposed K.Key.meaning (holding self.old frames.now cells.old (S.Store.meant store.old)) }
        ensures asked { Asked K.Key.meaning to_flush (holding self.old frames.now cells.old (S.Store.meant store.old)) (flushed_by result) (holding self.new frames.now cells.new (S.Store.meant store.new)) }
        ensures loans { (f : ℕ) → carried K.Key.meaning self.new cells.new f ≡ carried K.Key.meaning self.old cells.old f }
    {
        self.fits(frames, cells, store)?;
        let mut written = 0;
        // stays: a `for` over frame numbers. With `map` and `sum` a closure would change pool, cells and store, which is more to
        // read, and no place in a list is counted.
        for f in 0..self.frames {
            written += self.flush_frame(frames, cells, store, FrameNo(f));
        }
        Ok(written)
    }
}
