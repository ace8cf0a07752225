//! A struct over the given slice of cells, generic in the key, that passes the slice on: a pool's call makes one for its
//! own time. Each method says that the slice is still the one that was given (`same`), so that the lender knows its cells
//! afterwards.

ghost use Rattle.std.specs.Prelude.{◌≡◌, ℕ, length, nat_lt};
ghost use Rattle.rows.specs.Rows.{Stands};
ghost use Rattle.machine.specs.Entry.{first, named};
ghost use Rattle.machine.specs.Borrow as rules;
ghost use Rattle.machine.specs.Facts.{Well};
ghost use Rattle.records.specs.Reading.{found_of};
ghost use Rattle.ring.specs.Model.{machine_of, CanBorrow};
ghost use Rattle.ring.specs.Answering.{answer_of, Written};

use crate::Ring;
use crate::hands::Victim;
use chains::Cell;
use keys::{FrameNo, Key};
use records::{Entry, Granted, Refusal};

/// A ring of m frames with its cells at hand.
// stays: each method says again what Ring's says. A struct over a lent slice is a form that the project wants, and the slice's
// owner learns of it by these clauses alone.
#[derive(Drop)]
pub struct RingOver<'a, K> {
    pub cells: &'a mut [Cell<Entry<K>>],
    pub ring: Ring,
    pub m: u32,
}

impl<'a, K: Key + Copy> RingOver<'a, K> {
    /// The plain numbers, as they are now.
    pub fn numbers(&self) -> Ring
        ensures { result ≡ self.now.ring }
    {
        self.ring
    }

    /// Borrows a key.
    pub fn borrow(&mut self, key: K) -> Result<Granted<Victim<K>>, Refusal>
        requires { CanBorrow K.Key.meaning self.old.m self.old.cells.now self.old.ring }
        ensures stands { Stands self.new.cells.now self.new.ring.table }
        ensures borrowed { rules.Borrow self.old.m (K.Key.meaning key) (machine_of K.Key.meaning self.old.cells.now self.old.ring) (answer_of K.Key.meaning result) (machine_of K.Key.meaning self.new.cells.now self.new.ring) }
        ensures written { Written (machine_of K.Key.meaning self.old.cells.now self.old.ring) result }
        ensures facts { Well self.old.m (machine_of K.Key.meaning self.new.cells.now self.new.ring) }
        ensures frames { self.new.m ≡ self.old.m }
        ensures memory { length self.new.cells.now ≡ length self.old.cells.now }
        ensures same { self.new.cells.ghost_name ≡ self.old.cells.ghost_name }
    {
        self.ring.borrow(self.cells, self.m, key)
    }

    /// One loan less at a frame; the answer is whether it carried one.
    pub fn give_back(&mut self, frame: FrameNo) -> bool
        requires { Stands self.old.cells.now self.old.ring.table }
        ensures stands { Stands self.new.cells.now self.new.ring.table }
        ensures carried { result ≡ nat_lt 0 (rules.carries frame.0 (machine_of K.Key.meaning self.old.cells.now self.old.ring)) }
        ensures step { machine_of K.Key.meaning self.new.cells.now self.new.ring ≡ rules.give_back frame.0 (machine_of K.Key.meaning self.old.cells.now self.old.ring) }
        ensures facts { (m : ℕ) → Well m (machine_of K.Key.meaning self.old.cells.now self.old.ring) → Well m (machine_of K.Key.meaning self.new.cells.now self.new.ring) }
        ensures frames { self.new.m ≡ self.old.m }
        ensures memory { length self.new.cells.now ≡ length self.old.cells.now }
        ensures same { self.new.cells.ghost_name ≡ self.old.cells.ghost_name }
    {
        self.ring.give_back(self.cells, frame)
    }

    /// Sets or clears the altered mark of the page in a frame.
    pub fn mark_page(&mut self, frame: FrameNo, altered: bool)
        requires { Stands self.old.cells.now self.old.ring.table }
        ensures stands { Stands self.new.cells.now self.new.ring.table }
        ensures step { machine_of K.Key.meaning self.new.cells.now self.new.ring ≡ rules.mark_page frame.0 altered (machine_of K.Key.meaning self.old.cells.now self.old.ring) }
        ensures facts { (m : ℕ) → Well m (machine_of K.Key.meaning self.old.cells.now self.old.ring) → Well m (machine_of K.Key.meaning self.new.cells.now self.new.ring) }
        ensures frames { self.new.m ≡ self.old.m }
        ensures memory { length self.new.cells.now ≡ length self.old.cells.now }
        ensures same { self.new.cells.ghost_name ≡ self.old.cells.ghost_name }
    {
        self.ring.mark_page(self.cells, frame, altered);
    }

    /// The loans that a frame carries.
    pub fn loans_at(&self, frame: FrameNo) -> u8
        requires { Stands self.now.cells.now self.now.ring.table }
        ensures { result ≡ rules.carries frame.0 (machine_of K.Key.meaning self.now.cells.now self.now.ring) }
    {
        self.ring.loans_at(self.cells, frame)
    }

    /// The entry whose page lies in a frame, in constant time.
    pub fn occupant(&self, frame: FrameNo) -> Option<Entry<K>>
        requires { Stands self.now.cells.now self.now.ring.table }
        ensures { found_of K.Key.meaning result ≡ rules.occupant frame.0 (machine_of K.Key.meaning self.now.cells.now self.now.ring) }
    {
        self.ring.occupant(self.cells, frame)
    }

    /// The entry of a key: what a search of the whole ring from the tail finds.
    pub fn find(&self, key: &K) -> Option<Entry<K>>
        requires { Stands self.now.cells.now self.now.ring.table }
        ensures { found_of K.Key.meaning result ≡ first (named (K.Key.meaning key.now)) (machine_of K.Key.meaning self.now.cells.now self.now.ring).ring }
    {
        self.ring.find(self.cells, key)
    }
}

impl Ring {
    /// A borrow over a lent slice: the struct is made for the time of the call, and the lender knows its cells and the
    /// numbers after it.
    pub fn borrow_over<K: Key + Copy>(
        &mut self,
        cells: &mut [Cell<Entry<K>>],
        m: u32,
        key: K,
    ) -> Result<Granted<Victim<K>>, Refusal>
        requires { CanBorrow K.Key.meaning m cells.old self.old }
        ensures stands { Stands cells.new self.new.table }
        ensures borrowed { rules.Borrow m (K.Key.meaning key) (machine_of K.Key.meaning cells.old self.old) (answer_of K.Key.meaning result) (machine_of K.Key.meaning cells.new self.new) }
        ensures written { Written (machine_of K.Key.meaning cells.old self.old) result }
        ensures facts { Well m (machine_of K.Key.meaning cells.new self.new) }
    {
        let mut over = RingOver {
            cells,
            ring: *self,
            m,
        };
        let answer = over.borrow(key);
        *self = over.numbers();
        answer
    }
}
