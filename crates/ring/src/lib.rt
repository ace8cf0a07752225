//! The CLOCK-Pro ring over lent cells: each call does what the list machine says, on the list that the cells hold.
//!
//! A ring is plain numbers; its cells, twice as many as it has frames, are lent to each call. `machine_of` reads the
//! machine's state off both, and every contract is an equation or a relation of the machine between that state at entry
//! and at exit. `Stands` says that cells and numbers belong together. `hands` has the steps of the three hands, `runs`
//! their runs, `calls` what a pool does with a ring, `over` a struct that holds the cells for the time of a call.

#![tactic(auto)]

mod calls;
mod hands;
mod over;
mod runs;

ghost use Rattle.std.specs.Prelude.{◌≡◌, ◌^◌, ◌<◌, ◌≤◌, map, length, IfOk};
ghost use Rattle.rows.specs.Rows.{Stands};
ghost use Rattle.machine.specs.Hands.{opened};
ghost use Rattle.machine.specs.Facts.{Well};
ghost use Rattle.records.specs.Reading.{entry_of};
ghost use Rattle.ring.specs.Model.{machine_of};

use chains::Cell;
pub use hands::{Choice, Victim, by_key};
use keys::Key;
pub use over::RingOver;
use records::Entry;
use rows::Table;
pub use runs::Freed;
use std::alloc::{AllocError, Global};

/// A ring's plain numbers: those of its rows, the cold allocation c, and the number u of frames in use.
// stays: that the cells and the numbers belong together, `Stands`, is a clause of each call, since the cells are lent to each
// (`Chains` says what was tried). A struct over a lent slice with a model was tried too, on a small case: its own methods
// prove, but whoever lends the cells learns nothing of them afterwards, and a pool has to.
// stays: m is an argument. A call holds for every m for which the facts do; a ring that kept one number would ask more.
#[derive(Clone, Copy)]
pub struct Ring {
    table: Table,
    cold: u32,
    used: u32,
}

impl Ring {
    /// Opens a ring of m frames over the cells: all cells are emptied.
    pub fn open<K: Key + Copy>(cells: &mut [Cell<Entry<K>>], m: u32) -> Ring
        requires frames { 2 ≤ m }
        requires memory { length cells.old < 2 ^ 32 }
        ensures stands { Stands cells.new result.table }
        ensures state { machine_of K.Key.meaning cells.new result ≡ opened m }
        ensures facts { Well m (machine_of K.Key.meaning cells.new result) }
    {
        let table = Table::open(cells);
        Ring {
            table,
            cold: m - 1,
            used: 0,
        }
    }

    /// The cold allocation.
    pub fn cold_allocation(&self) -> u32
        ensures { result ≡ self.now.cold }
    {
        self.cold
    }

    /// The number of frames in use.
    pub fn frames_used(&self) -> u32
        ensures { result ≡ self.now.used }
    {
        self.used
    }

    /// All entries, from the tail to the head, in a vector of their own: for whoever wants to look at the whole ring.
    pub fn list<K: Key + Copy>(
        &self,
        heap: Global,
        cells: &[Cell<Entry<K>>],
    ) -> Result<Vec<Entry<K>>, AllocError>
        requires { Stands cells.now self.now.table }
        ensures { IfOk result (λ v. map (entry_of K.Key.meaning) v.items ≡ (machine_of K.Key.meaning cells.now self.now).ring) }
    {
        self.table.list(heap, cells)
    }
}
