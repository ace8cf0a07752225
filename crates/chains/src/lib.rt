//! Four doubly linked chains through one lent slice of cells, and the directory from frame to cell.
//!
//! All that a caller knows of the memory is its `Shape`: how many cells there are, the order of each chain, the entry of
//! each cell and the slot of each frame. Each call says what becomes of the whole shape, by one equation. `cell` has the
//! cell, drawn; `link` reads and writes links; `ends` has one chain, whichever it is.
//!
//! The directory from frame to cell lives in the cells: the slot of frame f is a field of cell number f, so that from a
//! frame number to an entry is one read. A frame number is no cell number; only `slot` and `set_slot` turn the one into a
//! place in the slice.

#![tactic(auto)]

mod cell;
mod ends;
mod link;

ghost use Rattle.std.specs.Prelude.{◌≡◌, ℕ, ◌+◌, ◌<◌, [], ◌∷◌, length, slice_index};
ghost use Rattle.std.specs.List.{ContainsAt};
ghost use Rattle.chains.specs.Orders.{Misses, IsAmong};
ghost use Rattle.chains.specs.Shape.{shape_of, Intact, ends_at, pushed, unlinked, turned, stored, slotted, followed, stayed, head_of, name_of};

pub use cell::{Cell, Chain, Links, blank};
pub use ends::Ends;
use keys::{CellNo, FrameNo};
use link::links_of;

/// The plain numbers of the chains: the ends of each, by the chain's place. A chain with no cell has no ends.
// stays: the cells are a parameter of each call. Tried on a small case: in a struct that holds a `&mut` slice, a ghost
// field over it proves only where each method is one call of a function without the struct, so each would stand twice.
#[derive(Clone, Copy)]
pub struct Chains {
    ends: [Option<Ends>; 4],
}

impl Chains {
    /// The ends of a chain that has a cell.
    fn at(&self, which: Chain) -> Option<Ends>
        ensures { result ≡ ends_at self.now which }
    {
        self.ends[which as usize]
    }

    /// Chains with no cell.
    pub fn empty<T>(cells: &[Cell<T>]) -> Chains
        ensures intact { Intact cells.now result }
        ensures none { (w : Chain) → (shape_of cells.now result).order w ≡ [] }
    {
        Chains { ends: [None; 4] }
    }

    /// The cell at a chain's tail.
    pub fn first<T>(&self, cells: &[Cell<T>], which: Chain) -> Option<CellNo>
        ensures { name_of result ≡ head_of ((shape_of cells.now self.now).order which) }
    {
        self.at(which).map(|ends| ends.tail)
    }

    /// How many cells a chain has.
    pub fn len<T>(&self, cells: &[Cell<T>], which: Chain) -> usize
        ensures { result ≡ length ((shape_of cells.now self.now).order which) }
    {
        self.at(which).map_or(0, |ends| ends.len)
    }

    /// The cell that follows a cell of a chain, unless that is the last.
    // stays: no `Option`. A chain goes round, so there is always a next cell; who walks knows how many are left.
    pub fn next<T>(&self, cells: &[Cell<T>], which: Chain, i: CellNo) -> CellNo
        requires { i.0 < (shape_of cells.now self.now).size }
        ensures { (k : ℕ) → k + 1 < length ((shape_of cells.now self.now).order which) → i.0 ≡ slice_index ((shape_of cells.now self.now).order which) k → result.0 ≡ slice_index ((shape_of cells.now self.now).order which) (k + 1) }
    {
        links_of(cells, which, i).next
    }

    /// A cell's entry; none past the last cell.
    pub fn entry<T: Copy>(&self, cells: &[Cell<T>], i: CellNo) -> Option<T>
        ensures { result ≡ (shape_of cells.now self.now).entry i.0 }
    {
        cells.get(i.0 as usize)?.entry
    }

    /// What the slot of a frame has: the cell of its entry, if it has one. It means nothing for any other frame.
    pub fn slot<T>(&self, cells: &[Cell<T>], frame: FrameNo) -> CellNo
        ensures { result.0 ≡ (shape_of cells.now self.now).slot frame.0 }
    {
        cells
            .get(frame.0 as usize)
            .map_or(CellNo(0), |cell| cell.slot)
    }

    /// A cell joins a chain at its head.
    pub fn push<T>(&mut self, cells: &mut [Cell<T>], which: Chain, i: CellNo)
        requires intact { Intact cells.old self.old }
        requires cell { i.0 < (shape_of cells.old self.old).size }
        requires away { Misses i.0 ((shape_of cells.old self.old).order which) }
        ensures intact { Intact cells.new self.new }
        ensures shape { shape_of cells.new self.new ≡ pushed which i.0 (shape_of cells.old self.old) }
    {
        let ends = Ends::push(self.at(which), cells, which, i);
        self.ends[which as usize] = Some(ends);
    }

    /// A cell leaves a chain.
    pub fn unlink<T>(&mut self, cells: &mut [Cell<T>], which: Chain, i: CellNo)
        requires intact { Intact cells.old self.old }
        requires there { ContainsAt ((shape_of cells.old self.old).order which) i.0 }
        ensures intact { Intact cells.new self.new }
        ensures shape { shape_of cells.new self.new ≡ unlinked which i.0 (shape_of cells.old self.old) }
    {
        let ends = self.at(which).unwrap();
        self.ends[which as usize] = ends.unlink(cells, which, i);
    }

    /// A cell of a chain goes to its head.
    pub fn to_head<T>(&mut self, cells: &mut [Cell<T>], which: Chain, i: CellNo)
        requires intact { Intact cells.old self.old }
        requires there { ContainsAt ((shape_of cells.old self.old).order which) i.0 }
        ensures intact { Intact cells.new self.new }
        ensures shape { shape_of cells.new self.new ≡ turned which i.0 (shape_of cells.old self.old) }
    {
        self.unlink(cells, which, i);
        self.push(cells, which, i);
    }

    /// A cell leaves a chain if it was in it.
    fn leave<T>(&mut self, cells: &mut [Cell<T>], which: Chain, i: CellNo, was: bool)
        requires intact { Intact cells.old self.old }
        requires member { IsAmong was i.0 ((shape_of cells.old self.old).order which) }
        ensures intact { Intact cells.new self.new }
        ensures shape { shape_of cells.new self.new ≡ unlinked which i.0 (shape_of cells.old self.old) }
    {
        if was {
            self.unlink(cells, which, i)
        }
    }

    /// A chain whose member goes to its head, leaves it, joins it or stays away, by whether the cell was and is to be in it.
    // inlined: a caller names the chain, and often knows one of the two answers
    #[inline]
    pub fn follow<T>(&mut self, cells: &mut [Cell<T>], which: Chain, i: CellNo, was: bool, is: bool)
        requires intact { Intact cells.old self.old }
        requires cell { i.0 < (shape_of cells.old self.old).size }
        requires member { IsAmong was i.0 ((shape_of cells.old self.old).order which) }
        ensures intact { Intact cells.new self.new }
        ensures shape { shape_of cells.new self.new ≡ followed which i.0 is (shape_of cells.old self.old) }
    {
        self.leave(cells, which, i, was);
        if is {
            self.push(cells, which, i)
        }
    }

    /// A chain whose member stays where it is, or leaves it.
    pub fn keep<T>(&mut self, cells: &mut [Cell<T>], which: Chain, i: CellNo, was: bool, is: bool)
        requires intact { Intact cells.old self.old }
        requires member { IsAmong was i.0 ((shape_of cells.old self.old).order which) }
        ensures intact { Intact cells.new self.new }
        ensures shape { shape_of cells.new self.new ≡ stayed which i.0 is (shape_of cells.old self.old) }
    {
        if !is {
            self.leave(cells, which, i, was)
        }
    }

    /// A cell's entry is written.
    #[tactic(auto, unfolding(crate::specs::Shape::shape_of))]
    pub fn put<T: Copy>(&self, cells: &mut [Cell<T>], i: CellNo, entry: Option<T>)
        requires intact { Intact cells.old self.now }
        requires cell { i.0 < (shape_of cells.old self.now).size }
        ensures intact { Intact cells.new self.now }
        ensures shape { shape_of cells.new self.now ≡ stored i.0 entry (shape_of cells.old self.now) }
    {
        cells[i.0 as usize].entry = entry;
    }

    /// The directory's slot of a frame is written.
    #[tactic(auto, unfolding(crate::specs::Shape::shape_of))]
    pub fn set_slot<T>(&self, cells: &mut [Cell<T>], frame: FrameNo, i: CellNo)
        requires intact { Intact cells.old self.now }
        requires fits { frame.0 < (shape_of cells.old self.now).size }
        ensures intact { Intact cells.new self.now }
        ensures shape { shape_of cells.new self.now ≡ slotted frame.0 i.0 (shape_of cells.old self.now) }
    {
        cells[frame.0 as usize].slot = i;
    }
}
