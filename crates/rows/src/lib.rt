//! The ring's entries as rows, a cell number and its entry, from the tail to the head.
//!
//! Each change says what becomes of the list of rows; the chains, the unused cells, the directory and the counts follow,
//! and no caller sees them. Questions: `tail_row`, `marked_row`, `candidate`, `find`, `by_frame`, `list` and the counts.
//! Changes: `open`, `enter`, `turn`, `rewrite`, `take_out`. A change looks only at the flags of the old and of the new
//! entry; it knows none of the rules by which entries change.

#![tactic(auto)]

ghost use Rattle.std.specs.Prelude.{◌≡◌, ℕ, List, ◌+◌, ◌^◌, ◌<◌, true, false, [], ◌∷◌, ◌++◌, length, IfOk, Some, None};
ghost use Rattle.std.specs.List.{ContainsAt};
ghost use Rattle.std.specs.Iterator.{YieldsFirst, item_count};
ghost use Rattle.chains.specs.declared.cell.Chain.TheVariants.{Ring, Cold, Test, Free};
ghost use Rattle.chains.specs.Shape.{shape_of, Intact};
ghost use Rattle.keys.specs.Same.{same_list};
ghost use Rattle.records.specs.Questions.{cold_resident, remembered, idle, evictable, lies_in};
ghost use Rattle.rows.specs.declared.Row.{Row};
ghost use Rattle.rows.specs.Rows.{counted, plus, minus, SumsFit, NoneMore, has_entries, rows_on, ahead, OnWay, number, without_cell, entries_of, rows_in, first_row, first_by, Stands, Members, Kept, Unnamed, Fits, belongs, Placed, noted, refiled, rewritten, replaced};

use chains::{Cell, Chain, Chains};
use keys::{CellNo, FrameNo, Key};
pub use records::Entry;
use std::alloc::{AllocError, Global};
use std::marker::Model;
use std::ops::{Add, Sub};

/// An entry of the ring, with the cell that it stands in.
#[derive(Clone, Copy, PartialEq, Eq, Debug)]
pub struct Row<K> {
    pub cell: CellNo,
    pub entry: Entry<K>,
}

/// How many entries are hot, are remembered, are resident without a loan.
#[derive(Clone, Copy, PartialEq, Eq, Debug, Default)]
struct Counts {
    hots: usize,
    past: usize,
    idles: usize,
}

impl Counts {
    /// What an entry adds to each count.
    fn of<K>(entry: &Entry<K>) -> Counts
        ensures { result ≡ counted entry.now }
    {
        Counts {
            hots: usize::from(entry.hot),
            past: usize::from(entry.is_remembered()),
            idles: usize::from(entry.is_idle()),
        }
    }
}

impl Add for Counts {
    type Output = Counts;

    ghost can_add = { λ a b. SumsFit a b };

    ghost add_gives = { λ a b r. r ≡ plus a b };

    fn add(self, rhs: Counts) -> Counts {
        Counts {
            hots: self.hots + rhs.hots,
            past: self.past + rhs.past,
            idles: self.idles + rhs.idles,
        }
    }
}

impl Sub for Counts {
    type Output = Counts;

    ghost can_sub = { λ a b. NoneMore a b };

    ghost sub_gives = { λ a b r. r ≡ minus a b };

    fn sub(self, rhs: Counts) -> Counts {
        Counts {
            hots: self.hots - rhs.hots,
            past: self.past - rhs.past,
            idles: self.idles - rhs.idles,
        }
    }
}

/// The plain numbers of the rows: their chains and the counts.
// stays: that the cells and the numbers agree, `Stands`, is a clause of each call and no invariant of this type, since the
// cells are lent to each call (fixed memory, no heap): no value holds both. `Chains` says what was tried.
#[derive(Clone, Copy)]
pub struct Table {
    chains: Chains,
    counts: Counts,
}

impl Table {
    /// Empties all cells. What the cells held before is of no account.
    pub fn open<K: Copy>(cells: &mut [Cell<Entry<K>>]) -> Table
        requires { length cells.old < 2 ^ 32 }
        ensures stands { Stands cells.new result }
        ensures rows { rows_in cells.new result ≡ [] }
    {
        let mut chains = Chains::empty(cells);
        let n = cells.len() as u32;
        // stays: over the cells' numbers, since `put` and `push` take all cells and the number of one.
        for i in 0..n {
            chains.put(cells, CellNo(i), None);
            chains.push(cells, Chain::Free, CellNo(i));
        }
        Table {
            chains,
            counts: Counts::default(),
        }
    }

    /// How many entries are hot.
    pub fn hot_count<K>(&self, cells: &[Cell<Entry<K>>]) -> usize
        requires { Stands cells.now self.now }
        ensures { result ≡ number (λ e. e.hot) (rows_in cells.now self.now) }
    {
        self.counts.hots
    }

    /// How many entries are remembered.
    pub fn remembered_count<K>(&self, cells: &[Cell<Entry<K>>]) -> usize
        requires { Stands cells.now self.now }
        ensures { result ≡ number remembered (rows_in cells.now self.now) }
    {
        self.counts.past
    }

    /// How many entries are resident without a loan.
    pub fn idle_count<K>(&self, cells: &[Cell<Entry<K>>]) -> usize
        requires { Stands cells.now self.now }
        ensures { result ≡ number idle (rows_in cells.now self.now) }
    {
        self.counts.idles
    }

    /// The rows of one chain of entries, from the tail to the head.
    fn walk<'a, K: Copy>(&'a self, cells: &'a [Cell<Entry<K>>], which: Chain) -> Walk<'a, K>
        requires stands { Stands cells.now self.now }
        requires entries { has_entries which ≡ true }
        ensures { result ≡ rows_on which (rows_in cells.now self.now) }
    {
        let chains = &self.chains;
        Walk {
            cells,
            chains,
            which,
            at: chains.first(cells, which).unwrap_or(CellNo(0)),
            left: chains.len(cells, which),
        }
    }

    /// The row at the tail.
    pub fn tail_row<K: Copy>(&self, cells: &[Cell<Entry<K>>]) -> Option<Row<K>>
        requires { Stands cells.now self.now }
        ensures { result ≡ first_row (rows_in cells.now self.now) }
    {
        self.walk(cells, Chain::Ring).next()
    }

    /// The row with the test mark nearest the tail.
    pub fn marked_row<K: Copy>(&self, cells: &[Cell<Entry<K>>]) -> Option<Row<K>>
        requires { Stands cells.now self.now }
        ensures { result ≡ first_by (λ e. e.test) (rows_in cells.now self.now) }
    {
        self.walk(cells, Chain::Test).next()
    }

    /// The resident cold row nearest the tail that has no loan. It passes over those on loan, and looks at no other row.
    pub fn candidate<K: Copy>(&self, cells: &[Cell<Entry<K>>]) -> Option<Row<K>>
        requires { Stands cells.now self.now }
        ensures { result ≡ first_by evictable (rows_in cells.now self.now) }
    {
        self.walk(cells, Chain::Cold)
            .find(|row| row.entry.loans == 0)
    }

    /// The row of a key: what a search of the whole ring from the tail finds. How it searches is nobody's business.
    pub fn find<K: Key + Copy>(&self, cells: &[Cell<Entry<K>>], key: &K) -> Option<Row<K>>
        requires { Stands cells.now self.now }
        ensures { result ≡ first_by (λ e. same_list (K.Key.meaning key.now) (K.Key.meaning e.key)) (rows_in cells.now self.now) }
    {
        self.walk(cells, Chain::Ring)
            .find(|row| key.same(&row.entry.key))
    }

    /// All entries, from the tail to the head, in a vector of their own: for whoever wants to look at the whole ring.
    pub fn list<K: Copy>(
        &self,
        heap: Global,
        cells: &[Cell<Entry<K>>],
    ) -> Result<Vec<Entry<K>>, AllocError>
        requires { Stands cells.now self.now }
        ensures { IfOk result (λ v. v.items ≡ entries_of (rows_in cells.now self.now)) }
    {
        self.walk(cells, Chain::Ring)
            .map(|row| row.entry)
            .collect(heap)
    }

    /// The row whose page lies in a frame, in constant time: what a search of the whole ring from the tail finds.
    pub fn by_frame<K: Copy>(&self, cells: &[Cell<Entry<K>>], frame: FrameNo) -> Option<Row<K>>
        requires { Stands cells.now self.now }
        ensures { result ≡ first_by (lies_in frame.0) (rows_in cells.now self.now) }
    {
        let cell = self.chains.slot(cells, frame);
        let entry = self.chains.entry(cells, cell)?;
        entry.lies_in(frame).then_some(Row { cell, entry })
    }

    /// A new entry at the head; the answer is its cell. No row may name the entry's frame.
    pub fn enter<K: Copy>(&mut self, cells: &mut [Cell<Entry<K>>], new: Entry<K>) -> CellNo
        requires stands { Stands cells.old self.old }
        requires room { length (rows_in cells.old self.old) < length cells.old }
        requires frame { Unnamed (length cells.old) (rows_in cells.old self.old) new.frame }
        ensures stands { Stands cells.new self.new }
        ensures rows { rows_in cells.new self.new ≡ rows_in cells.old self.old ++ record { cell = result; entry = new } ∷ [] }
    {
        let i = self.chains.first(cells, Chain::Free).unwrap();
        note(cells, &self.chains, i, new.frame);
        refile(cells, &mut self.chains, i, None, Some(new));
        self.counts = self.counts + Counts::of(&new);
        i
    }

    /// The entry of a row becomes `new` and goes to the head.
    // inlined: each step of the hands knows some flags of the old and of the new entry, so that it passes over the chains and
    // counts which they do not touch
    #[inline(always)]
    pub fn turn<K: Copy>(&mut self, cells: &mut [Cell<Entry<K>>], row: Row<K>, new: Entry<K>)
        requires stands { Stands cells.old self.old }
        requires there { ContainsAt (rows_in cells.old self.old) row }
        requires frame { Kept row.entry.frame new.frame }
        ensures stands { Stands cells.new self.new }
        ensures rows { rows_in cells.new self.new ≡ without_cell row.cell.0 (rows_in cells.old self.old) ++ record { cell = row.cell; entry = new } ∷ [] }
    {
        refile(
            cells,
            &mut self.chains,
            row.cell,
            Some(row.entry),
            Some(new),
        );
        self.counts = self.counts - Counts::of(&row.entry) + Counts::of(&new);
    }

    /// The entry of a row becomes `new` where it stands. It joins no chain by that: what is cold or marked then was so before.
    // inlined: most callers change one field, so that neither entry has to be laid out in memory for a call
    #[inline(always)]
    pub fn rewrite<K: Copy>(&mut self, cells: &mut [Cell<Entry<K>>], row: Row<K>, new: Entry<K>)
        requires stands { Stands cells.old self.old }
        requires there { ContainsAt (rows_in cells.old self.old) row }
        requires frame { Kept row.entry.frame new.frame }
        requires cold { cold_resident new ≡ true → cold_resident row.entry ≡ true }
        requires test { new.test ≡ true → row.entry.test ≡ true }
        ensures stands { Stands cells.new self.new }
        ensures rows { rows_in cells.new self.new ≡ replaced row.cell.0 new (rows_in cells.old self.old) }
    {
        rewire(cells, &mut self.chains, row, new);
        self.counts = self.counts - Counts::of(&row.entry) + Counts::of(&new);
    }

    /// A row is removed.
    pub fn take_out<K: Copy>(&mut self, cells: &mut [Cell<Entry<K>>], row: Row<K>)
        requires stands { Stands cells.old self.old }
        requires there { ContainsAt (rows_in cells.old self.old) row }
        ensures stands { Stands cells.new self.new }
        ensures rows { rows_in cells.new self.new ≡ without_cell row.cell.0 (rows_in cells.old self.old) }
    {
        refile(cells, &mut self.chains, row.cell, Some(row.entry), None);
        self.counts = self.counts - Counts::of(&row.entry);
    }
}

/// The rows of one chain that are still to come.
#[derive(Drop)]
struct Walk<'a, K> {
    cells: &'a [Cell<Entry<K>>],
    chains: &'a Chains,
    which: Chain,
    /// The cell of the next row, if one is left.
    // stays: no `Option`. `left` says when to stop; past that `at` is not read, be it the first cell again, where a chain goes
    // round, or any cell, where a chain is empty.
    at: CellNo,
    left: usize,
}

impl<'a, K> Model for Walk<'a, K> {
    ghost Value = { List (Row K) };

    ghost view = { λ w. ahead (shape_of w.cells.now w.chains.now) w.which w.left };

    ghost invariant = { λ w. OnWay (shape_of w.cells.now w.chains.now) w.which w.at.0 w.left };
}

impl<'a, K: Copy> Iterator for Walk<'a, K> {
    type Item = Row<K>;

    ghost next_gives = { YieldsFirst (λ rows. rows) };

    ghost remaining = { item_count (λ rows. rows) };

    fn next(&mut self) -> Option<Row<K>> {
        self.left = self.left.checked_sub(1)?;
        let cell = self.at;
        let entry = self.chains.entry(self.cells, cell).unwrap();
        self.at = self.chains.next(self.cells, self.which, cell);
        Some(Row { cell, entry })
    }
}

// stays: the functions below change the chains alone, while the counts of a `Table` are not yet right; `Chains` is another
// crate's, so they can't be its methods.

/// The slot of a frame, if there is one, is given a cell.
fn note<K>(cells: &mut [Cell<Entry<K>>], chains: &Chains, i: CellNo, frame: Option<FrameNo>)
    requires intact { Intact cells.old chains.now }
    requires fits { Fits (shape_of cells.old chains.now).size frame }
    ensures intact { Intact cells.new chains.now }
    ensures shape { shape_of cells.new chains.now ≡ noted i.0 frame (shape_of cells.old chains.now) }
{
    if let Some(f) = frame {
        chains.set_slot(cells, f, i);
    }
}

/// Whether a cell with such an entry, or with none, belongs to a chain.
fn belongs<K: Copy>(which: Chain, entry: Option<Entry<K>>) -> bool
    ensures { result ≡ belongs which entry }
{
    match which {
        Chain::Ring => entry.is_some(),
        Chain::Cold => entry.is_some_and(|e| e.is_cold_resident()),
        Chain::Test => entry.is_some_and(|e| e.test),
        Chain::Free => entry.is_none(),
    }
}

/// A cell takes an entry, another entry or none. It goes to the head of each chain that it then belongs to, and leaves the
/// others.
// inlined: each caller knows whether there was and is to be an entry, so that some of what follows is settled beforehand
#[inline(always)]
fn refile<K: Copy>(
    cells: &mut [Cell<Entry<K>>],
    chains: &mut Chains,
    i: CellNo,
    was: Option<Entry<K>>,
    is: Option<Entry<K>>,
)
    requires intact { Intact cells.old chains.old }
    requires inside { i.0 < (shape_of cells.old chains.old).size }
    requires there { Placed i.0 was (shape_of cells.old chains.old) }
    ensures intact { Intact cells.new chains.new }
    ensures shape { shape_of cells.new chains.new ≡ refiled i.0 is (shape_of cells.old chains.old) }
{
    chains.put(cells, i, is);
    // stays: four calls and no loop over the chains: a loop needs that no chain comes twice, and is no shorter.
    let (ring, cold, test, free) = (Chain::Ring, Chain::Cold, Chain::Test, Chain::Free);
    chains.follow(cells, ring, i, belongs(ring, was), belongs(ring, is));
    chains.follow(cells, cold, i, belongs(cold, was), belongs(cold, is));
    chains.follow(cells, test, i, belongs(test, was), belongs(test, is));
    chains.follow(cells, free, i, belongs(free, was), belongs(free, is));
}

/// A cell of the ring takes a new entry where it stands, and may leave the chains of cold and of marked entries.
// stays: apart from `refile`, which moves the cell to the head of its chains.
fn rewire<K: Copy>(cells: &mut [Cell<Entry<K>>], chains: &mut Chains, row: Row<K>, new: Entry<K>)
    requires intact { Intact cells.old chains.old }
    requires there { Members (shape_of cells.old chains.old) row }
    ensures intact { Intact cells.new chains.new }
    ensures shape { shape_of cells.new chains.new ≡ rewritten row new (shape_of cells.old chains.old) }
{
    let i = row.cell;
    chains.put(cells, i, Some(new));
    chains.keep(
        cells,
        Chain::Cold,
        i,
        row.entry.is_cold_resident(),
        new.is_cold_resident(),
    );
    chains.keep(cells, Chain::Test, i, row.entry.test, new.test);
}
