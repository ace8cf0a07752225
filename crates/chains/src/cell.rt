//! The cell: the memory of one entry, its links in the four chains, and one slot of the directory.

ghost use Rattle.std.specs.Prelude.{◌≡◌, None};

use keys::CellNo;

/// The predecessor and the successor of a cell in one chain. They mean something only while the cell is in that chain.
// stays: no `Option`, since no call reads the links of a cell that is not in the chain; an `Option` would add a write
// where a cell leaves, an `unwrap` to each read and 16 bytes to each lent cell.
#[derive(Clone, Copy)]
pub struct Links {
    pub(crate) prev: CellNo,
    pub(crate) next: CellNo,
}

/// The chains through the cells.
#[derive(Clone, Copy)]
pub enum Chain {
    /// Every entry.
    Ring,
    /// The resident cold entries.
    Cold,
    /// The entries with the test mark.
    Test,
    /// The unused cells.
    Free,
}

/// A cell of the lent memory.
///
/// ```text
///   entry        an entry, or nothing in an unused cell
///   links        one pair for each chain:   Ring  prev next
///                                           Cold  prev next
///                                           Test  prev next
///                                           Free  prev next
///   slot         the cell that holds the entry of the frame with this cell's number
///
///   A chain goes round its cells. From the tail it grows at the head:
///
///        tail                           head
///       [ 4 ] --next--> [ 0 ] --next--> [ 7 ]
///       [   ] <--prev-- [   ] <--prev-- [   ]
///         ^                               |
///         +-------------next--------------+      (and prev of the tail is the head)
///
///   The directory is the slots of all cells, by frame number:
///
///       frame     0     1     2     ...
///       slot    [ 7 ] [ 4 ] [ 0 ]   ...          the entry of frame 0 is in cell 7
/// ```
// stays: links are cell numbers, since the memory is lent to each call: there is no heap, and no reference outlives it.
// stays: a slot is no `Option`, since it is not cleared when its entry leaves: who reads it looks at the entry's frame.
#[derive(Clone, Copy)]
pub struct Cell<T> {
    pub(crate) entry: Option<T>,
    pub(crate) links: [Links; 4],
    pub(crate) slot: CellNo,
}

/// A cell as it is before a ring is opened over it: no entry, and links that mean nothing.
pub fn blank<T>() -> Cell<T>
    ensures { result.entry ≡ None }
{
    let nowhere = CellNo(0);
    let alone = Links {
        prev: nowhere,
        next: nowhere,
    };
    Cell {
        entry: None,
        links: [alone; 4],
        slot: nowhere,
    }
}
