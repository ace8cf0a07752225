//! The links in the cells: how one chain's are read, and the one way in which they are written.

ghost use Rattle.std.specs.Prelude.{◌≡◌, ◌<◌, ◌≢◌, length};
ghost use Rattle.chains.specs.Cells.{next_of, prev_of, Put, Framed, links_at};

use crate::cell::{Cell, Chain, Links};
use keys::CellNo;

/// The predecessor and the successor of a cell; the head's successor is the tail.
pub(crate) fn links_of<T>(cells: &[Cell<T>], which: Chain, i: CellNo) -> Links
    requires { i.0 < length cells.now }
    ensures ahead { result.next.0 ≡ next_of cells.now which i.0 }
    ensures back { result.prev.0 ≡ prev_of cells.now which i.0 }
{
    cells[i.0 as usize].links[which as usize]
}

/// Writes the links of one chain in a cell.
fn set_links(links: &mut [Links; 4], which: Chain, to: Links)
    ensures here { links_at links.new which ≡ to }
    ensures others { (v : Chain) → v ≢ which → links_at links.new v ≡ links_at links.old v }
{
    links[which as usize] = to;
}

/// Makes b the successor of a, and a the predecessor of b.
pub(crate) fn tie<T>(cells: &mut [Cell<T>], which: Chain, a: CellNo, b: CellNo)
    requires { (a.0 < length cells.old) × (b.0 < length cells.old) }
    ensures ahead { Put (next_of cells.old which) (next_of cells.new which) a.0 b.0 }
    ensures back { Put (prev_of cells.old which) (prev_of cells.new which) b.0 a.0 }
    ensures others { Framed cells.old cells.new which }
{
    let from = links_of(cells, which, a);
    set_links(
        &mut cells[a.0 as usize].links,
        which,
        Links { next: b, ..from },
    );
    let to = links_of(cells, which, b);
    set_links(
        &mut cells[b.0 as usize].links,
        which,
        Links { prev: a, ..to },
    );
}
