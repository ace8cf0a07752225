//! One doubly linked chain through the cells, whichever of the four it is: a cell joins at the head, or leaves.
//! The chain's order is a walk along `next` from the tail, so it is a function of the cells.

ghost use Rattle.std.specs.Prelude.{◌≡◌, ◌<◌, ◌==◌, if◌then◌else◌};

use crate::cell::{Cell, Chain};
use crate::link::{links_of, tie};
use keys::CellNo;

/// The two ends of a chain that has a cell, and how many cells it has.
#[derive(Clone, Copy)]
pub struct Ends {
    pub(crate) tail: CellNo,
    pub(crate) head: CellNo,
    pub(crate) len: usize,
    ghost some: { 0 < len },
}

/// Where `end` is i, `past`; else `end`.
fn beyond(end: CellNo, i: CellNo, past: CellNo) -> CellNo
    ensures { result ≡ (if end.0 == i.0 then past else end) }
{
    if end == i { past } else { end }
}

impl Ends {
    ghost use Rattle.std.specs.Prelude.{[], ◌∷◌, ◌++◌, length, Some};
    ghost use Rattle.std.specs.List.{ContainsAt};
    ghost use Rattle.chains.specs.Cells.{Framed};
    ghost use Rattle.chains.specs.Orders.{Sound, order_of, Misses, without};

    /// A cell that is not in a chain joins it at the head; a chain with no cell has no ends before.
    pub(crate) fn push<T>(
        chain: Option<Ends>,
        cells: &mut [Cell<T>],
        which: Chain,
        i: CellNo,
    ) -> Ends
        requires cell { i.0 < length cells.old }
        requires sound { Sound cells.old which chain }
        requires free { Misses i.0 (order_of cells.old which chain) }
        ensures sound { Sound cells.new which (Some result) }
        ensures order { order_of cells.new which (Some result) ≡ order_of cells.old which chain ++ i.0 ∷ [] }
        ensures others { Framed cells.old cells.new which }
    {
        let Some(ends) = chain else {
            tie(cells, which, i, i);
            return Ends {
                tail: i,
                head: i,
                len: 1,
            };
        };
        tie(cells, which, ends.head, i);
        tie(cells, which, i, ends.tail);
        Ends {
            tail: ends.tail,
            head: i,
            len: ends.len + 1,
        }
    }

    /// A cell of the chain leaves it; the answer is the ends of what is left.
    pub(crate) fn unlink<T>(self, cells: &mut [Cell<T>], which: Chain, i: CellNo) -> Option<Ends>
        requires sound { Sound cells.old which (Some self) }
        requires there { ContainsAt (order_of cells.old which (Some self)) i.0 }
        ensures sound { Sound cells.new which result }
        ensures order { order_of cells.new which result ≡ without i.0 (order_of cells.old which (Some self)) }
        ensures others { Framed cells.old cells.new which }
    {
        let around = links_of(cells, which, i);
        tie(cells, which, around.prev, around.next);
        if self.len == 1 {
            return None;
        }
        Some(Ends {
            tail: beyond(self.tail, i, around.next),
            head: beyond(self.head, i, around.prev),
            len: self.len - 1,
        })
    }
}
