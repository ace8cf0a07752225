//! Going through the deliveries of a bundle.

ghost use Rattle.std.specs.Prelude.{◌≡◌};
ghost use Rattle.std.specs.Iterator.{YieldsFirstBy, item_count};
ghost use Rattle.bundles.specs.Bundles.{listed_by, row_of, rows_left};

use crate::bundle::{Bundle, Deliveries};
use crate::rows::{Delivery, checked_row};

impl Iterator for Deliveries<'_> {
    type Item = Delivery;

    ghost next_gives = { YieldsFirstBy row_of rows_left };

    ghost remaining = { item_count rows_left };

    fn next(&mut self) -> Option<Delivery> {
        let (row, rest) = self.rows.split_first()?;
        self.rows = rest;
        Some(checked_row(row))
    }
}

impl<'a> Bundle<'a> {
    /// The deliveries that the bundle lists.
    #[tactic(auto, using(crate::proofs::Passed::all_fit))]
    pub fn deliveries(&self) -> Deliveries<'a>
        ensures { rows_left result ≡ listed_by self.now }
    {
        Deliveries { rows: self.rows }
    }
}
