//! What an open bundle answers: its rows, and the calls of a store.

ghost use Rattle.std.specs.Prelude.{◌≡◌, ℕ, ◌+◌, ◌*◌, ◌<◌, ◌≤◌, List, [], ◌∷◌, length, Some, None, IfOk, IfErr, MatchResult};
ghost use Rattle.std.specs.Option.{option_map};
ghost use Rattle.std.specs.Result.{result_ok};
ghost use Rattle.std.specs.List.{slice_get};
ghost use Rattle.stores.specs.Faults.{refused};
ghost use Rattle.stores.specs.declared.faults.StoreFault.TheVariants.{NotHeld};
ghost use Rattle.bundles.specs.Format.{pages_in};
ghost use Rattle.bundles.specs.Contents.{found, page_number};
ghost use Rattle.bundles.specs.Bundles.{listed_by, meant_by, listed, listing_of, place_of, unit_in, pages_of, unlisted};

use crate::bundle::Bundle;
use crate::rows::{AmountUnit, Delivery, checked_row, number_in, page_count_in};
use keys::{DeliveryKey, DeliveryNo};
use stores::{Store, StoreFault};

/// A delivery, and how many pages stand before its own.
#[derive(Clone, Copy)]
pub struct Place {
    pub before: usize,
    pub delivery: Delivery,
}

impl Bundle<'_> {
    // The place of the delivery's pages.
    // stays: a search of at most 256 rows. They are not sorted, and a map would need memory, which no call of a store takes.
    // Only the delivery's own row is decoded: over `deliveries()`, which decodes each row, it takes 1.7 times as long.
    #[tactic(auto, using(crate::proofs::Passed::fit_at, crate::proofs::Passed::sought_at, crate::proofs::Passed::sought_past))]
    fn find(&self, number: DeliveryNo) -> Result<Place, StoreFault>
        ensures answer { option_map place_of (result_ok result) ≡ found number.0 0 (listed_by self.now) }
        ensures refusal { IfErr result (λ f. f ≡ NotHeld) }
        ensures small { IfOk result (λ x. x.before ≤ 268435456) }
    {
        let mut before = 0;
        for row in self.rows {
            if number_in(row) == number {
                let delivery = checked_row(row);
                return Ok(Place { before, delivery });
            }
            before += page_count_in(row) as usize;
        }
        Err(StoreFault::NotHeld)
    }

    // The place of the key's page among all pages.
    fn locate(&self, key: &DeliveryKey) -> Result<usize, StoreFault>
        ensures { MatchResult result
            (λ n. page_number key.now.delivery.0 key.now.page.0 (listed_by self.now) ≡ Some n)
            (λ f. (page_number key.now.delivery.0 key.now.page.0 (listed_by self.now) ≡ None) × (f ≡ NotHeld)) }
    {
        let place = self.find(key.delivery)?;
        if key.page.0 >= place.delivery.pages {
            return Err(StoreFault::NotHeld);
        }
        Ok(place.before + key.page.0 as usize)
    }

    // The key's page.
    #[tactic(auto, using(crate::proofs::Placed::part_within))]
    fn page(&self, key: &DeliveryKey) -> Result<&[u8], StoreFault>
        ensures { MatchResult result
            (λ page. ((meant_by self.now).pages (key.now.delivery.0 ∷ (key.now.page.0 ∷ [])) ≡ Some page.now) × (length page.now ≡ self.now.page_size))
            (λ f. ((meant_by self.now).pages (key.now.delivery.0 ∷ (key.now.page.0 ∷ [])) ≡ None) × (f ≡ NotHeld)) }
    {
        let at = self.locate(key)? * self.page_size;
        Ok(&self.pages[at..at + self.page_size])
    }

    /// How many deliveries the bundle lists.
    pub fn row_count(&self) -> usize
        ensures { result ≡ length (listed_by self.now) }
    {
        self.rows.len()
    }

    /// How many pages the bundle has in all.
    pub fn page_total(&self) -> usize
        ensures { result ≡ pages_in (listed_by self.now) }
    {
        self.pages.len() / self.page_size
    }

    /// What the i-th row lists, counted from 0.
    pub fn row(&self, i: usize) -> Option<Delivery>
        ensures { option_map listing_of result ≡ option_map listed (slice_get (listed_by self.now) i) }
    {
        let row = self.rows.get(i)?;
        Some(checked_row(row))
    }

    /// The unit of a delivery's amounts.
    pub fn unit(&self, delivery: DeliveryNo) -> Result<AmountUnit, StoreFault>
        ensures answer { result_ok result ≡ unit_in delivery.0 (listed_by self.now) }
        ensures refusal { refused result ≡ unlisted delivery.0 (listed_by self.now) }
    {
        Ok(self.find(delivery)?.delivery.unit)
    }

    /// How many pages a delivery has.
    pub fn page_count(&self, delivery: DeliveryNo) -> Result<u32, StoreFault>
        ensures answer { result_ok result ≡ pages_of delivery.0 (listed_by self.now) }
        ensures refusal { refused result ≡ unlisted delivery.0 (listed_by self.now) }
    {
        Ok(self.find(delivery)?.delivery.pages)
    }
}

// stays: `holds` and `read` read as the work file's do. A body in the trait would ask every store to have its pages as bytes,
// and a function for both would be as long as what it replaces.
impl Store<DeliveryKey> for Bundle<'_> {
    ghost meant = { meant_by };

    fn page_size(&self) -> usize {
        self.page_size
    }

    fn is_open(&self) -> bool {
        false
    }

    fn holds(&self, key: &DeliveryKey) -> bool {
        self.page(key).is_ok()
    }

    fn read(&mut self, key: &DeliveryKey, buffer: &mut [u8]) -> Result<(), StoreFault> {
        if buffer.len() != self.page_size {
            return Err(StoreFault::BufferLength);
        }
        buffer.copy_from_slice(self.page(key)?);
        Ok(())
    }

    fn write(&mut self, key: &DeliveryKey, page: &[u8]) -> Result<(), StoreFault> {
        if page.len() != self.page_size {
            return Err(StoreFault::BufferLength);
        }
        if !self.holds(key) {
            return Err(StoreFault::NotHeld);
        }
        Err(StoreFault::Sealed)
    }
}
