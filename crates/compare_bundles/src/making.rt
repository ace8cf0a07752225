//! Makes bundles, good and damaged, the same ones in each run.

use std::alloc::{AllocError, Global};

/// A generator of numbers.
// stays: the comparison of the rings has its own, of other widths: the stored output of each hangs on its numbers.
#[derive(Clone, Copy)]
pub(crate) struct Dice {
    state: u32,
}

impl Dice {
    pub(crate) fn new(state: u32) -> Dice {
        Dice { state }
    }

    /// The next number, below `limit`, which is at most 65,536.
    pub(crate) fn below(&mut self, limit: u32) -> u32 {
        self.state = self
            .state
            .wrapping_mul(1_664_525)
            .wrapping_add(1_013_904_223);
        let high = self.state >> 16;
        if limit == 0 { 0 } else { high % limit }
    }

    pub(crate) fn byte(&mut self) -> u8 {
        (self.below(256) & 0xff) as u8
    }

    /// Good rows: no delivery twice, 0 to 5 pages.
    pub(crate) fn rows(&mut self, heap: Global, count: u16) -> Result<Vec<Row>, AllocError> {
        let base = match self.below(8) {
            0 => 0,
            1 => 65_535,
            _ => self.below(65_536),
        };
        (0..count)
            .map(|i| Row {
                delivery: (base & 0xffff) as u16 ^ i.wrapping_mul(257),
                unit: (self.below(2) & 1) as u8,
                pages: self.below(6),
            })
            .collect(heap)
    }
}

/// A row to be written.
#[derive(Clone, Copy)]
pub(crate) struct Row {
    pub delivery: u16,
    // stays: a number, since wrong ones are written too
    pub unit: u8,
    pub pages: u32,
}

/// The sum of the page counts, as the four bytes of a count have it.
// stays: the plain reader has a sum of its own, so that neither answers for the other
pub(crate) fn page_sum(rows: &[Row]) -> u32 {
    rows.iter()
        .fold(0u32, |sum, row| sum.wrapping_add(row.pages))
}

/// What is laid down for a bundle: a count of rows, the rows, a count of pages, and how many bytes follow. A damaged bundle
/// has counts that are not those of its rows.
#[derive(Clone, Copy)]
pub(crate) struct Layout<'a> {
    // stays: a count beside the rows, since a damaged bundle says another
    pub row_count: u16,
    pub rows: &'a [Row],
    pub page_count: u32,
    pub page_bytes: usize,
}

impl<'a> Layout<'a> {
    /// The bundle of the rows, with the right counts and as many bytes as its pages have.
    pub(crate) fn good(page_size: usize, rows: &'a [Row]) -> Layout<'a> {
        let page_count = page_sum(rows);
        Layout {
            row_count: u16::try_from(rows.len()).unwrap_or(0),
            rows,
            page_count,
            page_bytes: (page_count as usize).saturating_mul(page_size),
        }
    }

    /// The bytes; those of the pages are diced.
    pub(crate) fn lay(&self, heap: Global, dice: &mut Dice) -> Result<Vec<u8>, AllocError> {
        let mut bytes = Vec::new(heap);
        bytes.extend_from_slice(&self.row_count.to_le_bytes())?;
        for row in self.rows {
            bytes.extend_from_slice(&row.delivery.to_le_bytes())?;
            bytes.push(row.unit)?;
            bytes.extend_from_slice(&row.pages.to_le_bytes())?;
        }
        bytes.extend_from_slice(&self.page_count.to_le_bytes())?;
        bytes.extend((0..self.page_bytes).map(|_| dice.byte()))?;
        Ok(bytes)
    }
}
