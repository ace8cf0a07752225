//! The kinds of strings that are compared.

use crate::comparing::Comparison;
use crate::making::{Layout, Row, page_sum};
use std::alloc::AllocError;

// Changes the row at a place.
fn change_row<F: FnOnce(&mut Row)>(rows: &mut Vec<Row>, place: usize, change: F)
    requires { F.IsAlwaysCallable change }
{
    if let Some(row) = rows.get_mut(place) {
        change(row);
    }
}

// Has one row list the delivery of another.
fn list_again(rows: &mut Vec<Row>, earlier: usize, later: usize) {
    let delivery = rows.get(earlier).map_or(0, |row| row.delivery);
    change_row(rows, later, |row| row.delivery = delivery);
}

/// Good bundles of 0 to 6 deliveries, two of each for each page size.
pub(crate) fn good(c: &mut Comparison) -> Result<(), AllocError> {
    for page_size in [1, 2, 3, 4, 5, 6, 7, 8, 9, 64] {
        for half in 0..14u16 {
            let rows = c.rows(half / 2)?;
            c.laid(page_size, Layout::good(page_size, &rows))?;
        }
    }
    Ok(())
}

/// Bundles cut short at every length.
pub(crate) fn cut_short(c: &mut Comparison) -> Result<(), AllocError> {
    for half in 0..14u16 {
        let page_size = 1 + c.dice.below(4) as usize;
        let rows = c.rows(half / 2)?;
        let bytes = c.lay(Layout::good(page_size, &rows))?;
        for length in 0..bytes.len() {
            c.bytes(page_size, &bytes[..length])?;
        }
    }
    Ok(())
}

/// Bundles with one byte too many.
pub(crate) fn byte_too_many(c: &mut Comparison) -> Result<(), AllocError> {
    for page_size in 1..7usize {
        for count in 0..7u16 {
            let rows = c.rows(count)?;
            let mut bytes = c.lay(Layout::good(page_size, &rows))?;
            bytes.push(c.dice.byte())?;
            c.bytes(page_size, &bytes)?;
        }
    }
    Ok(())
}

/// Bundles with a single byte changed, at each place.
pub(crate) fn byte_changed(c: &mut Comparison) -> Result<(), AllocError> {
    for half in 0..14u16 {
        let page_size = 1 + c.dice.below(3) as usize;
        let rows = c.rows(half / 2)?;
        let bytes = c.lay(Layout::good(page_size, &rows))?;
        for place in 0..bytes.len() {
            let mut changed = bytes.clone()?;
            let change = c.dice.byte().max(1);
            if let Some(byte) = changed.get_mut(place) {
                *byte ^= change;
            }
            c.bytes(page_size, &changed)?;
        }
    }
    Ok(())
}

/// Page sizes at and past their limits, over no bytes, the smallest bundle, one for 1 byte a page, and one for this size.
pub(crate) fn page_sizes(c: &mut Comparison) -> Result<(), AllocError> {
    let small = [
        Row {
            delivery: 65_535,
            unit: 1,
            pages: 1,
        },
        Row {
            delivery: 0,
            unit: 0,
            pages: 2,
        },
    ];
    for page_size in [0, 1, 2, 4_095, 4_096, 4_097, 65_536, usize::MAX] {
        c.bytes(page_size, &[])?;
        c.bytes(page_size, &[0, 0, 0, 0, 0, 0])?;
        let rows = c.rows(3)?;
        c.laid(page_size, Layout::good(1, &rows))?;
        c.laid(page_size, Layout::good(page_size.min(5_000), &small))?;
    }
    Ok(())
}

/// Random bytes; small ones in every other string, so that the first questions are often passed.
pub(crate) fn random_bytes(c: &mut Comparison) -> Result<(), AllocError> {
    for i in 0..400u32 {
        let length = c.dice.below(40);
        let bytes: Vec<u8> = (0..length)
            .map(|place| match c.dice.byte() {
                byte if i % 2 == 0 => byte,
                byte if place % 7 < 2 && byte < 50 => 1,
                _ => 0,
            })
            .collect(c.heap)?;
        c.bytes(1 + (i % 3) as usize, &bytes)?;
    }
    Ok(())
}

/// Counts of rows at and past the limit: with three rows there, and with all of them there, whole and cut short.
pub(crate) fn row_counts(c: &mut Comparison) -> Result<(), AllocError> {
    for row_count in [256, 257, 65_535] {
        let rows = c.rows(3)?;
        let layout = Layout {
            row_count,
            rows: &rows,
            page_count: page_sum(&rows),
            page_bytes: 20,
        };
        c.laid(1, layout)?;
    }
    for row_count in 255..258u16 {
        let rows = c.rows(row_count)?;
        let bytes = c.lay(Layout::good(2, &rows))?;
        let end = 2 + 7 * row_count as usize;
        for length in [
            end - 1,
            end,
            end + 3,
            end + 4,
            bytes.len().saturating_sub(1),
            bytes.len(),
        ] {
            if let Some(part) = bytes.get(..length) {
                c.bytes(2, part)?;
            }
        }
    }
    Ok(())
}

/// 255 to 257 rows of which the last lists the delivery of an earlier one, or one has a bad unit.
pub(crate) fn bad_row_of_many(c: &mut Comparison) -> Result<(), AllocError> {
    for row_count in 255..258u16 {
        for earlier in [0, 1, 128, 253] {
            let mut rows = c.rows(row_count)?;
            list_again(&mut rows, earlier, row_count as usize - 1);
            c.laid(1, Layout::good(1, &rows))?;
        }
    }
    for row_count in 255..258u16 {
        for place in [0, 1, 128, row_count as usize - 1] {
            let mut rows = c.rows(row_count)?;
            change_row(&mut rows, place, |row| row.unit = 2);
            c.laid(1, Layout::good(1, &rows))?;
        }
    }
    Ok(())
}

/// Page counts at and past the limit, in each row, with a few bytes in place of the pages.
pub(crate) fn page_counts(c: &mut Comparison) -> Result<(), AllocError> {
    for row_count in 1..7u16 {
        for place in 0..row_count as usize {
            for pages in [1_048_576, 1_048_577, 4_294_967_295] {
                let mut rows = c.rows(row_count)?;
                change_row(&mut rows, place, |row| row.pages = pages);
                let layout = Layout {
                    row_count,
                    rows: &rows,
                    page_count: page_sum(&rows),
                    page_bytes: 10,
                };
                c.laid(3, layout)?;
            }
        }
    }
    Ok(())
}

/// Bundles with as many pages as a delivery can have: one byte short, all there, one too many; and bundles without page
/// bytes whose length would come out right if the product of page count and page size wrapped at 32 bits.
pub(crate) fn largest(c: &mut Comparison) -> Result<(), AllocError> {
    let rows = [
        Row {
            delivery: 9,
            unit: 0,
            pages: 1,
        },
        Row {
            delivery: 4,
            unit: 1,
            pages: 1_048_576,
        },
    ];
    for page_bytes in [1_048_576, 1_048_577, 1_048_578] {
        let layout = Layout {
            row_count: 2,
            rows: &rows,
            page_count: 1_048_577,
            page_bytes,
        };
        c.laid(1, layout)?;
    }
    for (row_count, page_size) in [(4, 1024), (16, 256), (256, 16), (1, 4096)] {
        let mut rows = c.rows(row_count)?;
        for row in &mut rows {
            row.pages = 1_048_576;
        }
        c.laid(page_size, Layout::good(0, &rows))?;
    }
    Ok(())
}

/// A count of pages that is one too small, right, one too large or far too large, with the pages of the rows and with
/// those of the count, 40 at most.
pub(crate) fn page_totals(c: &mut Comparison) -> Result<(), AllocError> {
    for page_size in 1..5usize {
        for row_count in 0..7u16 {
            let rows = c.rows(row_count)?;
            let sum = page_sum(&rows);
            for page_count in [sum.saturating_sub(1), sum, sum.saturating_add(1), u32::MAX] {
                for pages in [sum, page_count.min(40)] {
                    let layout = Layout {
                        row_count,
                        rows: &rows,
                        page_count,
                        page_bytes: (pages as usize).saturating_mul(page_size),
                    };
                    c.laid(page_size, layout)?;
                }
            }
        }
    }
    Ok(())
}

/// A row with a unit above 1, in each place, without and with what follows the rows.
pub(crate) fn units(c: &mut Comparison) -> Result<(), AllocError> {
    for count in 1..7u16 {
        for place in 0..count as usize {
            for unit in [2, 3, 255] {
                let mut rows = c.rows(count)?;
                change_row(&mut rows, place, |row| row.unit = unit);
                let bytes = c.lay(Layout::good(2, &rows))?;
                for length in [2 + 7 * count as usize, bytes.len()] {
                    if let Some(part) = bytes.get(..length) {
                        c.bytes(2, part)?;
                    }
                }
            }
        }
    }
    Ok(())
}

/// A delivery listed twice, by each two rows.
pub(crate) fn listed_twice(c: &mut Comparison) -> Result<(), AllocError> {
    for count in 2..7u16 {
        for later in 1..count as usize {
            for earlier in 0..later {
                let mut rows = c.rows(count)?;
                list_again(&mut rows, earlier, later);
                c.laid(3, Layout::good(3, &rows))?;
            }
        }
    }
    Ok(())
}
