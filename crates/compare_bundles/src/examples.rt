//! The fixed examples of the bundle format, with the answers that are stated for them.

use crate::comparing::Comparison;
use plain_reader::PlainFault;
use std::alloc::AllocError;

// One delivery, 7, of two pages; the same with a byte less and with a byte more.
const ONE: &[u8] = b"\x01\x00\x07\x00\x01\x02\x00\x00\x00\x02\x00\x00\x00\xaa\xbb";

const ONE_SHORT: &[u8] = b"\x01\x00\x07\x00\x01\x02\x00\x00\x00\x02\x00\x00\x00\xaa";

const ONE_LONG: &[u8] = b"\x01\x00\x07\x00\x01\x02\x00\x00\x00\x02\x00\x00\x00\xaa\xbb\xcc";
// Two deliveries: 7 of two pages, 12 of one.
const TWO: &[u8] =
    b"\x02\x00\x07\x00\x00\x02\x00\x00\x00\x0c\x00\x01\x01\x00\x00\x00\x03\x00\x00\x00\x10\x11\x12\x13\x20\x21\x22\x23\x30\x31\x32\x33";
// No delivery and no page, and with a byte more.
const SMALLEST: &[u8] = b"\x00\x00\x00\x00\x00\x00";

const SMALLEST_LONG: &[u8] = b"\x00\x00\x00\x00\x00\x00\x00";
// A delivery of no pages.
const NO_PAGES: &[u8] = b"\x01\x00\x07\x00\x01\x00\x00\x00\x00\x00\x00\x00\x00";
// A count of 257 rows, and some bytes more.
const TOO_MANY_ROWS: &[u8] = b"\x01\x01\x00\x00\x00\x00\x00\x00\x00\x00";
// One row, of unit 2.
const BAD_UNIT: &[u8] = b"\x01\x00\x07\x00\x02\x02\x00\x00\x00";
// One row, of 1,048,577 pages, and one of 1,048,576; nothing follows.
const TOO_MANY_PAGES: &[u8] = b"\x01\x00\x07\x00\x00\x01\x00\x10\x00";

const MOST_PAGES: &[u8] = b"\x01\x00\x07\x00\x00\x00\x00\x10\x00";
// Two rows that list delivery 7.
const LISTED_TWICE: &[u8] =
    b"\x02\x00\x07\x00\x00\x01\x00\x00\x00\x07\x00\x01\x01\x00\x00\x00\x02\x00\x00\x00\xaa\xbb";
// A count of pages that is 3, where the sum is 2.
const WRONG_TOTAL: &[u8] = b"\x01\x00\x07\x00\x01\x02\x00\x00\x00\x03\x00\x00\x00\xaa\xbb\xcc";

// Compares the readers, and the plain one with the stated answer.
// stays: the answers are stated as numbers, which are what the format defines.
fn example(
    c: &mut Comparison,
    stated: Option<u8>,
    page_size: usize,
    bytes: &[u8],
) -> Result<(), AllocError> {
    let answer = plain_reader::refusal(c.heap, page_size, bytes)?;
    c.tally.same(answer.map(PlainFault::number), stated);
    c.bytes(page_size, bytes)
}

/// Bundles that open, and the same with a byte less, a byte more or another page size.
pub(crate) fn good(c: &mut Comparison) -> Result<(), AllocError> {
    example(c, None, 1, ONE)?;
    example(c, Some(7), 1, ONE_SHORT)?;
    example(c, Some(7), 1, ONE_LONG)?;
    example(c, Some(7), 2, ONE)?;
    example(c, None, 4, TWO)?;
    for page_size in [1, 2, 3, 64, 4_095, 4_096] {
        example(c, None, page_size, SMALLEST)?;
    }
    example(c, None, 1, NO_PAGES)
}

/// Damaged bundles.
pub(crate) fn damaged(c: &mut Comparison) -> Result<(), AllocError> {
    for page_size in [0, 4_097] {
        example(c, Some(1), page_size, &[])?;
        example(c, Some(1), page_size, SMALLEST)?;
    }
    example(c, Some(5), 1, &[])?;
    example(c, Some(5), 1, &[0])?;
    example(c, Some(5), 1, &[1, 0])?;
    example(c, Some(5), 1, &[1, 1])?;
    example(c, Some(5), 1, TOO_MANY_ROWS)?;
    example(c, Some(6), 1, BAD_UNIT)?;
    example(c, Some(6), 1, TOO_MANY_PAGES)?;
    example(c, Some(6), 1, LISTED_TWICE)?;
    example(c, Some(7), 1, &[0, 0])?;
    example(c, Some(7), 1, MOST_PAGES)?;
    example(c, Some(7), 1, WRONG_TOTAL)?;
    example(c, Some(7), 1, SMALLEST_LONG)
}
