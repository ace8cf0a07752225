//! Opening a bundle: the questions in their order, then the bundle over its parts.

ghost use Rattle.std.specs.Prelude.{◌≡◌, ◌+◌, ◌*◌, ◌≤◌, true, false, length, drop, None, IfOk, MatchResult};
ghost use Rattle.std.specs.List.{flat_map};
ghost use Rattle.stores.specs.Faults.{refused};
ghost use Rattle.stores.specs.declared.faults.StoreFault.TheVariants.{SectionOne, SectionTwo};
ghost use Rattle.bundles.specs.Format.{count_of_rows, rows_from, rows_of, rows_part, have_rows, pages_follow, bundle_refusal};
ghost use Rattle.bundles.specs.Bundles.{Opened};

use crate::bundle::Bundle;
use crate::rows::add_rows;
use stores::{StoreFault, is_page_size};

const MOST_ROWS: usize = 256;

// The rows of section one and the bytes after them, if count and rows are there.
fn split_rows(bytes: &[u8]) -> Result<(&[[u8; 7]], &[u8]), StoreFault>
    ensures { MatchResult result
        (λ r. (have_rows bytes.now ≡ true) × (rows_from r.0.now ≡ rows_of bytes.now) × (flat_map (λ row. row) r.0.now ≡ rows_part bytes.now) × (length r.0.now ≤ 256) × (r.1.now ≡ drop (2 + 7 * count_of_rows bytes.now) bytes.now))
        (λ f. (have_rows bytes.now ≡ false) × (f ≡ SectionOne)) }
{
    let (count, rest) = bytes
        .split_first_chunk::<2>()
        .ok_or(StoreFault::SectionOne)?;
    let count = usize::from(u16::from_le_bytes(*count));
    if count > MOST_ROWS {
        return Err(StoreFault::SectionOne);
    }
    let (rows, rest) = rest
        .split_at_checked(7 * count)
        .ok_or(StoreFault::SectionOne)?;
    let (rows, _) = rows.as_chunks::<7>();
    Ok((rows, rest))
}

// Whether the bytes after the rows are the count of pages, the sum of the rows, and exactly its pages.
fn check_pages(rest: &[u8], sum: u32, page_size: usize) -> Result<(), StoreFault>
    requires small { sum ≤ 268435456 }
    requires sized { page_size ≤ 4096 }
    ensures { MatchResult result
        (λ _. pages_follow page_size sum rest.now ≡ true)
        (λ f. (pages_follow page_size sum rest.now ≡ false) × (f ≡ SectionTwo)) }
{
    let (count, pages) = rest.split_first_chunk::<4>().ok_or(StoreFault::SectionTwo)?;
    if u32::from_le_bytes(*count) != sum || pages.len() != sum as usize * page_size {
        return Err(StoreFault::SectionTwo);
    }
    Ok(())
}

impl<'a> Bundle<'a> {
    /// The questions of opening the bytes as a bundle with pages of `page_size` bytes.
    pub fn check(bytes: &[u8], page_size: usize) -> Result<(), StoreFault>
        ensures { refused result ≡ bundle_refusal page_size bytes.now }
    {
        if !is_page_size(page_size) {
            return Err(StoreFault::PageSize);
        }
        let (rows, rest) = split_rows(bytes)?;
        let sum = add_rows(rows)?;
        check_pages(rest, sum, page_size)
    }

    /// The bundle over the bytes, or why they are refused.
    pub fn new(bytes: &'a [u8], page_size: usize) -> Result<Bundle<'a>, StoreFault>
        ensures answer { refused result ≡ bundle_refusal page_size bytes.now }
        ensures opened { IfOk result (Opened page_size bytes.now) }
    {
        Bundle::check(bytes, page_size)?;
        Ok(Bundle::open(bytes, page_size))
    }

    /// The bundle over the bytes; `check` has said yes to them.
    pub fn open(bytes: &'a [u8], page_size: usize) -> Bundle<'a>
        requires { bundle_refusal page_size bytes.now ≡ None }
        ensures { Opened page_size bytes.now result }
    {
        let (rows, rest) = split_rows(bytes).unwrap();
        let pages = &rest[4..];
        Bundle {
            rows,
            pages,
            page_size,
        }
    }
}
