//! A second reader of bundles, for comparison. It decodes all rows into a list first, makes the list of all keys in the
//! order of their pages, and finds a page by the place of its key in that list.

#![tactic(auto)]

ghost use Rattle.std.specs.Prelude.{◌≡◌, ◌+◌, ◌*◌, ◌<◌, ◌≤◌, length, None, IfSome, IfOk, vec_len, fold, OnSome};
ghost use Rattle.plain_reader.specs.Answers.{number};
ghost use Rattle.plain_reader.specs.Rows.{IsRowOf};

use std::alloc::{AllocError, Global};

// stays: limits and sums of its own, since a second reader that shares them with the first can't find them wrong.

/// The limits of a bundle.
const MOST_ROWS: usize = 256;

const MOST_PAGES: u64 = 1_048_576;

const LARGEST_PAGE: usize = 4_096;

/// The question of an opening that is answered with no, by its number.
#[derive(Clone, Copy, PartialEq, Eq, Debug)]
pub enum PlainFault {
    /// The page size is not from 1 to 4,096.
    PageSize = 1,
    /// The count of rows or a row is missing, or the count is above 256.
    SectionOne = 5,
    /// A row has a bad unit or page count, or its delivery is listed twice.
    Rows = 6,
    /// The count of pages is missing or is not the sum of the rows, or not exactly these pages follow.
    SectionTwo = 7,
}

impl PlainFault {
    /// The number of the refusal.
    pub fn number(self) -> u8
        ensures { result ≡ number self }
    {
        self as u8
    }
}

/// A row with its numbers as the bytes have them.
#[derive(Clone, Copy, PartialEq, Eq, Debug)]
pub struct PlainRow {
    pub delivery: u64,
    // stays: a number and no kind, since the byte may be any and the question about it comes when all rows are decoded
    pub unit: u64,
    pub pages: u64,
}

/// A row from its seven bytes, the lowest byte of each number first.
impl From<[u8; 7]> for PlainRow {
    ghost from_gives = { IsRowOf };

    fn from([d0, d1, unit, p0, p1, p2, p3]: [u8; 7]) -> PlainRow {
        PlainRow {
            delivery: u64::from(u16::from_le_bytes([d0, d1])),
            unit: u64::from(unit),
            pages: u64::from(u32::from_le_bytes([p0, p1, p2, p3])),
        }
    }
}

/// A page of a delivery.
#[derive(Clone, Copy, PartialEq, Eq, Debug)]
pub struct PlainKey {
    pub delivery: u64,
    pub page: u64,
}

/// A bundle as this reader has it: its bytes with their rows and keys.
#[derive(Clone, Copy)]
pub struct PlainBundle<'a> {
    pub page_size: usize,
    pub bytes: &'a [u8],
    pub rows: &'a [PlainRow],
    pub keys: &'a [PlainKey],
}

// The `N` bytes from `at` on; nothing where one of them is missing.
fn bytes_at<const N: usize>(bytes: &[u8], at: usize) -> Option<[u8; N]>
    ensures { OnSome result (at + N ≤ length bytes.now) }
{
    bytes.get(at..)?.first_chunk().copied()
}

// The bytes of each row; nothing where the count or a row is missing, or the count is above 256.
fn section_one(bytes: &[u8]) -> Option<&[[u8; 7]]>
    ensures { IfSome result (λ rows. (length rows.now ≤ 256) × (2 + 7 * length rows.now ≤ length bytes.now)) }
{
    let count = usize::from(u16::from_le_bytes(bytes_at(bytes, 0)?));
    if count > MOST_ROWS {
        return None;
    }
    let (rows, _) = bytes.get(2..2 + 7 * count)?.as_chunks();
    Some(rows)
}

/// The rows of section one; nothing where the count or a row is missing, or the count is above 256.
pub fn rows(heap: Global, bytes: &[u8]) -> Result<Option<Vec<PlainRow>>, AllocError>
    ensures { IfOk result (λ found. IfSome found (λ v. (vec_len v ≤ 256) × (2 + 7 * vec_len v ≤ length bytes.now))) }
{
    let Some(section) = section_one(bytes) else {
        return Ok(None);
    };
    let list: Vec<PlainRow> = section.iter().copied().map(PlainRow::from).collect(heap)?;
    Ok(Some(list))
}

// Whether every row has a good unit and page count, and lists a delivery that is listed once in all.
fn rows_are_good(rows: &[PlainRow]) -> bool {
    rows.iter().all(|row| {
        row.unit <= 1
            && row.pages <= MOST_PAGES
            && rows
                .iter()
                .filter(|other| other.delivery == row.delivery)
                .count()
                == 1
    })
}

// The sum of the page counts.
fn page_sum(rows: &[PlainRow]) -> u64 {
    rows.iter()
        .fold(0u64, |sum, row| sum.saturating_add(row.pages))
}

// The pages of section two, cut off behind rows and count; nothing where that count is missing or is not the sum.
fn section_two<'a>(bytes: &'a [u8], rows: &[PlainRow]) -> Option<&'a [u8]>
    ensures { OnSome result (6 ≤ length bytes.now) }
{
    let at = rows.len().checked_mul(7)?.checked_add(2)?;
    let count = u64::from(u32::from_le_bytes(bytes_at(bytes, at)?));
    if count != page_sum(rows) {
        return None;
    }
    bytes.get(at.checked_add(4)?..)
}

// The questions on the decoded rows and on section two.
fn check_sections(page_size: usize, bytes: &[u8], rows: &[PlainRow]) -> Result<(), PlainFault>
    requires { 0 < page_size }
    ensures { IfOk result (λ _. 6 ≤ length bytes.now) }
{
    if !rows_are_good(rows) {
        return Err(PlainFault::Rows);
    }
    let pages = section_two(bytes, rows).ok_or(PlainFault::SectionTwo)?;
    if pages.len() % page_size != 0 || (pages.len() / page_size) as u64 != page_sum(rows) {
        return Err(PlainFault::SectionTwo);
    }
    Ok(())
}

/// The refusal of these bytes for this page size; nothing where they open.
pub fn refusal(
    heap: Global,
    page_size: usize,
    bytes: &[u8],
) -> Result<Option<PlainFault>, AllocError>
    ensures open { IfOk result (λ r. r ≡ None → (0 < page_size) × (page_size ≤ 4096) × (6 ≤ length bytes.now)) }
{
    if page_size == 0 || page_size > LARGEST_PAGE {
        return Ok(Some(PlainFault::PageSize));
    }
    let Some(list) = rows(heap, bytes)? else {
        return Ok(Some(PlainFault::SectionOne));
    };
    Ok(check_sections(page_size, bytes, &list).err())
}

/// The keys of the rows, in the order of their pages: as many as the page counts sum up to.
pub fn keys_in_order(heap: Global, rows: &[PlainRow]) -> Result<Vec<PlainKey>, AllocError>
    ensures { IfOk result (λ v. vec_len v ≡ fold (λ n row. n + row.pages) 0 rows.now) }
{
    let mut list = Vec::new(heap);
    // stays: over rows and page numbers. With `flat_map` and `collect` the promised number of keys was left open.
    for row in rows {
        for page in 0..row.pages {
            list.push(PlainKey {
                delivery: row.delivery,
                page,
            })?;
        }
    }
    Ok(list)
}

/// The row that lists a delivery.
pub fn row_of(rows: &[PlainRow], delivery: u64) -> Option<PlainRow>
    ensures { IfSome result (λ row. row.delivery ≡ delivery) }
{
    rows.iter().rfind(|row| row.delivery == delivery).copied()
}

impl<'a> PlainBundle<'a> {
    /// The page of a key: that of its position in the list of the keys, in bytes that were not refused.
    pub fn page_of(&self, key: PlainKey) -> Option<&'a [u8]>
        ensures { IfSome result (λ page. length page.now ≡ self.now.page_size) }
    {
        let place = self.keys.iter().position(|listed| *listed == key)?;
        let start = place.checked_mul(self.page_size)?;
        section_two(self.bytes, self.rows)?
            .get(start..)?
            .get(..self.page_size)
    }
}
