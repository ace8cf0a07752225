//! The bundle as a value, and its deliveries one after the other.

ghost use Rattle.std.specs.Prelude.{◌≡◌, ◌*◌, ◌≤◌, true, length};
ghost use Rattle.std.specs.List.{list_all};
ghost use Rattle.bundles.specs.Format.{rows_from, fit_row, good_rows, pages_in};

/// A bundle that was opened: a struct over the bytes given, with the parts of its two sections at their known places,
///
///     bytes   count D | rows, 7·D bytes | count N | pages, N·P bytes
///     from    0         2                 2 + 7·D   6 + 7·D
#[derive(Clone, Copy)]
pub struct Bundle<'a> {
    pub(crate) rows: &'a [[u8; 7]],
    pub(crate) pages: &'a [u8],
    pub(crate) page_size: usize,
    ghost sized: { 1 ≤ page_size },
    ghost few: { length rows.now ≤ 256 },
    ghost good: { good_rows (rows_from rows.now) ≡ true },
    ghost exact: { length pages.now ≡ pages_in (rows_from rows.now) * page_size },
}

/// The deliveries that are still to come, in the order of the rows.
#[derive(Drop)]
pub struct Deliveries<'a> {
    pub(crate) rows: &'a [[u8; 7]],
    ghost fit: { list_all fit_row (rows_from rows.now) ≡ true },
}
