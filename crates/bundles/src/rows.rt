//! The rows of section one: a delivery out of seven bytes, and the loop that checks and adds rows.

ghost use Rattle.std.specs.Prelude.{◌≡◌, ℕ, ◌+◌, ◌*◌, ◌<◌, ◌≤◌, ◌==◌, true, false, length, Some, MatchResult};
ghost use Rattle.std.specs.List.{list_any};
ghost use Rattle.stores.specs.declared.faults.StoreFault.TheVariants.{Row as RowFault};
ghost use Rattle.bundles.specs.Format.{two, four, row_from, rows_from, fit_row, good_rows, pages_in};
ghost use Rattle.bundles.specs.Bundles.{unit_word, unit_number, UnitGives, RowGives, row_of};

use keys::DeliveryNo;
use std::fmt;
use stores::StoreFault;

/// The most pages that a delivery may have.
const MOST_PAGES: u32 = 1_048_576;

/// What the amounts of a delivery count.
#[derive(Clone, Copy, PartialEq, Eq, Debug)]
pub enum AmountUnit {
    /// Whole currency.
    Whole,
    /// Thousands of it.
    Thousands,
}

/// A unit is written as a word.
impl fmt::Display for AmountUnit {
    ghost output = { λ u. Some (unit_word u) };

    fn fmt<W: fmt::Write>(&self, f: &mut fmt::Formatter<W>) -> fmt::Result {
        f.write_str(match self {
            AmountUnit::Whole => "whole",
            AmountUnit::Thousands => "thousands",
        })
    }
}

/// The number of a unit in a row.
impl From<AmountUnit> for u8 {
    ghost from_gives = { λ u r. r ≡ unit_number u };

    fn from(unit: AmountUnit) -> u8 {
        match unit {
            AmountUnit::Whole => 0,
            AmountUnit::Thousands => 1,
        }
    }
}

/// A unit by its number in a row.
impl TryFrom<u8> for AmountUnit {
    type Error = StoreFault;

    ghost try_from_gives = { UnitGives };

    fn try_from(number: u8) -> Result<Self, StoreFault> {
        match number {
            0 => Ok(AmountUnit::Whole),
            1 => Ok(AmountUnit::Thousands),
            _ => Err(StoreFault::Row),
        }
    }
}

/// A delivery as its row lists it.
#[derive(Clone, Copy, PartialEq, Eq, Debug)]
pub struct Delivery {
    pub number: DeliveryNo,
    pub unit: AmountUnit,
    pub pages: u32,
}

/// The number of a row's delivery.
pub(crate) fn number_in(row: &[u8; 7]) -> DeliveryNo
    ensures { result.0 ≡ two row.now 0 }
{
    DeliveryNo(u16::from_le_bytes([row[0], row[1]]))
}

/// How many pages a row counts.
pub(crate) fn page_count_in(row: &[u8; 7]) -> u32
    ensures { result ≡ four row.now 3 }
{
    let [_, _, _, p0, p1, p2, p3] = *row;
    u32::from_le_bytes([p0, p1, p2, p3])
}

/// A delivery out of the bytes of its row, if unit and page count are as they must be.
impl TryFrom<[u8; 7]> for Delivery {
    type Error = StoreFault;

    ghost try_from_gives = { RowGives };

    fn try_from(row: [u8; 7]) -> Result<Self, StoreFault> {
        let unit = AmountUnit::try_from(row[2])?;
        let pages = page_count_in(&row);
        if pages > MOST_PAGES {
            return Err(StoreFault::Row);
        }
        Ok(Delivery {
            number: number_in(&row),
            unit,
            pages,
        })
    }
}

/// What a row that was checked lists.
pub(crate) fn checked_row(row: &[u8; 7]) -> Delivery
    requires { fit_row (row_from row.now) ≡ true }
    ensures { row_of result ≡ row_from row.now }
{
    Delivery::try_from(*row).unwrap()
}

// Whether one of the rows lists the delivery.
fn is_listed(rows: &[[u8; 7]], number: DeliveryNo) -> bool
    ensures { result ≡ list_any (λ row. two row 0 == number.0) rows.now }
{
    rows.iter().any(|row| number_in(row) == number)
}

/// The sum of the page counts, if each row is as it must be.
pub(crate) fn add_rows(rows: &[[u8; 7]]) -> Result<u32, StoreFault>
    requires { length rows.now ≤ 256 }
    ensures { MatchResult result
        (λ n. (good_rows (rows_from rows.now) ≡ true) × (n ≡ pages_in (rows_from rows.now)) × (n ≤ 268435456))
        (λ f. (good_rows (rows_from rows.now) ≡ false) × (f ≡ RowFault)) }
{
    let mut sum = 0;
    for (i, row) in rows.iter().enumerate() {
        let delivery = Delivery::try_from(*row)?;
        if is_listed(&rows[..i], delivery.number) {
            return Err(StoreFault::Row);
        }
        sum += delivery.pages;
    }
    Ok(sum)
}
