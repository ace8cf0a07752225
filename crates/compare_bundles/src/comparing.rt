//! Asks both readers the same questions.

use crate::making::{Dice, Layout, Row};
use crate::tally::{Answer, Tally};
use bundles::{AmountUnit, Bundle, Delivery};
use keys::{DeliveryKey, DeliveryNo, Key};
use plain_reader::{PlainBundle, PlainFault, PlainKey, PlainRow};
use std::alloc::{AllocError, Global};
use std::{io, iter, mem};
use stores::{Store, StoreFault};

/// What a buffer holds before a read.
const UNTOUCHED: u8 = 0xEE;

// The unit as the bytes have it.
// stays: a `match` of its own, so that the conversion of `bundles` does not answer for itself.
fn unit_number(unit: AmountUnit) -> u64 {
    match unit {
        AmountUnit::Whole => 0,
        AmountUnit::Thousands => 1,
    }
}

/// A comparison of the readers over strings that are made with the dice, with the counts of the kind that runs and those of
/// all kinds that ran.
#[derive(Drop)]
pub(crate) struct Comparison {
    pub heap: Global,
    pub dice: Dice,
    pub tally: Tally,
    pub all: Tally,
}

impl Comparison {
    pub(crate) fn new(heap: Global, dice: Dice) -> Comparison {
        Comparison {
            heap,
            dice,
            tally: Tally::default(),
            all: Tally::default(),
        }
    }

    /// Compares the strings of a kind, prints its counts, and takes them into those of all kinds.
    pub(crate) fn kind<F: FnOnce(&mut Comparison) -> Result<(), AllocError>>(
        &mut self,
        rt: &impl Print,
        name: &str,
        compare: F,
    ) -> io::Result<()>
        requires { F.IsAlwaysCallable compare }
    {
        compare(self)?;
        let tally = mem::take(&mut self.tally);
        self.all.add(&tally);
        println!(rt; "{name}: {tally}")
    }

    /// Good rows.
    pub(crate) fn rows(&mut self, count: u16) -> Result<Vec<Row>, AllocError> {
        self.dice.rows(self.heap, count)
    }

    /// The bytes of a layout.
    pub(crate) fn lay(&mut self, layout: Layout<'_>) -> Result<Vec<u8>, AllocError> {
        layout.lay(self.heap, &mut self.dice)
    }

    /// Compares what the readers say of a layout's bytes.
    pub(crate) fn laid(&mut self, page_size: usize, layout: Layout<'_>) -> Result<(), AllocError> {
        let bytes = self.lay(layout)?;
        self.bytes(page_size, &bytes)
    }

    /// Compares what the readers say of the bytes.
    pub(crate) fn bytes(&mut self, page_size: usize, bytes: &[u8]) -> Result<(), AllocError> {
        let plain = plain_reader::refusal(self.heap, page_size, bytes)?;
        let proved = Bundle::check(bytes, page_size);
        self.tally.count(proved);
        self.tally.same(
            plain.map(PlainFault::number),
            proved.err().map(|fault| fault.number()),
        );
        let Ok(()) = proved else {
            return Ok(());
        };
        let Some(rows) = plain_reader::rows(self.heap, bytes)? else {
            self.tally.same(Some(5), None);
            return Ok(());
        };
        let keys = plain_reader::keys_in_order(self.heap, &rows)?;
        let plain = PlainBundle {
            page_size,
            bytes,
            rows: &rows,
            keys: &keys,
        };
        self.opened(Bundle::open(bytes, page_size), plain)
    }

    fn opened<'b>(&mut self, bundle: Bundle<'b>, plain: PlainBundle<'b>) -> Result<(), AllocError> {
        let mut opened = Opened {
            heap: self.heap,
            tally: &mut self.tally,
            bundle,
            plain,
        };
        opened.compare()
    }
}

/// A bundle that opened, at both readers.
#[derive(Drop)]
struct Opened<'t, 'b> {
    heap: Global,
    tally: &'t mut Tally,
    bundle: Bundle<'b>,
    plain: PlainBundle<'b>,
}

impl Opened<'_, '_> {
    fn compare(&mut self) -> Result<(), AllocError> {
        self.sizes();
        let rows = self.plain.rows;
        for row in rows {
            let listed = u16::try_from(row.delivery).unwrap_or(0);
            for delivery in [listed, listed.wrapping_add(1), listed ^ 256, 0, 65_535] {
                self.delivery(delivery)?;
            }
        }
        self.delivery(7)
    }

    // Sizes, mark, and the rows with two places past the last.
    fn sizes(&mut self) {
        let plain = self.plain;
        self.tally.same(plain.page_size, self.bundle.page_size());
        self.tally.same(false, self.bundle.is_open());
        self.tally.same(plain.rows.len(), self.bundle.row_count());
        self.tally.same(plain.keys.len(), self.bundle.page_total());
        for (i, row) in plain.rows.iter().map(Some).chain([None, None]).enumerate() {
            let delivery = self.bundle.row(i);
            self.row(row, delivery);
        }
    }

    fn row(&mut self, plain: Option<&PlainRow>, proved: Option<Delivery>) {
        self.tally.same(plain.is_some(), proved.is_some());
        if let (Some(row), Some(delivery)) = (plain, proved) {
            self.tally.same(row.delivery, u64::from(delivery.number.0));
            self.tally.same(row.unit, unit_number(delivery.unit));
            self.tally.same(row.pages, u64::from(delivery.pages));
        }
    }

    // Unit, page count and pages of a delivery, listed or not.
    fn delivery(&mut self, delivery: u16) -> Result<(), AllocError> {
        let listed = plain_reader::row_of(self.plain.rows, u64::from(delivery));
        let row = listed.ok_or(StoreFault::NotHeld);
        self.tally.same(
            row.map(|row| row.unit),
            self.bundle.unit(DeliveryNo(delivery)).map(unit_number),
        );
        self.tally.same(
            row.map(|row| row.pages),
            self.bundle.page_count(DeliveryNo(delivery)).map(u64::from),
        );
        let pages = listed.map_or(0, |row| row.pages);
        let end = u32::try_from(pages).unwrap_or(0);
        for page in [
            0,
            1,
            2,
            3,
            4,
            end.saturating_sub(1),
            end,
            end.saturating_add(1),
            u32::MAX,
        ] {
            self.page(delivery, page)?;
        }
        Ok(())
    }

    // A page with buffers that are too long, too short and right. Each read follows a write, so it shows that nothing changed.
    fn page(&mut self, delivery: u16, page: u32) -> Result<(), AllocError> {
        let content = self.plain.page_of(PlainKey {
            delivery: u64::from(delivery),
            page: u64::from(page),
        });
        let key = DeliveryKey::new(delivery, page);
        self.tally.same(content.is_some(), self.bundle.holds(&key));
        let size = self.plain.page_size;
        for length in [size.saturating_add(1), size.saturating_sub(1), size] {
            let page = if length == size {
                content.ok_or(StoreFault::NotHeld)
            } else {
                Err(StoreFault::BufferLength)
            };
            self.write(&key, page, length)?;
            self.read(&key, page, length)?;
        }
        Ok(())
    }

    // A write of a page of this length: never granted.
    fn write(
        &mut self,
        key: &DeliveryKey,
        page: Result<&[u8], StoreFault>,
        length: usize,
    ) -> Result<(), AllocError> {
        let buffer = vec![in self.heap; UNTOUCHED; length]?;
        let wanted = page.and(Err(StoreFault::Sealed));
        let answer = self.bundle.write(key, &buffer);
        self.tally.same(wanted, answer.map(|()| 0));
        Ok(())
    }

    // A read into a buffer of this length: the page where it is granted, else the buffer as it was.
    fn read(
        &mut self,
        key: &DeliveryKey,
        page: Result<&[u8], StoreFault>,
        length: usize,
    ) -> Result<(), AllocError> {
        let mut buffer = vec![in self.heap; UNTOUCHED; length]?;
        let answer = self.bundle.read(key, buffer.as_mut_slice());
        self.tally.same(page.map(|_| 0), answer.map(|()| 0));
        self.tally.same(length, buffer.len());
        let expected = page.unwrap_or(&[]).iter().chain(iter::repeat(&UNTOUCHED));
        for (byte, expected) in buffer.iter().zip(expected) {
            self.tally.same(*expected, *byte);
        }
        Ok(())
    }
}
