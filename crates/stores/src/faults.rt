//! The refusals of the stores.

ghost use Rattle.std.specs.Prelude.{◌≡◌, Some};
ghost use Rattle.stores.specs.Faults.{number, reason, layer_name};
ghost use Rattle.stores.specs.declared.faults.Layer.TheVariants.{Store};

use std::error::Error;
use std::fmt;

/// Why a store refused. Each case has its number (specs/Faults.antt), and what was asked did not change anything.
#[derive(Clone, Copy, PartialEq, Eq, Debug)]
pub enum StoreFault {
    /// The page size is not from 1 to 4,096.
    PageSize,
    /// Count and rows of a bundle's section one are not there, or there are more than 256 rows.
    SectionOne,
    /// A row of a bundle has a unit above 1, a page count above 1,048,576 or a delivery listed before.
    Row,
    /// Section two's count is not there or is not the sum of the page counts, or not exactly its pages follow.
    SectionTwo,
    /// A work file is not a whole number of pages, or has more than 1,048,576.
    FileLength,
    /// The store does not hold the key.
    NotHeld,
    /// The store is sealed.
    Sealed,
    /// The buffer is not as long as a page.
    BufferLength,
}

/// The layer whose question was answered with no.
#[derive(Clone, Copy, PartialEq, Eq, Debug)]
pub enum Layer {
    Store,
    Pool,
    Table,
}

impl StoreFault {
    /// The number of the refusal.
    // stays: a `match` and no discriminants. The pool's faults, which carry a store's, need one, and an edit that gives a
    // fault the number of another has to compile.
    pub fn number(&self) -> u8
        ensures { result ≡ number self.now }
    {
        match self {
            StoreFault::PageSize => 1,
            StoreFault::SectionOne => 5,
            StoreFault::Row => 6,
            StoreFault::SectionTwo => 7,
            StoreFault::FileLength => 8,
            StoreFault::NotHeld => 9,
            StoreFault::Sealed => 13,
            StoreFault::BufferLength => 15,
        }
    }

    /// What was wrong, in words.
    pub fn reason(&self) -> &'static str
        ensures { result.now ≡ reason self.now }
    {
        match self {
            StoreFault::PageSize => "the page size is not from 1 to 4096",
            StoreFault::SectionOne => "the rows are not all there, or are more than 256",
            StoreFault::Row =>
                "a row has an unknown unit, too many pages or a delivery listed before",
            StoreFault::SectionTwo => "the pages are not exactly those that the rows count",
            StoreFault::FileLength =>
                "the bytes are not a whole number of pages, or are more than 1048576 pages",
            StoreFault::NotHeld => "the store does not hold the key",
            StoreFault::Sealed => "the store is sealed",
            StoreFault::BufferLength => "the buffer is not as long as a page",
        }
    }

    /// A store's fault names the store.
    pub fn layer(&self) -> Layer
        ensures { result ≡ Store }
    {
        Layer::Store
    }
}

/// The reason, in words.
impl fmt::Display for StoreFault {
    ghost output = { λ f. Some (reason f) };

    fn fmt<W: fmt::Write>(&self, f: &mut fmt::Formatter<W>) -> fmt::Result {
        f.write_str(self.reason())
    }
}

impl Error for StoreFault {}

/// The layer, as a refusal is printed: `refused 9 by store`.
impl fmt::Display for Layer {
    ghost output = { λ l. Some (layer_name l) };

    fn fmt<W: fmt::Write>(&self, f: &mut fmt::Formatter<W>) -> fmt::Result {
        f.write_str(match self {
            Self::Store => "store",
            Self::Pool => "pool",
            Self::Table => "table",
        })
    }
}
