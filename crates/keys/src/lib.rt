//! Numbers and keys. A frame, a cell, a page and a delivery each have a number of a type of its own, so that none can
//! be taken for another. A key names a page of a store; code that is generic in the kind of key knows only `Key`.

#![tactic(auto)]

ghost use Rattle.std.specs.Prelude.{◌≡◌, ℕ, List, [], ◌∷◌, ◌++◌, Some, codes, decimal};
ghost use Rattle.keys.specs.Same.{same_list, Exactly};
ghost use Rattle.keys.specs.Written.{ParsesPage, ParsesDelivery, ParsesKey};

use std::error::Error;
use std::fmt;
use std::num::ParseIntError;
use std::str::FromStr;

// stays: a number of these is made an index by `frame.0 as usize`. `usize::from(frame)` is no shorter, and adds a call to
// each proof about a place.

/// The number of a frame: a place for one page in the pool's memory. Frames count from 0.
#[derive(Clone, Copy, PartialEq, Eq, Debug)]
pub struct FrameNo(pub u32);

/// The number of a cell: a place for one entry in the ring's memory. Cells count from 0.
#[derive(Clone, Copy, PartialEq, Eq, Debug)]
pub struct CellNo(pub u32);

/// The number of a page within a store or a delivery. Pages count from 0.
#[derive(Clone, Copy, PartialEq, Eq, Debug)]
pub struct PageNo(pub u32);

/// The number of a delivery: one institute's consignment of pages, which counts its pages from 0 for itself.
#[derive(Clone, Copy, PartialEq, Eq, Debug)]
pub struct DeliveryNo(pub u16);

/// Why a text is refused where a key or its part is wanted: it writes none of that kind.
#[derive(Clone, Copy, PartialEq, Eq, Debug)]
pub struct NotAKey;

impl fmt::Display for NotAKey {
    ghost output = { λ _. Some (codes "not a key of this kind") };

    fn fmt<W: fmt::Write>(&self, f: &mut fmt::Formatter<W>) -> fmt::Result {
        f.write_str("not a key of this kind")
    }
}

impl Error for NotAKey {}

/// What was wrong with a number is not kept.
impl From<ParseIntError> for NotAKey {
    fn from(_error: ParseIntError) -> NotAKey {
        NotAKey
    }
}

/// A delivery's number is written in decimal digits: `7`.
impl fmt::Display for DeliveryNo {
    ghost output = { λ d. Some (decimal d.0) };

    fn fmt<W: fmt::Write>(&self, f: &mut fmt::Formatter<W>) -> fmt::Result {
        let number = self.0;
        write!(f, "{number}")
    }
}

/// A delivery's number is read from its decimal digits: `7`.
impl FromStr for DeliveryNo {
    type Err = NotAKey;

    ghost from_str_gives = { ParsesDelivery };

    fn from_str(text: &str) -> Result<DeliveryNo, NotAKey> {
        Ok(DeliveryNo(text.parse()?))
    }
}

// stays: a question of its own and no bound `PartialEq`, whose clause would not say what the answer means of a key.

/// A kind of key. What a key means is a list of whole numbers, and its one question is whether two keys are the same.
pub trait Key: Sized {
    ghost meaning: { Self → List ℕ };

    /// Yes exactly where the two meanings are equal.
    fn same(&self, other: &Self) -> bool
        ensures { result ≡ same_list (meaning self.now) (meaning other.now) };
}

/// A page of a store that has one numbering only.
impl Key for PageNo {
    ghost meaning = { λ k. k.0 ∷ [] };

    fn same(&self, other: &PageNo) -> bool {
        self == other
    }
}

/// A page key is written as its number.
impl fmt::Display for PageNo {
    ghost output = { λ k. Some (decimal k.0) };

    fn fmt<W: fmt::Write>(&self, f: &mut fmt::Formatter<W>) -> fmt::Result {
        write!(f, "{}", self.0)
    }
}

/// A page key is read from the decimal digits of its number: `5`.
impl FromStr for PageNo {
    type Err = NotAKey;

    ghost from_str_gives = { ParsesPage };

    fn from_str(text: &str) -> Result<PageNo, NotAKey> {
        Ok(PageNo(text.parse()?))
    }
}

/// A page of a delivery. Deliveries number their pages alike, so the delivery is part of the key.
#[derive(Clone, Copy, PartialEq, Eq, Debug)]
pub struct DeliveryKey {
    pub delivery: DeliveryNo,
    pub page: PageNo,
}

impl DeliveryKey {
    /// The key of a page of a delivery, by their numbers.
    pub const fn new(delivery: u16, page: u32) -> DeliveryKey
        ensures of_delivery { result.delivery.0 ≡ delivery }
        ensures of_page { result.page.0 ≡ page }
    {
        DeliveryKey {
            delivery: DeliveryNo(delivery),
            page: PageNo(page),
        }
    }
}

impl Key for DeliveryKey {
    ghost meaning = { λ k. k.delivery.0 ∷ k.page.0 ∷ [] };

    fn same(&self, other: &DeliveryKey) -> bool {
        self == other
    }
}

/// A delivery key is written as its two numbers, `7/5` for page 5 of delivery 7.
impl fmt::Display for DeliveryKey {
    ghost output = { λ k. Some (decimal k.delivery.0 ++ (codes "/" ++ decimal k.page.0)) };

    fn fmt<W: fmt::Write>(&self, f: &mut fmt::Formatter<W>) -> fmt::Result {
        write!(f, "{}/{}", self.delivery, self.page)
    }
}

/// A delivery key is read from its two numbers with a slash between: `7/5`.
impl FromStr for DeliveryKey {
    type Err = NotAKey;

    ghost from_str_gives = { ParsesKey };

    fn from_str(text: &str) -> Result<DeliveryKey, NotAKey> {
        let (delivery, page) = text.split_once('/').ok_or(NotAKey)?;
        Ok(DeliveryKey {
            delivery: delivery.parse()?,
            page: page.parse()?,
        })
    }
}

/// Law: two keys are the same exactly where their meanings are equal.
pub fn keys_compare()
    ensures { Exactly }
{}
