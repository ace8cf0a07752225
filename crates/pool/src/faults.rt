//! The refusals of the pool.

ghost use Rattle.std.specs.Prelude.{◌≡◌, Some};
ghost use Rattle.pool.specs.Faults.{number, layer_of, reason, from_ring};
ghost use Rattle.pool.specs.declared.faults.PoolFault.TheVariants.{ByStore};

use records::Refusal;
use std::error::Error;
use std::fmt;
use stores::{Layer, StoreFault};

/// Why a call of a pool was refused. Each case has its number (specs/Faults.antt), and the call changed nothing.
#[derive(Clone, Copy, PartialEq, Eq, Debug)]
pub enum PoolFault {
    /// The store's page size is not from 1 to 4,096.
    PageSize,
    /// The number of frames is not from 2 to 4,096.
    FrameCount,
    /// There are not exactly m × P frame bytes.
    FrameBytes,
    /// There are not exactly 2 × m cells.
    Cells,
    /// The page has 255 loans already.
    LoanLimit,
    /// The key is not resident, no frame is unused, and every resident page has a loan.
    AllOnLoan,
    /// The loan has another pool's number, or its frame carries no loan.
    NotOnLoan,
    /// The bytes do not end within the page.
    PastPage,
    /// The store refused: its own fault, whole.
    ByStore(StoreFault),
}

impl PoolFault {
    /// The number of the refusal.
    // stays: a `match` and no discriminants, since a store's fault brings its own number.
    pub fn number(&self) -> u8
        ensures { result ≡ number self.now }
    {
        match self {
            PoolFault::PageSize => 1,
            PoolFault::FrameCount => 2,
            PoolFault::FrameBytes => 3,
            PoolFault::Cells => 4,
            PoolFault::LoanLimit => 10,
            PoolFault::AllOnLoan => 11,
            PoolFault::NotOnLoan => 12,
            PoolFault::PastPage => 14,
            PoolFault::ByStore(fault) => fault.number(),
        }
    }

    /// The layer whose question had the no.
    pub fn layer(&self) -> Layer
        ensures { result ≡ layer_of self.now }
    {
        match self {
            PoolFault::ByStore(fault) => fault.layer(),
            _ => Layer::Pool,
        }
    }

    /// What was wrong, in words.
    pub fn reason(&self) -> &'static str
        ensures { result.now ≡ reason self.now }
    {
        match self {
            PoolFault::PageSize => "the page size is not from 1 to 4096",
            PoolFault::FrameCount => "the number of frames is not from 2 to 4096",
            PoolFault::FrameBytes => "the frame bytes are not one page for each frame",
            PoolFault::Cells => "the cells are not two for each frame",
            PoolFault::LoanLimit => "the page has 255 loans already",
            PoolFault::AllOnLoan => "every page in the frames is on loan",
            PoolFault::NotOnLoan => "the loan is not one of this pool",
            PoolFault::PastPage => "the bytes do not end within the page",
            PoolFault::ByStore(fault) => fault.reason(),
        }
    }
}

/// The reason, in words.
impl fmt::Display for PoolFault {
    ghost output = { λ f. Some (reason f) };

    fn fmt<W: fmt::Write>(&self, f: &mut fmt::Formatter<W>) -> fmt::Result {
        f.write_str(self.reason())
    }
}

impl Error for PoolFault {}

/// A store's fault is carried whole, with its number and its layer.
impl From<StoreFault> for PoolFault {
    ghost from_gives = { λ e r. r ≡ ByStore e };

    fn from(fault: StoreFault) -> PoolFault {
        PoolFault::ByStore(fault)
    }
}

/// What the ring refuses, the pool refuses.
impl From<Refusal> for PoolFault {
    ghost from_gives = { λ e r. r ≡ from_ring e };

    fn from(refusal: Refusal) -> PoolFault {
        match refusal {
            Refusal::TooManyLoans => PoolFault::LoanLimit,
            Refusal::NoFrame => PoolFault::AllOnLoan,
        }
    }
}
