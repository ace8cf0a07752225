//! Why a simulator does not open.

ghost use Rattle.std.specs.Prelude.{◌≡◌, Some};
ghost use Rattle.plain.specs.Simulator.{said};
ghost use Rattle.plain.specs.declared.error.OpenError.TheVariants.{Memory};

use std::alloc::AllocError;
use std::error::Error;
use std::fmt;

/// Why a simulator does not open.
#[derive(Clone, Copy, PartialEq, Eq, Debug)]
pub enum OpenError {
    /// The number of frames is not from 2 to 4,096.
    FrameCount,
    /// There is no memory for twice as many entries.
    Memory,
}

impl fmt::Display for OpenError {
    ghost output = { λ e. Some (said e) };

    fn fmt<W: fmt::Write>(&self, f: &mut fmt::Formatter<W>) -> fmt::Result {
        f.write_str(match self {
            OpenError::FrameCount => "the number of frames is not from 2 to 4096",
            OpenError::Memory => "there is no memory for so many frames",
        })
    }
}

impl Error for OpenError {}

impl From<AllocError> for OpenError {
    ghost from_gives = { λ _ e. e ≡ Memory };

    fn from(_: AllocError) -> OpenError {
        Self::Memory
    }
}
