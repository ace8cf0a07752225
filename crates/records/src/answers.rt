//! What a borrow answers.

ghost use Rattle.std.specs.Prelude.{◌≡◌, Some};
ghost use Rattle.records.specs.Reading.{number_of, spelled};
ghost use Rattle.records.specs.Written.{counts, line};

use keys::FrameNo;
use std::fmt;

/// The steps of the three hands.
#[derive(Clone, Copy, PartialEq, Eq, Debug, Default)]
pub struct Steps {
    pub cold: u32,
    pub hot: u32,
    pub test: u32,
}

/// The three numbers, in the order of the fields.
impl fmt::Display for Steps {
    ghost output = { λ n. Some (counts n) };

    fn fmt<W: fmt::Write>(&self, f: &mut fmt::Formatter<W>) -> fmt::Result {
        let Steps { cold, hot, test } = self;
        write!(f, "{cold} {hot} {test}")
    }
}

/// A frame for a page: the frame, the victim that left it, and the steps. `V` is what is told of the victim, or an `Option`
/// of that where there may be none.
#[derive(Clone, Copy, PartialEq, Eq, Debug)]
pub struct Room<V> {
    pub frame: FrameNo,
    pub victim: V,
    pub steps: Steps,
}

/// How a borrow found its page.
#[derive(Clone, Copy, PartialEq, Eq, Debug)]
pub enum Outcome {
    /// The key was resident.
    Hit,
    /// The key was remembered.
    TestFault,
    /// The key was outside the list.
    ColdFault,
}

/// The outcome, in words.
impl fmt::Display for Outcome {
    ghost output = { λ o. Some (spelled o) };

    fn fmt<W: fmt::Write>(&self, f: &mut fmt::Formatter<W>) -> fmt::Result {
        f.write_str(match self {
            Outcome::Hit => "hit",
            Outcome::TestFault => "test fault",
            Outcome::ColdFault => "cold fault",
        })
    }
}

/// What a granted borrow reports. `V` is what is told of the victim: its key, or its key and whether it was altered.
#[derive(Clone, Copy, PartialEq, Eq, Debug)]
pub struct Report<V> {
    pub outcome: Outcome,
    /// The page that left its frame, if one did.
    pub victim: Option<V>,
    /// The steps of this call.
    pub steps: Steps,
    /// The cold allocation c after it.
    pub cold: u32,
}

/// The report as a line: `test fault, victim 3, steps 1 1 0, c 1`.
impl<V: fmt::Display> fmt::Display for Report<V> {
    ghost output = { line V.output };

    fn fmt<W: fmt::Write>(&self, f: &mut fmt::Formatter<W>) -> fmt::Result {
        let outcome = self.outcome;
        let steps = self.steps;
        let cold = self.cold;
        match &self.victim {
            Some(victim) => write!(f, "{outcome}, victim {victim}, steps {steps}, c {cold}"),
            None => write!(f, "{outcome}, victim none, steps {steps}, c {cold}"),
        }
    }
}

/// A granted borrow: the frame that the loan carries, and the report.
#[derive(Clone, Copy, PartialEq, Eq, Debug)]
pub struct Granted<V> {
    pub frame: FrameNo,
    pub report: Report<V>,
}

/// Why a borrow is refused.
#[derive(Clone, Copy, PartialEq, Eq, Debug)]
pub enum Refusal {
    /// 10: the page has 255 loans already.
    TooManyLoans,
    /// 11: the key is not resident, no frame is unused, and every resident page has a loan.
    NoFrame,
}

impl Refusal {
    /// The number of a refusal.
    // stays: a `match` and no discriminants, so that the edit which gives one refusal the other's number compiles.
    pub fn number(self) -> u8
        ensures { result ≡ number_of self }
    {
        match self {
            Refusal::TooManyLoans => 10,
            Refusal::NoFrame => 11,
        }
    }
}
