//! What was counted, and how often the two models differed.

use keys::FrameNo;
use records::{Granted, Outcome, Refusal, Report};
use std::fmt;

#[derive(Default, Drop)]
pub(crate) struct Tally {
    hits: u64,
    tests: u64,
    colds: u64,
    tens: u64,
    elevens: u64,
    cold_steps: u64,
    hot_steps: u64,
    test_steps: u64,
    differ: u64,
}

impl Tally {
    // Counts a difference where the answer is no.
    pub(crate) fn same(&mut self, same: bool) {
        if !same {
            self.differ = self.differ.saturating_add(1);
        }
    }

    fn granted<V: Copy>(&mut self, report: Report<V>) {
        let steps = report.steps;
        self.cold_steps = self.cold_steps.saturating_add(u64::from(steps.cold));
        self.hot_steps = self.hot_steps.saturating_add(u64::from(steps.hot));
        self.test_steps = self.test_steps.saturating_add(u64::from(steps.test));
        match report.outcome {
            Outcome::Hit => self.hits = self.hits.saturating_add(1),
            Outcome::TestFault => self.tests = self.tests.saturating_add(1),
            Outcome::ColdFault => self.colds = self.colds.saturating_add(1),
        }
    }

    fn refused(&mut self, refusal: Refusal) {
        match refusal {
            Refusal::TooManyLoans => self.tens = self.tens.saturating_add(1),
            Refusal::NoFrame => self.elevens = self.elevens.saturating_add(1),
        }
    }

    // Compares two answers to a borrow, and counts what both say; the frame, where both grant it.
    pub(crate) fn answers<V: Copy + PartialEq>(
        &mut self,
        a: Result<Granted<V>, Refusal>,
        b: Result<Granted<V>, Refusal>,
    ) -> Option<FrameNo> {
        self.same(a == b);
        match (a, b) {
            (Ok(a), Ok(b)) => {
                self.granted(b.report);
                Some(a.frame)
            }
            (Err(_), Err(b)) => {
                self.refused(b);
                None
            }
            _ => None,
        }
    }
}

impl fmt::Display for Tally {
    fn fmt<W: fmt::Write>(&self, f: &mut fmt::Formatter<W>) -> fmt::Result {
        let borrows = self
            .hits
            .saturating_add(self.tests)
            .saturating_add(self.colds);
        let hits = self.hits;
        let tests = self.tests;
        let colds = self.colds;
        let tens = self.tens;
        let elevens = self.elevens;
        writeln!(
            f,
            "{borrows} borrows, {hits} hits, {tests} test faults, {colds} cold faults, refused 10: {tens}, 11: {elevens}"
        )?;
        let cold = self.cold_steps;
        let hot = self.hot_steps;
        let test = self.test_steps;
        let differ = self.differ;
        write!(f, "  steps {cold} {hot} {test}, {differ} differ")
    }
}

// A linear congruential generator.
// stays: the comparison of the bundles has its own, of other widths: the stored output of each hangs on its numbers.
#[derive(Drop)]
pub(crate) struct Random(pub u64);

impl Random {
    // A number below the given one, or 0.
    pub(crate) fn below(&mut self, n: u32) -> u32 {
        self.0 = self
            .0
            .wrapping_mul(6_364_136_223_846_793_005)
            .wrapping_add(1_442_695_040_888_963_407);
        let high = (self.0 >> 33) as u32;
        high.checked_rem(n).unwrap_or(0)
    }
}
