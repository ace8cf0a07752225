//! The steps of the three hands. Each looks at one entry: the hot hand at the tail, the cold hand at the candidate, the
//! test hand at the entry with the test mark nearest the tail.

ghost use Rattle.std.specs.Prelude.{◌≡◌};
ghost use Rattle.rows.specs.Rows.{Stands};
ghost use Rattle.machine.specs.Hands as rules;
ghost use Rattle.ring.specs.Answering.{told};
ghost use Rattle.ring.specs.Model.{machine_of};
ghost use Rattle.ring.specs.Turning.{Stepped};

use crate::Ring;
use chains::Cell;
use keys::{FrameNo, Key};
use records::{Entry, Report, lower, raise};

/// The page that left a frame: its key, and whether it was altered, so that it has to be written out.
#[derive(Clone, Copy, PartialEq, Eq, Debug)]
pub struct Victim<K> {
    pub key: K,
    pub altered: bool,
}

/// The page of an entry, as it leaves its frame.
impl<K> From<Entry<K>> for Victim<K> {
    ghost from_gives = { λ e r. r ≡ record { key = e.key; altered = e.altered } };

    fn from(e: Entry<K>) -> Victim<K> {
        Victim {
            key: e.key,
            altered: e.altered,
        }
    }
}

/// A report as it is told outside: of the victim its key alone.
pub fn by_key<K: Copy>(report: Report<Victim<K>>) -> Report<K>
    ensures { result ≡ told report }
{
    Report {
        outcome: report.outcome,
        victim: report.victim.map(|v| v.key),
        steps: report.steps,
        cold: report.cold,
    }
}

/// What the cold step did.
// stays: not of Option's shape, since three of its four answers carry nothing and each is followed by something else
#[derive(Clone, Copy, PartialEq, Eq, Debug)]
pub enum Choice<K> {
    /// There was no candidate, and nothing was done.
    NoCandidate,
    /// C1: the candidate became hot. A hot run is to follow.
    Promoted,
    /// C2: the candidate began a new test period.
    Retested,
    /// C3: the candidate left this frame. A test run is to follow.
    Evicted(FrameNo, Victim<K>),
}

impl Ring {
    /// The hot step, at the tail.
    pub fn hot_step<K: Key + Copy>(&mut self, cells: &mut [Cell<Entry<K>>])
        requires { Stands cells.old self.old.table }
        ensures stands { Stands cells.new self.new.table }
        ensures step { machine_of K.Key.meaning cells.new self.new ≡ rules.hot_step (machine_of K.Key.meaning cells.old self.old) }
    {
        let Some(row) = self.table.tail_row(cells) else {
            return;
        };
        let e = row.entry;
        match (e.hot, e.frame, e.test, e.bit) {
            // H1: hot, bit set
            (true, _, _, true) => {
                self.table.turn(cells, row, Entry { bit: false, ..e });
            }
            // H2: hot, bit clear
            (true, _, _, false) => {
                let new = Entry {
                    hot: false,
                    test: false,
                    ..e
                };
                self.table.turn(cells, row, new);
            }
            // H3: resident cold, in its test period
            (false, Some(_), true, _) => {
                self.table.turn(cells, row, Entry { test: false, ..e });
                self.cold = lower(self.cold);
            }
            // H3: resident cold
            (false, Some(_), false, _) => self.table.turn(cells, row, e),
            // H4: remembered
            (false, None, _, _) => {
                self.table.take_out(cells, row);
                self.cold = lower(self.cold);
            }
        }
    }

    /// The test step, at the entry with the test mark nearest the tail.
    pub fn test_step<K: Key + Copy>(&mut self, cells: &mut [Cell<Entry<K>>])
        requires { Stands cells.old self.old.table }
        ensures stands { Stands cells.new self.new.table }
        ensures step { machine_of K.Key.meaning cells.new self.new ≡ rules.test_step (machine_of K.Key.meaning cells.old self.old) }
    {
        self.cold = lower(self.cold);
        let Some(row) = self.table.marked_row(cells) else {
            return;
        };
        let e = row.entry;
        match e.frame {
            // T1: remembered
            None => self.table.take_out(cells, row),
            // T2: resident
            Some(_) => self.table.rewrite(cells, row, Entry { test: false, ..e }),
        }
    }

    /// The cold step, at the candidate. The run that is to follow is the caller's.
    pub fn cold_step<K: Key + Copy>(&mut self, cells: &mut [Cell<Entry<K>>], m: u32) -> Choice<K>
        requires { Stands cells.old self.old.table }
        ensures stands { Stands cells.new self.new.table }
        ensures step { Stepped K.Key.meaning m (machine_of K.Key.meaning cells.old self.old) result (machine_of K.Key.meaning cells.new self.new) }
    {
        let Some(row) = self.table.candidate(cells) else {
            return Choice::NoCandidate;
        };
        let candidate = row.entry;
        match (
            candidate.hot,
            candidate.frame,
            candidate.test,
            candidate.bit,
        ) {
            // C1: bit and test mark
            (_, Some(_), true, true) => {
                let new = Entry {
                    hot: true,
                    test: false,
                    bit: false,
                    ..candidate
                };
                self.table.turn(cells, row, new);
                self.cold = raise(m, self.cold);
                Choice::Promoted
            }
            // C2: bit, no test mark
            (_, Some(_), false, true) => {
                let new = Entry {
                    test: true,
                    bit: false,
                    ..candidate
                };
                self.table.turn(cells, row, new);
                Choice::Retested
            }
            // C3: no bit; with the test mark it is remembered
            (_, Some(frame), true, false) => {
                let left = Entry {
                    key: candidate.key,
                    hot: false,
                    frame: None,
                    test: true,
                    bit: false,
                    loans: 0,
                    altered: false,
                };
                self.table.rewrite(cells, row, left);
                Choice::Evicted(frame, Victim::from(candidate))
            }
            // C3: no bit; without the test mark it is removed
            (_, Some(frame), false, false) => {
                self.table.take_out(cells, row);
                Choice::Evicted(frame, Victim::from(candidate))
            }
            // a candidate is resident
            (_, None, _, _) => unreachable(),
        }
    }
}
