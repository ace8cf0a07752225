//! The runs of the three hands, with their steps counted, and the frame for a fault.

ghost use Rattle.std.specs.Prelude.{◌≡◌, ℕ, ◌≤◌, false, Some, None, Option, nat_lt};
ghost use Rattle.rows.specs.Rows.{Stands};
ghost use Rattle.machine.specs.Entry.{count, idle};
ghost use Rattle.machine.specs.Hands as rules;
ghost use Rattle.machine.specs.Facts.{Mid};
ghost use Rattle.ring.specs.Model.{machine_of, Sound};
ghost use Rattle.ring.specs.Turning.{Frees, Roomed};

use crate::Ring;
use crate::hands::{Choice, Victim};
use chains::Cell;
use keys::{FrameNo, Key};
use records::{Entry, Room, Steps};

/// What a cold run frees: a frame, with the page that left it and the steps.
pub type Freed<K> = Room<Victim<K>>;

impl Ring {
    /// Whether more than m - c entries are hot.
    #[tactic(auto, using(crate::proofs::States::hots_are), unfolding(crate::specs::Model::machine_of))]
    fn is_too_hot<K: Key>(&self, cells: &[Cell<Entry<K>>], m: u32) -> bool
        requires { Stands cells.now self.now.table }
        ensures { result ≡ rules.too_hot m (machine_of K.Key.meaning cells.now self.now) }
    {
        (m.saturating_sub(self.cold) as usize) < self.table.hot_count(cells)
    }

    /// Whether more than m entries are remembered.
    #[tactic(auto, using(crate::proofs::States::remembereds_are), unfolding(crate::specs::Model::machine_of))]
    fn has_too_many<K: Key>(&self, cells: &[Cell<Entry<K>>], m: u32) -> bool
        requires { Stands cells.now self.now.table }
        ensures { result ≡ rules.too_many m (machine_of K.Key.meaning cells.now self.now) }
    {
        (m as usize) < self.table.remembered_count(cells)
    }

    /// A hot run: the hot step while more than m - c entries are hot. The answer is its steps.
    pub fn hot_run<K: Key + Copy>(&mut self, cells: &mut [Cell<Entry<K>>], m: u32) -> u32
        requires { Sound K.Key.meaning None m cells.old self.old }
        ensures stands { Stands cells.new self.new.table }
        ensures run { rules.HotRun m (machine_of K.Key.meaning cells.old self.old) result (machine_of K.Key.meaning cells.new self.new) }
        ensures facts { Mid m None (machine_of K.Key.meaning cells.new self.new) }
    {
        // stays: one loop for both runs, given test and step as closures, would have to be told besides by which number each
        // run ends and how long it may be; the loop is shorter than the call that says so
        let mut steps = 0;
        while self.is_too_hot(cells, m) {
            self.hot_step(cells);
            steps += 1;
        }
        steps
    }

    /// A test run: the test step while more than m entries are remembered. The answer is its steps.
    pub fn test_run<K: Key + Copy>(&mut self, cells: &mut [Cell<Entry<K>>], m: u32) -> u32
        requires { (gap : Option ℕ) × Sound K.Key.meaning gap m cells.old self.old }
        ensures stands { Stands cells.new self.new.table }
        ensures run { rules.TestRun m (machine_of K.Key.meaning cells.old self.old) result (machine_of K.Key.meaning cells.new self.new) }
    {
        let mut steps = 0;
        while self.has_too_many(cells, m) {
            self.test_step(cells);
            steps += 1;
        }
        steps
    }

    /// A cold run: hot steps while there is no candidate, then a cold step with the run that follows it, until a frame is
    /// freed. Some resident page has no loan, so one is.
    pub fn cold_run<K: Key + Copy>(&mut self, cells: &mut [Cell<Entry<K>>], m: u32) -> Freed<K>
        requires sound { Sound K.Key.meaning None m cells.old self.old }
        requires unlent { 1 ≤ count idle (machine_of K.Key.meaning cells.old self.old).ring }
        ensures stands { Stands cells.new self.new.table }
        ensures run { Frees K.Key.meaning m (machine_of K.Key.meaning cells.old self.old) result (machine_of K.Key.meaning cells.new self.new) }
        ensures facts { Mid m (Some result.frame.0) (machine_of K.Key.meaning cells.new self.new) }
    {
        // stays: it is steps that are counted here and in the runs, by their kind, and no place in a list
        let mut steps = Steps::default();
        loop {
            match self.cold_step(cells, m) {
                Choice::NoCandidate => {
                    self.hot_step(cells);
                    steps.hot += 1;
                }
                Choice::Promoted => {
                    steps.cold += 1;
                    steps.hot += self.hot_run(cells, m);
                }
                Choice::Retested => steps.cold += 1,
                Choice::Evicted(frame, victim) => {
                    steps.cold += 1;
                    steps.test = self.test_run(cells, m);
                    break Room {
                        frame,
                        victim,
                        steps,
                    };
                }
            }
        }
    }

    /// The frame for a fault: the next unused one, else the one that a cold run frees.
    pub fn make_room<K: Key + Copy>(
        &mut self,
        cells: &mut [Cell<Entry<K>>],
        m: u32,
    ) -> Room<Option<Victim<K>>>
        requires sound { Sound K.Key.meaning None m cells.old self.old }
        requires unlent { nat_lt self.old.used m ≡ false → 1 ≤ count idle (machine_of K.Key.meaning cells.old self.old).ring }
        ensures stands { Stands cells.new self.new.table }
        ensures found { Roomed K.Key.meaning m (machine_of K.Key.meaning cells.old self.old) result (machine_of K.Key.meaning cells.new self.new) }
    {
        if self.used < m {
            let frame = FrameNo(self.used);
            self.used += 1;
            return Room {
                frame,
                victim: None,
                steps: Steps::default(),
            };
        }
        let freed = self.cold_run(cells, m);
        Room {
            frame: freed.frame,
            victim: Some(freed.victim),
            steps: freed.steps,
        }
    }
}
