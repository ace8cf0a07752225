//! The state of the simulator, the steps of the three hands, and their runs.

ghost use Rattle.std.specs.Prelude.{◌≡◌, ℕ, ◌<◌, ◌≤◌, false, None, vec_len, vec_capacity, Option, nat_lt};
ghost use Rattle.machine.specs.Entry.{count, free, idle};
ghost use Rattle.machine.specs.Hands as rules;
ghost use Rattle.machine.specs.Borrow as calls;
ghost use Rattle.records.specs.Reading.{entry_of, steps_of};
ghost use Rattle.plain.specs.Lists.{Found};
ghost use Rattle.plain.specs.Hands.{machine_of, Sound, Keeps, Turned, Roomed};

use crate::entries::{lower, raise};
use crate::{entries, lists};
use keys::{FrameNo, Key};
use records::{Entry, Room, Steps};
use std::ops::ControlFlow;

/// The ring from the tail to the head, the cold allocation, the number of frames in use, and how many there are.
#[derive(Drop)]
pub(crate) struct State<K> {
    pub ring: Vec<Entry<K>>,
    pub cold: u32,
    pub used: u32,
    pub frames: u32,
}

/// What a cold run made: its steps, and its victim as it stood before it left its frame.
#[derive(Clone, Copy)]
pub(crate) struct Sent<K> {
    pub victim: Entry<K>,
    pub steps: Steps,
}

impl<K: Key + Copy> State<K> {
    /// The hot step, at the tail.
    fn hot_step(&mut self)
        ensures step { machine_of K.Key.meaning self.new ≡ rules.hot_step (machine_of K.Key.meaning self.old) }
        ensures kept { Keeps self.old self.new }
    {
        let Some(&e) = self.ring.first() else {
            return;
        };
        self.cold = entries::cold_after_hot_step(&e, self.cold);
        lists::to_head(&mut self.ring, 0, entries::after_hot_step(e));
    }

    /// The test step, at the first entry with the test mark.
    fn test_step(&mut self)
        ensures step { machine_of K.Key.meaning self.new ≡ rules.test_step (machine_of K.Key.meaning self.old) }
        ensures kept { Keeps self.old self.new }
    {
        self.cold = lower(self.cold);
        let Some(at) = self.first_marked() else {
            return;
        };
        let left = entries::after_test_step(self.ring[at]);
        lists::put(&mut self.ring, at, left);
    }

    /// Whether more than m - c entries are hot.
    fn is_too_hot(&self) -> bool
        ensures { result ≡ rules.too_hot self.now.frames (machine_of K.Key.meaning self.now) }
    {
        (self.frames.saturating_sub(self.cold) as usize) < self.hot()
    }

    /// Whether more than m entries are remembered.
    fn has_too_many(&self) -> bool
        ensures { result ≡ rules.too_many self.now.frames (machine_of K.Key.meaning self.now) }
    {
        (self.frames as usize) < self.remembered()
    }

    // stays: hot_run and test_run are two loops of one shape. A function for both takes the test, the step and what bounds
    // the steps of each as parameters, and is longer than the loops.
    /// The hot step while more than m - c entries are hot.
    pub(crate) fn hot_run(&mut self) -> u32
        requires sound { Sound K.Key.meaning None self.old }
        ensures run { rules.HotRun self.old.frames (machine_of K.Key.meaning self.old) result (machine_of K.Key.meaning self.new) }
        ensures kept { Keeps self.old self.new }
    {
        let mut steps = 0;
        while self.is_too_hot() {
            self.hot_step();
            steps += 1;
        }
        steps
    }

    /// The test step while more than m entries are remembered.
    fn test_run(&mut self) -> u32
        requires sound { (gap : Option ℕ) × Sound K.Key.meaning gap self.old }
        ensures run { rules.TestRun self.old.frames (machine_of K.Key.meaning self.old) result (machine_of K.Key.meaning self.new) }
        ensures kept { Keeps self.old self.new }
    {
        let mut steps = 0;
        while self.has_too_many() {
            self.test_step();
            steps += 1;
        }
        steps
    }

    // stays: a place and the entry there. A struct of the two stood here before, and the three hands took it apart again.
    fn promote(&mut self, at: usize, e: Entry<K>)
        requires found { Found K.Key.meaning free self.old.ring.items at e }
        ensures step { machine_of K.Key.meaning self.new ≡ rules.promote self.old.frames (entry_of K.Key.meaning e) (machine_of K.Key.meaning self.old) }
        ensures kept { Keeps self.old self.new }
    {
        lists::to_head(&mut self.ring, at, Some(entries::promote(e)));
        self.cold = raise(self.frames, self.cold);
    }

    fn retest(&mut self, at: usize, e: Entry<K>)
        requires found { Found K.Key.meaning free self.old.ring.items at e }
        ensures step { machine_of K.Key.meaning self.new ≡ rules.retest (entry_of K.Key.meaning e) (machine_of K.Key.meaning self.old) }
        ensures kept { Keeps self.old self.new }
    {
        lists::to_head(&mut self.ring, at, Some(entries::retest(e)));
    }

    fn evict(&mut self, at: usize, e: Entry<K>)
        requires found { Found K.Key.meaning free self.old.ring.items at e }
        ensures step { machine_of K.Key.meaning self.new ≡ rules.evict (machine_of K.Key.meaning self.old) }
        ensures kept { Keeps self.old self.new }
    {
        lists::put(&mut self.ring, at, entries::after_eviction(e));
    }

    /// One turn of a cold run: a hot step where there is no candidate, else a cold step with the run that follows it.
    /// The run goes on after these cold and hot steps, or ends with this victim and these test steps.
    fn cold_turn(&mut self) -> ControlFlow<(Entry<K>, u32), (u32, u32)>
        requires sound { Sound K.Key.meaning None self.old }
        requires unlent { 1 ≤ count idle (machine_of K.Key.meaning self.old).ring }
        ensures turned { Turned K.Key.meaning self.old.frames (machine_of K.Key.meaning self.old) result (machine_of K.Key.meaning self.new) }
        ensures kept { Keeps self.old self.new }
    {
        let Some(at) = self.candidate() else {
            self.hot_step();
            return ControlFlow::Continue((0, 1));
        };
        let e = self.ring[at];
        match (e.bit, e.test) {
            (true, true) => {
                self.promote(at, e);
                let hot = self.hot_run();
                ControlFlow::Continue((1, hot))
            }
            (true, false) => {
                self.retest(at, e);
                ControlFlow::Continue((1, 0))
            }
            (false, _) => {
                self.evict(at, e);
                let test = self.test_run();
                ControlFlow::Break((e, test))
            }
        }
    }

    /// Turns until a frame is freed.
    fn cold_run(&mut self) -> Sent<K>
        requires sound { Sound K.Key.meaning None self.old }
        requires unlent { 1 ≤ count idle (machine_of K.Key.meaning self.old).ring }
        ensures run { rules.ColdRun self.old.frames (machine_of K.Key.meaning self.old) (steps_of result.steps) (entry_of K.Key.meaning result.victim) (machine_of K.Key.meaning self.new) }
        ensures kept { Keeps self.old self.new }
    {
        // stays: it is steps that are counted here and in the runs, by their kind, and no place in a list
        let mut cold = 0;
        let mut hot = 0;
        loop {
            match self.cold_turn() {
                ControlFlow::Continue((c, h)) => {
                    cold += c;
                    hot += h;
                }
                ControlFlow::Break((victim, test)) => {
                    cold += 1;
                    let steps = Steps { cold, hot, test };
                    return Sent { victim, steps };
                }
            }
        }
    }

    /// The frame for a fault: the next unused one, else the one that a cold run frees.
    pub(crate) fn room(&mut self) -> Room<Option<K>>
        requires sound { Sound K.Key.meaning None self.old }
        requires unlent { nat_lt self.old.used self.old.frames ≡ false → 1 ≤ count idle (machine_of K.Key.meaning self.old).ring }
        ensures found { Roomed K.Key.meaning self.old.frames (machine_of K.Key.meaning self.old) result (machine_of K.Key.meaning self.new) }
        ensures kept { Keeps self.old self.new }
    {
        if self.used < self.frames {
            let frame = FrameNo(self.used);
            self.used += 1;
            return Room {
                frame,
                victim: None,
                steps: Steps::default(),
            };
        }
        let Sent { victim, steps } = self.cold_run();
        let Some(frame) = victim.frame else {
            unreachable()
        };
        let victim = Some(victim.key);
        Room {
            frame,
            victim,
            steps,
        }
    }

    /// A page enters at the head.
    pub(crate) fn enter(&mut self, key: K, hot: bool, frame: FrameNo)
        requires { vec_len self.old.ring < vec_capacity self.old.ring }
        ensures step { machine_of K.Key.meaning self.new ≡ calls.enter (K.Key.meaning key) hot frame.0 (machine_of K.Key.meaning self.old) }
        ensures kept { Keeps self.old self.new }
    {
        self.ring.push_reserved(entries::fresh(key, hot, frame));
    }
}
