//! Borrowing a key, returning a loan and marking a page, on the bare state.

ghost use Rattle.std.specs.Prelude.{◌≡◌, ◌<◌, is_some, if◌then◌else◌, Some, None, nat_lt};
ghost use Rattle.machine.specs.Entry.{first, named};
ghost use Rattle.machine.specs.Borrow as rules;
ghost use Rattle.records.specs.Reading.{granted_of, answer_of};
ghost use Rattle.plain.specs.Lists.{Found};
ghost use Rattle.plain.specs.Hands.{machine_of, Sound, Keeps};
ghost use Rattle.plain.specs.Calls.{recalled_if, Away};

use crate::entries;
use crate::entries::raise;
use crate::hands::State;
use keys::{FrameNo, Key};
use records::{Entry, Granted, Outcome, Refusal, Report, Steps};

impl<K: Key + Copy> State<K> {
    /// Whether no frame is unused and every resident page has a loan.
    fn is_full(&self) -> bool
        ensures { rules.full self.now.frames (machine_of K.Key.meaning self.now) ≡ (if result then Some 11 else None) }
    {
        self.frames <= self.used && !self.has_idle()
    }

    /// Takes the key's entry out and raises the cold allocation; the answer is whether there was one.
    fn recall(&mut self, key: K) -> bool
        ensures there { result ≡ is_some (first (named (K.Key.meaning key)) (machine_of K.Key.meaning self.old).ring) }
        ensures step { machine_of K.Key.meaning self.new ≡ recalled_if self.old.frames (K.Key.meaning key) result (machine_of K.Key.meaning self.old) }
        ensures kept { Keeps self.old self.new }
    {
        let Some(at) = self.place_of(&key) else {
            return false;
        };
        self.ring.remove(at);
        self.cold = raise(self.frames, self.cold);
        true
    }

    /// A fault: a test fault if the key is remembered, which is asked before any hand moves, else a cold fault.
    fn fault(&mut self, key: K) -> Granted<K>
        requires sound { Sound K.Key.meaning None self.old }
        requires away { Away (K.Key.meaning key) (machine_of K.Key.meaning self.old) }
        requires due { rules.refusal self.old.frames (K.Key.meaning key) (machine_of K.Key.meaning self.old) ≡ None }
        ensures borrowed { rules.Borrow self.old.frames (K.Key.meaning key) (machine_of K.Key.meaning self.old) (granted_of K.Key.meaning result) (machine_of K.Key.meaning self.new) }
        ensures kept { Keeps self.old self.new }
    {
        let (remembered, room) = (self.recall(key), self.room());
        self.enter(key, remembered, room.frame);
        let mut steps = room.steps;
        let outcome = if remembered {
            steps.hot += self.hot_run();
            Outcome::TestFault
        } else {
            Outcome::ColdFault
        };
        let report = Report {
            outcome,
            victim: room.victim,
            steps,
            cold: self.cold,
        };
        Granted {
            frame: room.frame,
            report,
        }
    }

    /// A key that is not resident: the question for a frame, then the fault.
    fn miss(&mut self, key: K) -> Result<Granted<K>, Refusal>
        requires sound { Sound K.Key.meaning None self.old }
        requires away { Away (K.Key.meaning key) (machine_of K.Key.meaning self.old) }
        requires question { rules.refusal self.old.frames (K.Key.meaning key) (machine_of K.Key.meaning self.old) ≡ rules.full self.old.frames (machine_of K.Key.meaning self.old) }
        ensures borrowed { rules.Borrow self.old.frames (K.Key.meaning key) (machine_of K.Key.meaning self.old) (answer_of K.Key.meaning result) (machine_of K.Key.meaning self.new) }
        ensures kept { Keeps self.old self.new }
    {
        if self.is_full() {
            return Err(Refusal::NoFrame);
        }
        Ok(self.fault(key))
    }

    /// A hit on the entry that was found by the key: its bit is set, and it has one loan more.
    fn hit(&mut self, key: K, at: usize, e: Entry<K>)
        requires found { Found K.Key.meaning (named (K.Key.meaning key)) self.old.ring.items at e }
        requires loans { e.loans < 255 }
        ensures step { machine_of K.Key.meaning self.new ≡ rules.hit (K.Key.meaning key) (machine_of K.Key.meaning self.old) }
        ensures kept { Keeps self.old self.new }
    {
        self.ring[at] = entries::lend(e);
    }

    /// Borrows a key: the questions in their order, then the hit or the fault.
    pub(crate) fn borrow(&mut self, key: K) -> Result<Granted<K>, Refusal>
        requires sound { Sound K.Key.meaning None self.old }
        ensures borrowed { rules.Borrow self.old.frames (K.Key.meaning key) (machine_of K.Key.meaning self.old) (answer_of K.Key.meaning result) (machine_of K.Key.meaning self.new) }
        ensures kept { Keeps self.old self.new }
    {
        let Some(at) = self.place_of(&key) else {
            return self.miss(key);
        };
        let e = self.ring[at];
        let Some(frame) = e.frame else {
            return self.miss(key);
        };
        if e.loans == 255 {
            return Err(Refusal::TooManyLoans);
        }
        self.hit(key, at, e);
        let report = Report {
            outcome: Outcome::Hit,
            victim: None,
            steps: Steps::default(),
            cold: self.cold,
        };
        Ok(Granted { frame, report })
    }

    /// Takes one loan off a frame; the answer is whether it carried one.
    pub(crate) fn give_back(&mut self, frame: FrameNo) -> bool
        ensures carried { result ≡ nat_lt 0 (rules.carries frame.0 (machine_of K.Key.meaning self.old)) }
        ensures step { machine_of K.Key.meaning self.new ≡ rules.give_back frame.0 (machine_of K.Key.meaning self.old) }
        ensures kept { Keeps self.old self.new }
    {
        let Some(at) = self.place_in(frame) else {
            return false;
        };
        let e = self.ring[at];
        if e.loans == 0 {
            return false;
        }
        self.ring[at] = entries::repay(e);
        true
    }

    /// Sets or clears the altered mark of the page in a frame.
    pub(crate) fn mark_page(&mut self, frame: FrameNo, altered: bool)
        ensures step { machine_of K.Key.meaning self.new ≡ rules.mark_page frame.0 altered (machine_of K.Key.meaning self.old) }
        ensures kept { Keeps self.old self.new }
    {
        if let Some(at) = self.place_in(frame) {
            self.ring[at] = entries::mark(self.ring[at], altered);
        }
    }
}
