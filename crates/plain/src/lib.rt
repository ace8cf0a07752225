//! A plain-list simulator of CLOCK-Pro: the second model, written from the rules in the simplest way, with which tests
//! compare the pool. It is one text for every kind of key.
//!
//! `Plain` has the calls: `open`, `borrow`, `give_back` and `mark_page`; `frame_of` and `entries` look at the ring, and
//! `Letters` prints it. Each call is the list machine's call on the state that the simulator holds, read by `machine_of`.
//! All memory is taken at opening, so that no later call can fail for want of it. No call asks anything of its caller.

// stays: hands, runs and calls stand here as they do in the ring, on a list in place of cells. The comparison of the two is
// worth something since they were written apart; what they have in common are their records.

#![tactic(auto)]

ghost use Rattle.std.specs.Prelude.{◌≡◌, nat_lt};
ghost use Rattle.machine.specs.Entry.{first, named};
ghost use Rattle.machine.specs.Borrow as rules;
ghost use Rattle.records.specs.Reading.{frame_of, answer_of};
ghost use Rattle.plain.specs.Hands.{machine_of};
ghost use Rattle.plain.specs.Simulator.{Opens, held_in};

mod calls;
mod entries;
mod error;
mod hands;
mod lists;
mod looking;
mod show;
mod simulator;

pub use error::OpenError;
use hands::State;
use keys::{FrameNo, Key};
use records::{Entry, Granted, Refusal};
pub use show::{Letter, Letters};
pub use simulator::Plain;
use std::alloc::Global;

impl<K: Key + Copy> Plain<K> {
    /// Opens an empty simulator, and takes the memory for every entry that there can be.
    pub fn open(heap: Global, frames: u32) -> Result<Plain<K>, OpenError>
        ensures { Opens K.Key.meaning frames result }
    {
        if frames < 2 || 4096 < frames {
            return Err(OpenError::FrameCount);
        }
        let ring = Vec::with_capacity(heap, 2 * frames as usize)?;
        let state = State {
            ring,
            cold: frames - 1,
            used: 0,
            frames,
        };
        Ok(Plain { state })
    }

    /// Borrows a key. A refusal alters nothing.
    pub fn borrow(&mut self, key: K) -> Result<Granted<K>, Refusal>
        ensures borrowed { rules.Borrow self.old.state.frames (K.Key.meaning key) (machine_of K.Key.meaning self.old.state) (answer_of K.Key.meaning result) (machine_of K.Key.meaning self.new.state) }
        ensures frames { self.new.state.frames ≡ self.old.state.frames }
    {
        self.state.borrow(key)
    }

    /// Takes one loan off a frame. Where the frame carries none, the answer is no and nothing changes.
    pub fn give_back(&mut self, frame: FrameNo) -> bool
        ensures carried { result ≡ nat_lt 0 (rules.carries frame.0 (machine_of K.Key.meaning self.old.state)) }
        ensures returned { machine_of K.Key.meaning self.new.state ≡ rules.give_back frame.0 (machine_of K.Key.meaning self.old.state) }
        ensures frames { self.new.state.frames ≡ self.old.state.frames }
    {
        self.state.give_back(frame)
    }

    /// Sets or clears the altered mark of the page in a frame.
    pub fn mark_page(&mut self, frame: FrameNo, altered: bool)
        ensures marked { machine_of K.Key.meaning self.new.state ≡ rules.mark_page frame.0 altered (machine_of K.Key.meaning self.old.state) }
        ensures frames { self.new.state.frames ≡ self.old.state.frames }
    {
        self.state.mark_page(frame, altered)
    }

    /// The frame that the key's page lies in, if it is resident.
    pub fn frame_of(&self, key: K) -> Option<FrameNo>
        ensures { frame_of result ≡ held_in (first (named (K.Key.meaning key)) (machine_of K.Key.meaning self.now.state).ring) }
    {
        let at = self.state.place_of(&key)?;
        self.state.ring[at].frame
    }

    /// The ring, from the tail to the head.
    pub fn entries(&self) -> &[Entry<K>]
        ensures { result.now ≡ self.now.state.ring.items }
    {
        self.state.ring.as_slice()
    }
}
