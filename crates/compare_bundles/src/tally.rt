//! What a comparison counts.

use std::fmt;
use stores::StoreFault;

/// An answer that both readers give.
pub(crate) trait Answer: PartialEq + Copy {
    /// The number that stands for it in the digest.
    fn number(self) -> u64;
}

impl Answer for bool {
    fn number(self) -> u64 {
        u64::from(self)
    }
}

impl Answer for u8 {
    fn number(self) -> u64 {
        u64::from(self)
    }
}

impl Answer for u64 {
    fn number(self) -> u64 {
        self
    }
}

impl Answer for usize {
    fn number(self) -> u64 {
        self as u64
    }
}

/// The number of a refusal, and 0 for none.
impl Answer for Option<u8> {
    fn number(self) -> u64 {
        self.map_or(0, u64::from)
    }
}

/// What was granted, or the number of the refusal.
impl Answer for Result<u64, StoreFault> {
    fn number(self) -> u64 {
        self.unwrap_or_else(|fault| u64::from(fault.number()))
    }
}

/// All answers so far in one number.
#[derive(Clone, Copy, PartialEq, Eq, Debug)]
struct Digest(u64);

impl Default for Digest {
    fn default() -> Digest {
        Digest(14_695_981_039_346_656_037)
    }
}

impl Digest {
    fn take_in(&mut self, number: u64) {
        self.0 = (self.0 ^ number).wrapping_mul(1_099_511_628_211);
    }
}

/// The counts of one kind of strings.
#[derive(Clone, Copy)]
pub(crate) struct Tally {
    strings: u64,
    opened: u64,
    // stays: four pairs that are gone through; a map would make the tally no `Copy`
    refused: [(StoreFault, u64); 4],
    answers: u64,
    digest: Digest,
    differ: u64,
}

/// No string yet.
impl Default for Tally {
    fn default() -> Tally {
        Tally {
            strings: 0,
            opened: 0,
            refused: [
                (StoreFault::PageSize, 0),
                (StoreFault::SectionOne, 0),
                (StoreFault::Row, 0),
                (StoreFault::SectionTwo, 0),
            ],
            answers: 0,
            digest: Digest::default(),
            differ: 0,
        }
    }
}

// Adds to a count.
fn add_to(count: &mut u64, more: u64) {
    *count = count.saturating_add(more);
}

impl Tally {
    /// One more string, with the answer to its opening.
    pub(crate) fn count(&mut self, opening: Result<(), StoreFault>) {
        add_to(&mut self.strings, 1);
        match opening {
            Ok(()) => add_to(&mut self.opened, 1),
            Err(refusal) => self.refuse(refusal, 1),
        }
    }

    // More strings with a refusal. One that no opening has is a difference.
    fn refuse(&mut self, refusal: StoreFault, strings: u64) {
        let place = self.refused.iter().position(|(fault, _)| *fault == refusal);
        match place {
            Some(i) => add_to(&mut self.refused[i].1, strings),
            None => add_to(&mut self.differ, strings),
        }
    }

    /// One more answer of both readers. The digest takes in what the proved one says.
    pub(crate) fn same<A: Answer>(&mut self, plain: A, proved: A) {
        add_to(&mut self.answers, 1);
        self.digest.take_in(proved.number());
        if plain != proved {
            add_to(&mut self.differ, 1);
        }
    }

    /// Takes in the counts of another kind.
    pub(crate) fn add(&mut self, kind: &Tally) {
        add_to(&mut self.strings, kind.strings);
        add_to(&mut self.opened, kind.opened);
        for (fault, strings) in kind.refused {
            self.refuse(fault, strings);
        }
        add_to(&mut self.answers, kind.answers);
        self.digest.take_in(kind.digest.0);
        add_to(&mut self.differ, kind.differ);
    }

    /// The number of strings.
    pub(crate) fn strings(&self) -> u64 {
        self.strings
    }

    /// The number of answers in which the readers differ.
    pub(crate) fn differ(&self) -> u64 {
        self.differ
    }
}

impl fmt::Display for Tally {
    fn fmt<W: fmt::Write>(&self, f: &mut fmt::Formatter<W>) -> fmt::Result {
        let strings = self.strings;
        let opened = self.opened;
        write!(f, "{strings} strings, {opened} opened")?;
        for (fault, count) in &self.refused {
            let number = fault.number();
            write!(f, ", {count} refused {number}")?;
        }
        let answers = self.answers;
        let digest = self.digest.0;
        let differ = self.differ;
        write!(f, ", {answers} answers (digest {digest}), {differ} differ")
    }
}
