//! What a ring shows of an entry beside its key: H hot, C resident cold, N remembered, t the test mark of a resident,
//! * the bit.

ghost use Rattle.std.specs.Prelude.{◌≡◌, Some};
ghost use Rattle.machine.specs.Rows.{seen};
ghost use Rattle.records.specs.Reading.{entry_of};
ghost use Rattle.plain.specs.Show.{seen_of, initial, spelled};

use keys::Key;
use records::Entry;
use std::fmt;

/// Whether an entry is hot, and whether its page has left.
#[derive(Clone, Copy, PartialEq, Eq, Debug)]
pub enum Letter {
    Hot,
    Cold,
    Remembered,
}

impl fmt::Display for Letter {
    ghost output = { λ l. Some (initial l) };

    fn fmt<W: fmt::Write>(&self, f: &mut fmt::Formatter<W>) -> fmt::Result {
        f.write_str(match self {
            Letter::Hot => "H",
            Letter::Cold => "C",
            Letter::Remembered => "N",
        })
    }
}

#[derive(Clone, Copy, PartialEq, Eq, Debug)]
pub struct Letters {
    pub letter: Letter,
    /// The test mark of a resident; every remembered entry has it, and it is not shown.
    pub test: bool,
    pub bit: bool,
}

/// What the ring shows of an entry.
impl<K: Key> From<&Entry<K>> for Letters {
    ghost from_gives = { λ e r. seen_of (K.Key.meaning e.now.key) r ≡ seen (entry_of K.Key.meaning e.now) };

    fn from(e: &Entry<K>) -> Letters {
        let letter = match (e.hot, e.frame) {
            (true, _) => Letter::Hot,
            (false, Some(_)) => Letter::Cold,
            (false, None) => Letter::Remembered,
        };
        let test = e.frame.is_some() && e.test;
        let bit = e.bit;
        Letters { letter, test, bit }
    }
}

impl Letters {
    /// The letters as text.
    // stays: twelve texts, so that this cannot fail and asks no memory. Letter, mark and bit written one after another took
    // twice as long and more.
    pub fn text(self) -> &'static str
        ensures { result.now ≡ spelled self }
    {
        match (self.letter, self.test, self.bit) {
            (Letter::Hot, false, false) => "H",
            (Letter::Hot, false, true) => "H*",
            (Letter::Hot, true, false) => "Ht",
            (Letter::Hot, true, true) => "Ht*",
            (Letter::Cold, false, false) => "C",
            (Letter::Cold, false, true) => "C*",
            (Letter::Cold, true, false) => "Ct",
            (Letter::Cold, true, true) => "Ct*",
            (Letter::Remembered, false, false) => "N",
            (Letter::Remembered, false, true) => "N*",
            (Letter::Remembered, true, false) => "Nt",
            (Letter::Remembered, true, true) => "Nt*",
        }
    }
}

impl fmt::Display for Letters {
    ghost output = { λ l. Some (spelled l) };

    fn fmt<W: fmt::Write>(&self, f: &mut fmt::Formatter<W>) -> fmt::Result {
        f.write_str(self.text())
    }
}
