//! `machine M KEY ..`: the list machine on a plain list, a line for each word.
//!
//!     KEY     borrows the key and returns the loan
//!     KEY+    borrows the key and keeps the loan
//!     -KEY    returns one loan of the key

use anyhow::{bail, ensure};
use keys::{DeliveryKey, Key, NotAKey, PageNo};
use plain::{Letters, Plain};
use std::alloc::{AllocError, Global};
use std::fmt::{Display, Write};
use std::str::FromStr;

// What becomes of the loan of a borrow.
#[derive(Clone, Copy, PartialEq, Eq)]
enum Loan {
    Returned,
    Kept,
}

// What a word asks for.
#[derive(Clone, Copy)]
enum Deed {
    Borrow(Loan),
    Return,
}

// The deed of a word, and the part of it that names the key.
fn read_word(word: &str) -> (Deed, &str) {
    if let Some(rest) = word.strip_prefix('-') {
        return (Deed::Return, rest);
    }
    if let Some(rest) = word.strip_suffix('+') {
        return (Deed::Borrow(Loan::Kept), rest);
    }
    (Deed::Borrow(Loan::Returned), word)
}

// The ring, tail first, as ` 1H 4Ct 2H`.
fn ring_text<K: Key + Copy + Display>(
    heap: Global,
    plain: &Plain<K>,
) -> Result<String, AllocError> {
    let mut text = String::new(heap);
    for entry in plain.entries() {
        let key = entry.key;
        let letters = Letters::from(entry);
        write!(text, " {key}{letters}")?;
    }
    Ok(text)
}

// What a borrow answers.
fn borrow<K: Key + Copy + Display>(
    heap: Global,
    plain: &mut Plain<K>,
    key: K,
    loan: Loan,
) -> Result<String, AllocError> {
    match plain.borrow(key) {
        Ok(granted) => {
            if loan == Loan::Returned {
                plain.give_back(granted.frame);
            }
            let report = granted.report;
            format!(in heap; "{report}")
        }
        Err(refusal) => {
            let number = refusal.number();
            format!(in heap; "refused {number}")
        }
    }
}

// What a return of one loan of the key answers, if it has one.
fn give_back<K: Key + Copy>(plain: &mut Plain<K>, key: K) -> bool {
    let Some(frame) = plain.frame_of(key) else {
        return false;
    };
    plain.give_back(frame)
}

// Does what the word asks for and prints what came of it; the answer is no where the word could not be taken.
fn play_word<K: Key + Copy + Display + FromStr<Err = NotAKey>>(
    rt: &HostRuntime,
    plain: &mut Plain<K>,
    word: &str,
) -> anyhow::Result<bool> {
    let heap = rt.alloc();
    let (deed, rest) = read_word(word);
    let Ok(key) = rest.parse::<K>() else {
        println!(rt; "{word} => error: {rest} is not a key of this kind")?;
        return Ok(false);
    };
    let answer = match deed {
        Deed::Borrow(loan) => borrow(heap, plain, key, loan)?,
        Deed::Return if give_back(plain, key) => String::from_str(heap, "returned")?,
        Deed::Return => {
            println!(rt; "{word} => error: there is no loan of {key}")?;
            return Ok(false);
        }
    };
    let ring = ring_text(heap, plain)?;
    println!(rt; "{word} => {answer}, ring{ring}")?;
    Ok(true)
}

fn play<K: Key + Copy + Display + FromStr<Err = NotAKey> + Drop>(
    rt: &HostRuntime,
    frames: u32,
    words: &[String],
) -> anyhow::Result<()> {
    let mut plain = Plain::<K>::open(rt.alloc(), frames)?;
    let mut all = true;
    for word in words {
        all &= play_word(rt, &mut plain, word.as_str())?;
    }
    ensure!(all, "not every word could be taken");
    Ok(())
}

// The same words that a caller could give, for the demonstration.
pub(crate) fn sample(rt: &HostRuntime, frames: u32, words: &str) -> anyhow::Result<()> {
    let mut plain = Plain::<PageNo>::open(rt.alloc(), frames)?;
    for word in words.split(' ') {
        play_word(rt, &mut plain, word)?;
    }
    Ok(())
}

// The words after `machine`: the number of frames and the keys, all of one kind. The first key tells which.
pub(crate) fn run(rt: &HostRuntime, words: &[String]) -> anyhow::Result<()> {
    let [frames, keys @ ..] = words else {
        bail!("machine takes a number of frames and keys");
    };
    let Ok(frames) = frames.as_str().parse::<u32>() else {
        bail!("the number of frames is not a number");
    };
    if keys.first().is_some_and(|word| word.as_str().contains('/')) {
        play::<DeliveryKey>(rt, frames, keys)
    } else {
        play::<PageNo>(rt, frames, keys)
    }
}
