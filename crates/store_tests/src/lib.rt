//! Tests of the stores through their public calls: the worked examples, and every refusal at its limit, with what the
//! refused call was lent compared before and after.

#![tactic(auto)]

#[cfg(test)]
mod bundle_tests;
#[cfg(test)]
mod file_tests;

#[cfg(test)]
use stores::StoreFault;

// The number of a refusal; nothing where all was granted.
// stays: numbers, which are what the tests want by the rules
#[cfg(test)]
fn refusal(answer: Result<(), StoreFault>) -> Option<u8> {
    answer.err().map(|fault| fault.number())
}
