//! The exact CLOCK-Pro list machine: definitions over lists and numbers with no memory in them, and their laws.
//!
//! The definitions stand in specs/: `Entry` and `Hands` have the state, the steps of the three hands and their runs,
//! `Borrow` has the calls. What the pool and every model of it promise is said in these words. `Facts` has what holds of
//! every state, `Laws` the laws. Each function here does nothing; its contract is the law, so that the check asks for its
//! proof.

#![tactic(auto)]

ghost use Rattle.machine.specs.Laws.{OneResult, Ends, Standing, Refusals, Paid, Table, Pages, Exact};

/// Each run and each borrow has at most one result.
pub fn one_result()
    ensures { OneResult }
{}

/// Every run ends, and its steps fit 32 bits.
pub fn every_run_ends()
    ensures { Ends }
{}

/// The standing facts hold at opening and after each call, and there are never more than 2 m entries.
pub fn facts_stand()
    ensures { Standing }
{}

/// A 10 and an 11 are given only where they are due, and where an 11 is not, a victim is found that has no loan.
pub fn refusals_are_true()
    ensures { Refusals }
{}

/// Cold steps and test steps add up to at most the borrows granted.
pub fn steps_are_paid()
    ensures { Paid }
{}

/// The lettered rows of the sample runs.
pub fn sample_rows_hold()
    ensures { Table }
{}

/// What becomes of the pages in a borrow: what comes into the frame, what goes out of it, and that the others stay.
pub fn pages_turn_over()
    ensures { Pages }
{}

/// The evaluator gives exactly what the relation of a borrow says.
pub fn evaluator_is_exact()
    ensures { Exact }
{}
