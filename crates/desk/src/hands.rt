//! The hands: each holds a loan, or none once it was returned.

ghost use Rattle.std.specs.Prelude.{◌≡◌, ◌<◌, Some, None, vec_len, slice_index_or, slice_set, option_copied};

use crate::orders::Hand;
use pool::Loan;

// The loan in a hand.
pub(crate) fn loan_in(hands: &[Option<Loan>], hand: Hand) -> Option<&Loan>
    ensures { option_copied result ≡ slice_index_or hands.now hand.0 None }
{
    hands.get(hand.0)?.as_ref()
}

// Takes the loan out of a hand.
pub(crate) fn empty(hands: &mut Vec<Option<Loan>>, hand: Hand) -> Option<Loan>
    ensures value { result ≡ slice_index_or hands.old.items hand.0 None }
    ensures after { hands.new.items ≡ slice_set hands.old.items hand.0 None }
{
    hands.get_mut(hand.0)?.take()
}

// Puts a loan back into an empty hand.
pub(crate) fn refill(hands: &mut Vec<Option<Loan>>, hand: Hand, loan: Loan)
    requires there { hand.0 < vec_len hands.old }
    requires none { slice_index_or hands.old.items hand.0 None ≡ None }
    ensures { hands.new.items ≡ slice_set hands.old.items hand.0 (Some loan) }
{
    match hands[hand.0].replace(loan) {
        None => {}
        Some(_) => unreachable!(),
    }
}
