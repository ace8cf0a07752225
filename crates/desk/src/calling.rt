//! One call from the desk, with whatever memory it is lent.

ghost use Rattle.std.specs.Prelude.{◌≡◌, List, Option, IfOk, MatchResult};
ghost use Rattle.promise.specs.Serves.{to_borrow, to_flush};
ghost use Rattle.promise.specs.Desk as desk;
ghost use Rattle.pool.specs.Asked.{holding, Supposed};
ghost use Rattle.pool.specs.declared.state.Loan.{Loan};
ghost use Rattle.desk.specs.declared.orders.Ask.TheVariants.{Borrow, View, Alter, Return, Flush};
ghost use Rattle.desk.specs.Reading.{hands_in};
ghost use Rattle.desk.specs.Serving.{Called, CalledBy, Answered, Same};

use crate::hands::{empty, loan_in, refill};
use crate::orders::{Ask, Hand, Lent, Reply};
use chains::Cell;
use keys::Key;
use pool::{Loan, Pool};
use records::Entry;
use std::alloc::{AllocError, Global};
use stores::Store;

// stays: pool, frame bytes, cells, store and hands are lent to each call apart, as they are to `serve`, whose caller may have no
// `Desk`. What is supposed of them is one name, `Supposed`, and no fact of a type, since no value has them all.

// Borrows a key; the loan goes into a new hand.
fn borrow<K: Key + Copy, S: Store<K>>(
    pool: &mut Pool,
    frames: &mut [u8],
    cells: &mut [Cell<Entry<K>>],
    store: &mut S,
    hands: &mut Vec<Option<Loan>>,
    key: K,
) -> Result<Reply<K>, AllocError>
    requires { Supposed K.Key.meaning (holding pool.old frames.old cells.old (S.Store.meant store.old)) }
    ensures { MatchResult result (λ r. Answered K.Key.meaning (to_borrow (K.Key.meaning key)) (Borrow key) (holding pool.old frames.old cells.old (S.Store.meant store.old)) hands.old.items r (holding pool.new frames.new cells.new (S.Store.meant store.new)) hands.new.items) (λ _. Same (holding pool.old frames.old cells.old (S.Store.meant store.old)) hands.old.items (holding pool.new frames.new cells.new (S.Store.meant store.new)) hands.new.items) }
{
    hands.reserve(1)?;
    match pool.borrow(frames, cells, store, key) {
        Ok((loan, report)) => {
            let lent = Lent {
                frame: loan.frame(),
                pool: loan.pool(),
                report,
            };
            hands.push_reserved(Some(loan));
            Ok(Reply::Lent(lent))
        }
        Err(fault) => Ok(Reply::Refused(fault)),
    }
}

// Views the page under the loan in a hand.
fn view<K: Key + Copy, S: Store<K>>(
    heap: Global,
    pool: &Pool,
    frames: &[u8],
    cells: &[Cell<Entry<K>>],
    store: &S,
    hands: &[Option<Loan>],
    hand: Hand,
) -> Result<Reply<K>, AllocError>
    requires { Supposed K.Key.meaning (holding pool.now frames.now cells.now (S.Store.meant store.now)) }
    ensures { IfOk result (λ r. CalledBy K.Key.meaning (desk.request_of (desk.ask_view hand.0) (hands_in hands.now)) (View hand) (holding pool.now frames.now cells.now (S.Store.meant store.now)) hands.now r (holding pool.now frames.now cells.now (S.Store.meant store.now)) hands.now) }
{
    let Some(loan) = loan_in(hands, hand) else {
        return Ok(Reply::NoLoan);
    };
    match pool.view(frames, cells, store, loan) {
        Ok(page) => Ok(Reply::Shown(page.to_vec(heap)?)),
        Err(fault) => Ok(Reply::Refused(fault)),
    }
}

// Alters the page under the loan in a hand.
// stays: `bytes` is a `&Vec`, since the clause names the ask that holds it.
fn alter<K: Key + Copy, S: Store<K>>(
    pool: &mut Pool,
    frames: &mut [u8],
    cells: &mut [Cell<Entry<K>>],
    store: &S,
    hands: &[Option<Loan>],
    hand: Hand,
    offset: usize,
    bytes: &Vec<u8>,
) -> Reply<K>
    requires { Supposed K.Key.meaning (holding pool.old frames.old cells.old (S.Store.meant store.now)) }
    ensures { CalledBy K.Key.meaning (desk.request_of (desk.ask_alter hand.0 offset bytes.now.items) (hands_in hands.now)) (Alter hand offset bytes.now) (holding pool.old frames.old cells.old (S.Store.meant store.now)) hands.now result (holding pool.new frames.new cells.new (S.Store.meant store.now)) hands.now }
{
    let Some(loan) = loan_in(hands, hand) else {
        return Reply::NoLoan;
    };
    match pool.alter(frames, cells, store, loan, offset, bytes.as_slice()) {
        Ok(()) => Reply::Done,
        Err(fault) => Reply::Refused(fault),
    }
}

// Returns the loan in a hand; if the return is refused, the loan stays in it.
fn give_back<K: Key + Copy, S: Store<K>>(
    pool: &mut Pool,
    frames: &[u8],
    cells: &mut [Cell<Entry<K>>],
    store: &S,
    hands: &mut Vec<Option<Loan>>,
    hand: Hand,
) -> Reply<K>
    requires { Supposed K.Key.meaning (holding pool.old frames.now cells.old (S.Store.meant store.now)) }
    ensures { CalledBy K.Key.meaning (desk.request_of (desk.ask_return hand.0) (hands_in hands.old.items)) (Return hand) (holding pool.old frames.now cells.old (S.Store.meant store.now)) hands.old.items result (holding pool.new frames.now cells.new (S.Store.meant store.now)) hands.new.items }
{
    let Some(loan) = empty(hands, hand) else {
        return Reply::NoLoan;
    };
    match pool.give_back(frames, cells, store, loan) {
        Ok(()) => Reply::Done,
        Err((fault, loan)) => {
            refill(hands, hand, loan);
            Reply::Refused(fault)
        }
    }
}

// Flushes, whatever is in the hands.
fn flush<K: Key + Copy, S: Store<K>>(
    pool: &mut Pool,
    frames: &[u8],
    cells: &mut [Cell<Entry<K>>],
    store: &mut S,
) -> Reply<K>
    requires { Supposed K.Key.meaning (holding pool.old frames.now cells.old (S.Store.meant store.old)) }
    ensures { (hands : List (Option Loan)) → Answered K.Key.meaning to_flush Flush (holding pool.old frames.now cells.old (S.Store.meant store.old)) hands result (holding pool.new frames.now cells.new (S.Store.meant store.new)) hands }
{
    match pool.flush(frames, cells, store) {
        Ok(written) => Reply::Wrote(written),
        Err(fault) => Reply::Refused(fault),
    }
}

// The call that is asked for, if the hand that it names has a loan.
pub(crate) fn call<K: Key + Copy, S: Store<K>>(
    heap: Global,
    pool: &mut Pool,
    frames: &mut [u8],
    cells: &mut [Cell<Entry<K>>],
    store: &mut S,
    hands: &mut Vec<Option<Loan>>,
    ask: &Ask<K>,
) -> Result<Reply<K>, AllocError>
    requires { Supposed K.Key.meaning (holding pool.old frames.old cells.old (S.Store.meant store.old)) }
    ensures { MatchResult result (λ r. Called K.Key.meaning ask.now (holding pool.old frames.old cells.old (S.Store.meant store.old)) hands.old.items r (holding pool.new frames.new cells.new (S.Store.meant store.new)) hands.new.items) (λ _. Same (holding pool.old frames.old cells.old (S.Store.meant store.old)) hands.old.items (holding pool.new frames.new cells.new (S.Store.meant store.new)) hands.new.items) }
{
    match ask {
        Ask::Borrow(key) => borrow(pool, frames, cells, store, hands, *key),
        Ask::View(hand) => view(heap, pool, frames, cells, store, hands.as_slice(), *hand),
        Ask::Alter {
            hand,
            offset,
            bytes,
        } => Ok(alter(
            pool,
            frames,
            cells,
            store,
            hands.as_slice(),
            *hand,
            *offset,
            bytes,
        )),
        Ask::Return(hand) => Ok(give_back(pool, frames, cells, store, hands, *hand)),
        Ask::Flush => Ok(flush(pool, frames, cells, store)),
    }
}
