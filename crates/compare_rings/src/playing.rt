//! One game: a run of calls on both models.

ghost use Rattle.std.specs.Prelude.{◌≡◌, ◌*◌, ◌≤◌, length};
ghost use Rattle.ring.specs.Model.{CanBorrow};

use crate::tally::{Random, Tally};
use chains::Cell;
use keys::{DeliveryKey, FrameNo, Key, PageNo};
use plain::Plain;
use records::{Entry, Granted};
use ring::{Ring, by_key};
use std::alloc::{AllocError, Global};

const CALLS: u32 = 3000;

// A kind of key with a key for each number.
pub(crate) trait Named: Key + Copy + PartialEq {
    fn numbered(n: u32) -> Self;
}

impl Named for PageNo {
    fn numbered(n: u32) -> PageNo {
        PageNo(n)
    }
}

impl Named for DeliveryKey {
    fn numbered(n: u32) -> DeliveryKey {
        DeliveryKey::new((n % 3) as u16, n / 3)
    }
}

// A key of those that are borrowed often, or of three times as many.
fn choose<K: Named>(random: &mut Random, m: u32) -> K {
    let often = random.below(2) == 0;
    let n = if often { m } else { m.saturating_mul(3) };
    K::numbered(random.below(n))
}

// The two models, of m frames each, with the loans that are kept and what was counted. The ring's cells are lent to each call.
#[derive(Drop)]
struct Game<K> {
    ring: Ring,
    m: u32,
    plain: Plain<K>,
    random: Random,
    kept: Vec<FrameNo>,
    tally: Tally,
}

impl<K: Named> Game<K> {
    // Borrows a key on both; the frame, where both grant it.
    fn borrow(&mut self, cells: &mut [Cell<Entry<K>>], key: K) -> Option<FrameNo>
        requires { CanBorrow K.Key.meaning self.old.m cells.old self.old.ring }
        ensures { CanBorrow K.Key.meaning self.new.m cells.new self.new.ring }
    {
        let a = self.ring.borrow_over(cells, self.m, key).map(|g| Granted {
            frame: g.frame,
            report: by_key(g.report),
        });
        let b = self.plain.borrow(key);
        self.tally.answers(a, b)
    }

    // Returns a loan on both.
    fn give_back(&mut self, cells: &mut [Cell<Entry<K>>], frame: FrameNo)
        requires { CanBorrow K.Key.meaning self.old.m cells.old self.old.ring }
        ensures { CanBorrow K.Key.meaning self.new.m cells.new self.new.ring }
    {
        let a = self.ring.give_back(cells, frame);
        let b = self.plain.give_back(frame);
        self.tally.same(a == b);
    }

    // One turn: a kept loan is returned; or a key is borrowed, and its loan is returned unless it is kept.
    fn turn(&mut self, cells: &mut [Cell<Entry<K>>]) -> Result<(), AllocError>
        requires { CanBorrow K.Key.meaning self.old.m cells.old self.old.ring }
        ensures { CanBorrow K.Key.meaning self.new.m cells.new self.new.ring }
    {
        if self.random.below(8) < 2 {
            if let Some(frame) = self.kept.pop() {
                self.give_back(cells, frame);
                return Ok(());
            }
        }
        let key = choose(&mut self.random, self.m);
        let keep = self.random.below(4) == 0;
        let Some(frame) = self.borrow(cells, key) else {
            return Ok(());
        };
        if keep {
            self.kept.push(frame)?;
        } else {
            self.give_back(cells, frame);
        }
        Ok(())
    }

    // Whether the whole ring is the plain list.
    fn agrees(&self, heap: Global, cells: &[Cell<Entry<K>>]) -> Result<bool, AllocError>
        requires { CanBorrow K.Key.meaning self.now.m cells.now self.now.ring }
    {
        let all = self.ring.list(heap, cells)?;
        Ok(all.as_slice() == self.plain.entries())
    }
}

// A game over the cells.
fn run<K: Named + Drop>(
    heap: Global,
    cells: &mut [Cell<Entry<K>>],
    m: u32,
    plain: Plain<K>,
) -> Result<Tally, AllocError>
    requires count { 2 ≤ m }
    requires frames { m ≤ 4096 }
    requires memory { length cells.old ≡ 2 * m }
{
    let ring = Ring::open(cells, m);
    let mut game = Game {
        ring,
        m,
        plain,
        random: Random(u64::from(m)),
        kept: Vec::new(heap),
        tally: Tally::default(),
    };
    for _ in 0..CALLS {
        game.turn(cells)?;
        let same = game.agrees(heap, cells)?;
        game.tally.same(same);
    }
    Ok(game.tally)
}

// A game with m frames.
pub(crate) fn play<K: Named + Drop>(heap: Global, m: u32) -> Result<Tally, AllocError> {
    let Ok(plain) = Plain::<K>::open(heap, m) else {
        let mut tally = Tally::default();
        tally.same(false);
        return Ok(tally);
    };
    let mut cells = vec![in heap; chains::blank(); 2 * m as usize]?;
    run(heap, cells.as_mut_slice(), m, plain)
}
