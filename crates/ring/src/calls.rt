//! What a pool does with a ring: finding a key and a frame's page, borrowing, returning a loan, and the altered mark.

ghost use Rattle.std.specs.Prelude.{◌≡◌, ℕ, ◌*◌, ◌<◌, ◌≤◌, true, false, List, length, if◌then◌else◌, Some, None, nat_lt};
ghost use Rattle.keys.specs.Same.{same_list};
ghost use Rattle.rows.specs.Rows.{Stands, rows_in, first_by};
ghost use Rattle.std.specs.List.{ContainsAt};
ghost use Rattle.machine.specs.Entry.{first, named, lies_in};
ghost use Rattle.machine.specs.Borrow as rules;
ghost use Rattle.machine.specs.Facts.{Mid, Well};
ghost use Rattle.records.specs.Reading.{found_of};
ghost use Rattle.ring.specs.Model.{machine_of, Sound, CanBorrow};
ghost use Rattle.ring.specs.Answering.{answer_of, Written};

use crate::Ring;
use crate::hands::Victim;
use chains::Cell;
use keys::{FrameNo, Key};
use records::{Entry, Granted, Outcome, Refusal, Report, Room, Steps, raise};
use rows::Row;

impl Ring {
    /// The entry of a key: what a search of the whole ring from the tail finds.
    pub fn find<K: Key + Copy>(&self, cells: &[Cell<Entry<K>>], key: &K) -> Option<Entry<K>>
        requires { Stands cells.now self.now.table }
        ensures { found_of K.Key.meaning result ≡ first (named (K.Key.meaning key.now)) (machine_of K.Key.meaning cells.now self.now).ring }
    {
        let row = self.table.find(cells, key)?;
        Some(row.entry)
    }

    /// The entry whose page lies in a frame, in constant time.
    pub fn occupant<K: Key + Copy>(
        &self,
        cells: &[Cell<Entry<K>>],
        frame: FrameNo,
    ) -> Option<Entry<K>>
        requires { Stands cells.now self.now.table }
        ensures { found_of K.Key.meaning result ≡ rules.occupant frame.0 (machine_of K.Key.meaning cells.now self.now) }
    {
        let row = self.table.by_frame(cells, frame)?;
        Some(row.entry)
    }

    /// The loans that a frame carries.
    pub fn loans_at<K: Key + Copy>(&self, cells: &[Cell<Entry<K>>], frame: FrameNo) -> u8
        requires { Stands cells.now self.now.table }
        ensures { result ≡ rules.carries frame.0 (machine_of K.Key.meaning cells.now self.now) }
    {
        self.occupant(cells, frame).map_or(0, |e| e.loans)
    }

    /// One loan less at a frame; the answer is whether it carried one.
    pub fn give_back<K: Key + Copy>(&mut self, cells: &mut [Cell<Entry<K>>], frame: FrameNo) -> bool
        requires { Stands cells.old self.old.table }
        ensures stands { Stands cells.new self.new.table }
        ensures carried { result ≡ nat_lt 0 (rules.carries frame.0 (machine_of K.Key.meaning cells.old self.old)) }
        ensures step { machine_of K.Key.meaning cells.new self.new ≡ rules.give_back frame.0 (machine_of K.Key.meaning cells.old self.old) }
        ensures facts { (m : ℕ) → Well m (machine_of K.Key.meaning cells.old self.old) → Well m (machine_of K.Key.meaning cells.new self.new) }
    {
        let Some(row) = self.table.by_frame(cells, frame) else {
            return false;
        };
        let e = row.entry;
        if e.loans == 0 {
            return false;
        }
        let loans = e.loans - 1;
        self.table.rewrite(cells, row, Entry { loans, ..e });
        true
    }

    /// Sets or clears the altered mark of the page in a frame.
    pub fn mark_page<K: Key + Copy>(
        &mut self,
        cells: &mut [Cell<Entry<K>>],
        frame: FrameNo,
        altered: bool,
    )
        requires { Stands cells.old self.old.table }
        ensures stands { Stands cells.new self.new.table }
        ensures step { machine_of K.Key.meaning cells.new self.new ≡ rules.mark_page frame.0 altered (machine_of K.Key.meaning cells.old self.old) }
        ensures facts { (m : ℕ) → Well m (machine_of K.Key.meaning cells.old self.old) → Well m (machine_of K.Key.meaning cells.new self.new) }
    {
        if let Some(row) = self.table.by_frame(cells, frame) {
            let e = row.entry;
            self.table.rewrite(cells, row, Entry { altered, ..e });
        }
    }

    /// B1: the entry of a resident key gets its bit set and one loan more. It keeps its place.
    fn touch<K: Key + Copy>(&mut self, cells: &mut [Cell<Entry<K>>], row: Row<K>)
        requires stands { Stands cells.old self.old.table }
        requires there { ContainsAt (rows_in cells.old self.old.table) row }
        requires loans { row.entry.loans < 255 }
        ensures stands { Stands cells.new self.new.table }
        ensures step { (k : List ℕ) → first_by (λ e. same_list k (K.Key.meaning e.key)) (rows_in cells.old self.old.table) ≡ Some row → machine_of K.Key.meaning cells.new self.new ≡ rules.hit k (machine_of K.Key.meaning cells.old self.old) }
    {
        let e = row.entry;
        let new = Entry {
            bit: true,
            loans: e.loans + 1,
            ..e
        };
        self.table.rewrite(cells, row, new);
    }

    /// B2: the entry of a remembered key is taken out, and the cold allocation is raised.
    fn take_out<K: Key + Copy>(&mut self, cells: &mut [Cell<Entry<K>>], m: u32, row: Row<K>)
        requires stands { Stands cells.old self.old.table }
        requires there { ContainsAt (rows_in cells.old self.old.table) row }
        ensures stands { Stands cells.new self.new.table }
        ensures step { (k : List ℕ) → first_by (λ e. same_list k (K.Key.meaning e.key)) (rows_in cells.old self.old.table) ≡ Some row → machine_of K.Key.meaning cells.new self.new ≡ rules.recalled m k (machine_of K.Key.meaning cells.old self.old) }
    {
        self.table.take_out(cells, row);
        self.cold = raise(m, self.cold);
    }

    /// B5: the new entry of a page that is read into a frame stands at the head, unaltered, its bit clear, with one loan.
    fn enter<K: Key + Copy>(
        &mut self,
        cells: &mut [Cell<Entry<K>>],
        key: K,
        hot: bool,
        frame: FrameNo,
    )
        requires stands { Stands cells.old self.old.table }
        requires room { length (machine_of K.Key.meaning cells.old self.old).ring < length cells.old }
        requires slot { frame.0 < length cells.old }
        requires vacant { first (lies_in frame.0) (machine_of K.Key.meaning cells.old self.old).ring ≡ None }
        ensures stands { Stands cells.new self.new.table }
        ensures step { machine_of K.Key.meaning cells.new self.new ≡ rules.enter (K.Key.meaning key) hot frame.0 (machine_of K.Key.meaning cells.old self.old) }
    {
        let new = Entry {
            key,
            hot,
            frame: Some(frame),
            test: !hot,
            bit: false,
            loans: 1,
            altered: false,
        };
        self.table.enter(cells, new);
    }

    /// 11: whether no frame is unused and every resident page has a loan.
    fn is_full<K: Key>(&self, cells: &[Cell<Entry<K>>], m: u32) -> bool
        requires { Stands cells.now self.now.table }
        ensures { rules.full m (machine_of K.Key.meaning cells.now self.now) ≡ (if result then Some 11 else None) }
    {
        m <= self.used && self.table.idle_count(cells) == 0
    }

    /// What a granted borrow answers: the frame, and what was done to have the page there. The cold allocation is the
    /// present one.
    fn granted<V: Copy>(&self, outcome: Outcome, room: Room<Option<V>>) -> Granted<V>
        ensures { result ≡ record { frame = room.frame; report = record { outcome = outcome; victim = room.victim; steps = room.steps; cold = self.now.cold } } }
    {
        Granted {
            frame: room.frame,
            report: Report {
                outcome,
                victim: room.victim,
                steps: room.steps,
                cold: self.cold,
            },
        }
    }

    /// B3: a key outside the list. The question for a frame, the frame, and the page enters cold with the test mark.
    fn cold_fault<K: Key + Copy>(
        &mut self,
        cells: &mut [Cell<Entry<K>>],
        m: u32,
        key: K,
    ) -> Result<Granted<Victim<K>>, Refusal>
        requires memory { 2 * m ≤ length cells.old }
        requires sound { Sound K.Key.meaning None m cells.old self.old }
        requires outside { first (named (K.Key.meaning key)) (machine_of K.Key.meaning cells.old self.old).ring ≡ None }
        ensures stands { Stands cells.new self.new.table }
        ensures borrowed { rules.Borrow m (K.Key.meaning key) (machine_of K.Key.meaning cells.old self.old) (answer_of K.Key.meaning result) (machine_of K.Key.meaning cells.new self.new) }
        ensures written { Written (machine_of K.Key.meaning cells.old self.old) result }
    {
        if self.is_full(cells, m) {
            return Err(Refusal::NoFrame);
        }
        let room = self.make_room(cells, m);
        self.enter(cells, key, false, room.frame);
        Ok(self.granted(Outcome::ColdFault, room))
    }

    /// B2: a remembered key. The question for a frame, the entry is taken out, the frame, the page enters hot, and a hot run.
    fn test_fault<K: Key + Copy>(
        &mut self,
        cells: &mut [Cell<Entry<K>>],
        m: u32,
        key: K,
        row: Row<K>,
    ) -> Result<Granted<Victim<K>>, Refusal>
        requires memory { 2 * m ≤ length cells.old }
        requires sound { Sound K.Key.meaning None m cells.old self.old }
        requires found { first_by (λ e. same_list (K.Key.meaning key) (K.Key.meaning e.key)) (rows_in cells.old self.old.table) ≡ Some row }
        requires away { row.entry.frame ≡ None }
        ensures stands { Stands cells.new self.new.table }
        ensures borrowed { rules.Borrow m (K.Key.meaning key) (machine_of K.Key.meaning cells.old self.old) (answer_of K.Key.meaning result) (machine_of K.Key.meaning cells.new self.new) }
        ensures written { Written (machine_of K.Key.meaning cells.old self.old) result }
    {
        if self.is_full(cells, m) {
            return Err(Refusal::NoFrame);
        }
        self.take_out(cells, m, row);
        let room = self.make_room(cells, m);
        self.enter(cells, key, true, room.frame);
        let hot = room.steps.hot + self.hot_run(cells, m);
        let steps = Steps { hot, ..room.steps };
        Ok(self.granted(Outcome::TestFault, Room { steps, ..room }))
    }

    /// A resident key: the question for one loan more, then the hit.
    fn hit<K: Key + Copy>(
        &mut self,
        cells: &mut [Cell<Entry<K>>],
        m: u32,
        key: K,
        row: Row<K>,
        frame: FrameNo,
    ) -> Result<Granted<Victim<K>>, Refusal>
        requires stands { Stands cells.old self.old.table }
        requires facts { Mid m None (machine_of K.Key.meaning cells.old self.old) }
        requires found { first_by (λ e. same_list (K.Key.meaning key) (K.Key.meaning e.key)) (rows_in cells.old self.old.table) ≡ Some row }
        requires here { row.entry.frame ≡ Some frame }
        ensures stands { Stands cells.new self.new.table }
        ensures borrowed { rules.Borrow m (K.Key.meaning key) (machine_of K.Key.meaning cells.old self.old) (answer_of K.Key.meaning result) (machine_of K.Key.meaning cells.new self.new) }
        ensures written { Written (machine_of K.Key.meaning cells.old self.old) result }
    {
        if row.entry.loans == 255 {
            return Err(Refusal::TooManyLoans);
        }
        self.touch(cells, row);
        let room = Room {
            frame,
            victim: None,
            steps: Steps::default(),
        };
        Ok(self.granted(Outcome::Hit, room))
    }

    /// Borrows a key: the questions in their order, then the hit or the fault.
    pub fn borrow<K: Key + Copy>(
        &mut self,
        cells: &mut [Cell<Entry<K>>],
        m: u32,
        key: K,
    ) -> Result<Granted<Victim<K>>, Refusal>
        requires { CanBorrow K.Key.meaning m cells.old self.old }
        ensures stands { Stands cells.new self.new.table }
        ensures borrowed { rules.Borrow m (K.Key.meaning key) (machine_of K.Key.meaning cells.old self.old) (answer_of K.Key.meaning result) (machine_of K.Key.meaning cells.new self.new) }
        ensures written { Written (machine_of K.Key.meaning cells.old self.old) result }
        ensures facts { Well m (machine_of K.Key.meaning cells.new self.new) }
    {
        let Some(row) = self.table.find(cells, &key) else {
            return self.cold_fault(cells, m, key);
        };
        match row.entry.frame {
            Some(frame) => self.hit(cells, m, key, row, frame),
            None => self.test_fault(cells, m, key, row),
        }
    }
}
