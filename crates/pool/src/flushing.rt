//! One frame of a flush.

ghost use Rattle.std.specs.Prelude.{◌≡◌, false, length, if◌then◌else◌};
ghost use Rattle.rows.specs.Rows.{Stands};
ghost use Rattle.machine.specs.Entry.{one};
ghost use Rattle.machine.specs.Borrow as rules;
ghost use Rattle.ring.specs.Model.{machine_of};
ghost use Rattle.stores.specs.Parts.{part_of};
ghost use Rattle.promise.specs.Serves.{sent_out};
ghost use Rattle.pool.specs.Moving.{HasPart, TakesFrom};

use crate::moving::write_page;
use crate::state::Pool;
use chains::Cell;
use keys::{FrameNo, Key};
use records::Entry;
use stores::Store;

impl Pool {
    // Writes the page in a frame to the store if it was altered, and clears the mark. The answer is how many pages it wrote.
    pub(crate) fn flush_frame<K: Key + Copy, S: Store<K>>(
        &mut self,
        frames: &[u8],
        cells: &mut [Cell<Entry<K>>],
        store: &mut S,
        frame: FrameNo,
    ) -> u32
        requires part { HasPart (S.Store.meant store.old).size frame.0 (length frames.now) }
        requires stands { Stands cells.old self.old.ring.table }
        requires takes { TakesFrom (rules.occupant frame.0 (machine_of K.Key.meaning cells.old self.old.ring)) (S.Store.meant store.old) }
        ensures stands { Stands cells.new self.new.ring.table }
        ensures written { result ≡ one (rules.altered_at (rules.occupant frame.0 (machine_of K.Key.meaning cells.old self.old.ring))) }
        ensures marks { machine_of K.Key.meaning cells.new self.new.ring ≡ (if rules.altered_at (rules.occupant frame.0 (machine_of K.Key.meaning cells.old self.old.ring)) then rules.mark_page frame.0 false (machine_of K.Key.meaning cells.old self.old.ring) else machine_of K.Key.meaning cells.old self.old.ring) }
        ensures store { S.Store.meant store.new ≡ sent_out (part_of (S.Store.meant store.old).size frames.now frame.0) (rules.occupant frame.0 (machine_of K.Key.meaning cells.old self.old.ring)) (S.Store.meant store.old) }
        ensures number { self.new.number ≡ self.old.number }
        ensures count { self.new.frames ≡ self.old.frames }
    {
        let Some(
            Entry {
                key,
                altered: true,
                ..
            },
        ) = self.ring.occupant(cells, frame)
        else {
            return 0;
        };
        write_page(frames, store, frame, &key);
        self.ring.mark_page(cells, frame, false);
        1
    }
}
