//! A simulator, with what holds of it between calls.

ghost use Rattle.std.specs.Prelude.{◌*◌, ◌≤◌, [], None, vec_capacity};
ghost use Rattle.machine.specs.Facts.{Mid};
ghost use Rattle.plain.specs.Hands.{machine_of};

use crate::hands::State;

/// A simulator: its state. The machine's facts about marks, frames and numbers hold of every simulator; they do not ask
/// what the keys are, so each key stands for nothing in them.
#[derive(Drop)]
pub struct Plain<K> {
    pub(crate) state: State<K>,
    ghost few: { state.frames ≤ 4096 },
    ghost memory: { 2 * state.frames ≤ vec_capacity state.ring },
    ghost facts: { ∥ Mid state.frames None (machine_of (λ _. []) state) ∥₁ },
}
