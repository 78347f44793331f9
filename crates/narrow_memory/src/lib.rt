// Narrow memory: the cells of the memory below, under limits of its own.
// Uses the value kinds and what every memory is. It makes every test itself, so the memory below never refuses.
#![tactic(auto)]

ghost use Rattle.std.specs.Prelude.{◌≡◌};
ghost use Rattle.memory.specs.Rules.{smaller_limits};

use memory::{Cell, Limits, Memory, MemoryFault};
use value::ValueKind;

// Each limit is the smaller of `own` and of that of `below`.
#[derive(Drop)]
pub struct Narrow<M> {
    pub below: M,
    pub own: Limits,
}

impl<V: ValueKind, M: Memory<V>> Memory<V> for Narrow<M> {
    ghost cells = { λ m. M.Memory.cells m.below };

    ghost limits = { λ m. smaller_limits (M.Memory.limits m.below) m.own };

    // The limits of its own stay, and so do those of the memory below.
    ghost store_leaves = { λ m i cell answer n. (n.own ≡ m.own) × (M.Memory.limits n.below ≡ M.Memory.limits m.below) };

    ghost cas_leaves = { λ m i cell answer n. (n.own ≡ m.own) × (M.Memory.limits n.below ≡ M.Memory.limits m.below) };

    ghost few = { λ m. M.Memory.few m.below };

    fn len(&self) -> usize {
        self.below.len()
    }

    fn limits(&self) -> Limits {
        self.below.limits().smaller(self.own)
    }

    fn load(&self, i: usize) -> Result<Cell<V>, MemoryFault> {
        self.below.load(i)
    }

    fn store(&mut self, i: usize, cell: &Cell<V>) -> Result<(), MemoryFault> {
        self.admit(i, cell)?;
        self.below.store(i, cell)
    }

    fn cas(&mut self, i: usize, old: &Cell<V>, new: &Cell<V>) -> Result<bool, MemoryFault> {
        self.admit(i, new)?;
        self.below.cas(i, old, new)
    }
}
