// A memory that is lent: the same memory, behind a reference.
// Uses the value kinds and what every memory is.
#![tactic(auto)]

ghost use Rattle.std.specs.Prelude.{◌≡◌};

use memory::{Cell, Limits, Memory, MemoryFault};
use value::ValueKind;

// Lets a memory that stands on others stand on one that its owner gets back.
#[derive(Drop)]
pub struct Lent<'a, M> {
    pub memory: &'a mut M,
}

impl<'a, V: ValueKind, M: Memory<V>> Memory<V> for Lent<'a, M> {
    ghost cells = { λ m. M.Memory.cells m.memory.now };

    ghost limits = { λ m. M.Memory.limits m.memory.now };

    // It stays the memory that was lent, so its owner gets it back as the call left it.
    ghost store_leaves = { λ m i cell answer n. M.Memory.store_leaves m.memory.now i cell answer n.memory.now × (n.memory.ghost_name ≡ m.memory.ghost_name) };

    ghost cas_leaves = { λ m i cell answer n. M.Memory.cas_leaves m.memory.now i cell answer n.memory.now × (n.memory.ghost_name ≡ m.memory.ghost_name) };

    ghost few = { λ m. M.Memory.few m.memory.now };

    fn len(&self) -> usize {
        self.memory.len()
    }

    fn limits(&self) -> Limits {
        self.memory.limits()
    }

    fn load(&self, i: usize) -> Result<Cell<V>, MemoryFault> {
        self.memory.load(i)
    }

    fn store(&mut self, i: usize, cell: &Cell<V>) -> Result<(), MemoryFault> {
        self.memory.store(i, cell)
    }

    fn cas(&mut self, i: usize, old: &Cell<V>, new: &Cell<V>) -> Result<bool, MemoryFault> {
        self.memory.cas(i, old, new)
    }
}
