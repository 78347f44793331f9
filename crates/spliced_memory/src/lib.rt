// Spliced memory: one memory's cells followed by another's.
// Uses the value kinds and what every memory is. It makes every test itself, so neither memory below refuses.
#![tactic(auto)]

ghost use Rattle.std.specs.Prelude.{◌≡◌};
ghost use Rattle.spliced_memory.specs.Joined.{joined, joined_limits, SidesKept};
ghost use Rattle.memory.specs.Rules.{first_cells, first_few, table_stored, table_swapped};

use memory::{Cell, Limits, Memory, MemoryFault, counted_cells};
use value::ValueKind;

// The cells of `front`, then those of `back`; the first 65,535 count. Each limit is the smaller of the two.
#[derive(Drop)]
pub struct Spliced<A, B> {
    pub front: A,
    pub back: B,
}

impl<V: ValueKind, A: Memory<V>, B: Memory<V>> Memory<V> for Spliced<A, B> {
    ghost cells = { λ m. first_cells (joined A.Memory.cells B.Memory.cells m) };

    ghost limits = { λ m. joined_limits A.Memory.limits B.Memory.limits m };

    // No other cell of the two memories changes, be it past the first 65,535, and each keeps its length and its limits.
    ghost store_leaves = { λ m i cell answer n. (joined A.Memory.cells B.Memory.cells n ≡ table_stored answer (joined A.Memory.cells B.Memory.cells m) i cell) × SidesKept A.Memory.cells A.Memory.limits B.Memory.limits m n };

    ghost cas_leaves = { λ m i cell answer n. (joined A.Memory.cells B.Memory.cells n ≡ table_swapped answer (joined A.Memory.cells B.Memory.cells m) i cell) × SidesKept A.Memory.cells A.Memory.limits B.Memory.limits m n };

    ghost few = { λ m. first_few (joined A.Memory.cells B.Memory.cells m) };

    fn len(&self) -> usize {
        counted_cells(self.front.len() + self.back.len())
    }

    fn limits(&self) -> Limits {
        self.front.limits().smaller(self.back.limits())
    }

    fn load(&self, i: usize) -> Result<Cell<V>, MemoryFault> {
        if i >= self.len() {
            return Err(MemoryFault::no_cell(i));
        }
        let split = self.front.len();
        if i < split {
            self.front.load(i)
        } else {
            self.back.load(i - split)
        }
    }

    fn store(&mut self, i: usize, cell: &Cell<V>) -> Result<(), MemoryFault> {
        self.admit(i, cell)?;
        let split = self.front.len();
        if i < split {
            self.front.store(i, cell)
        } else {
            self.back.store(i - split, cell)
        }
    }

    fn cas(&mut self, i: usize, old: &Cell<V>, new: &Cell<V>) -> Result<bool, MemoryFault> {
        self.admit(i, new)?;
        let split = self.front.len();
        if i < split {
            self.front.cas(i, old, new)
        } else {
            self.back.cas(i - split, old, new)
        }
    }
}
