// Open memory: cells in a table that the caller lends.
// Uses the value kinds and what every memory is.
#![tactic(auto)]

ghost use Rattle.std.specs.Prelude.{◌≡◌};
ghost use Rattle.memory.specs.Rules.{first_cells, first_few, open_limits, table_stored, table_swapped};

use memory::{Cell, Limits, Memory, MemoryFault, counted_cells, same_cell};
use value::ValueKind;

// A table of cells, of which the first 65,535 count.
#[derive(Drop)]
pub struct OpenMemory<'a, V> {
    pub cells: &'a mut [Cell<V>],
}

impl<'a, V: ValueKind> Memory<V> for OpenMemory<'a, V> {
    ghost cells = { λ m. first_cells m.cells.now };

    ghost limits = { λ m. open_limits V.GREATEST_CODE };

    // No other cell of the table changes, be it past the first 65,535, and the caller's table is the one that changes.
    ghost store_leaves = { λ m i cell answer n. (n.cells.now ≡ table_stored answer m.cells.now i cell) × (n.cells.ghost_name ≡ m.cells.ghost_name) };

    ghost cas_leaves = { λ m i cell answer n. (n.cells.now ≡ table_swapped answer m.cells.now i cell) × (n.cells.ghost_name ≡ m.cells.ghost_name) };

    ghost few = { λ m. first_few m.cells.now };

    fn len(&self) -> usize {
        counted_cells(self.cells.len())
    }

    fn limits(&self) -> Limits {
        Limits::open::<V>()
    }

    fn load(&self, i: usize) -> Result<Cell<V>, MemoryFault> {
        if i >= self.len() {
            return Err(MemoryFault::no_cell(i));
        }
        Ok(self.cells[i])
    }

    fn store(&mut self, i: usize, cell: &Cell<V>) -> Result<(), MemoryFault> {
        self.admit(i, cell)?;
        self.cells[i] = *cell;
        Ok(())
    }

    fn cas(&mut self, i: usize, old: &Cell<V>, new: &Cell<V>) -> Result<bool, MemoryFault> {
        self.admit(i, new)?;
        let found = self.cells[i];
        if !same_cell(&found, old) {
            return Ok(false);
        }
        self.cells[i] = *new;
        Ok(true)
    }
}
