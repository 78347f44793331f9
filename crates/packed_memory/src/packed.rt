// Packed memory: cells kept as 64-bit words in a table that the caller lends.
// Uses the interface and the words of cells. Cells are compared, never words.
ghost use Rattle.std.specs.Prelude.{◌≡◌, map};
ghost use Rattle.memory.specs.Rules.{first_few, open_limits, table_stored, table_swapped};
ghost use Rattle.packed_memory.specs.Words.{word_of, cell_of, cells_of};

use crate::words::{pack, unpack};
use memory::{Cell, Limits, Memory, MemoryFault, counted_cells, same_cell};
use std::marker::PhantomData;
use value::ValueKind;

// A table of words, of which the first 65,535 count, and the kind of the values that they stand for. The calls compare an
// index with the table's length and not with `len`, which speaks of cells: so it is known to be one of the table. Store and
// CAS write out the two tests, since only the second tells the word.
#[derive(Drop)]
pub struct PackedMemory<'a, V> {
    pub words: &'a mut [u64],
    pub kind: PhantomData<V>,
}

impl<'a, V: ValueKind> Memory<V> for PackedMemory<'a, V> {
    ghost cells = { λ m. cells_of V.decoded m.words.now };

    ghost limits = { λ m. open_limits V.GREATEST_CODE };

    // Exactly one word is written, the word of the cell, and it is one of the caller's table.
    ghost store_leaves = { λ m i cell answer n. (n.words.now ≡ table_stored answer m.words.now i (word_of V.coded cell)) × (n.words.ghost_name ≡ m.words.ghost_name) };

    // A yes writes exactly one word of the caller's table, and nothing else changes any.
    ghost cas_leaves = { λ m i cell answer n. (n.words.now ≡ table_swapped answer m.words.now i (word_of V.coded cell)) × (n.words.ghost_name ≡ m.words.ghost_name) };

    ghost few = { λ m. first_few (map (cell_of V.decoded) m.words.now) };

    fn len(&self) -> usize {
        counted_cells(self.words.len())
    }

    fn limits(&self) -> Limits {
        Limits::open::<V>()
    }

    fn load(&self, i: usize) -> Result<Cell<V>, MemoryFault> {
        if i >= counted_cells(self.words.len()) {
            return Err(MemoryFault::no_cell(i));
        }
        Ok(unpack(self.words[i]))
    }

    fn store(&mut self, i: usize, cell: &Cell<V>) -> Result<(), MemoryFault> {
        if i >= counted_cells(self.words.len()) {
            return Err(MemoryFault::no_cell(i));
        }
        let Some(word) = pack(cell) else {
            return Err(MemoryFault::unfit(i));
        };
        self.words[i] = word;
        Ok(())
    }

    fn cas(&mut self, i: usize, old: &Cell<V>, new: &Cell<V>) -> Result<bool, MemoryFault> {
        if i >= counted_cells(self.words.len()) {
            return Err(MemoryFault::no_cell(i));
        }
        let Some(new_word) = pack(new) else {
            return Err(MemoryFault::unfit(i));
        };
        let found: Cell<V> = unpack(self.words[i]);
        let same = same_cell(&found, old);
        if !same {
            return Ok(false);
        }
        self.words[i] = new_word;
        Ok(true)
    }
}
