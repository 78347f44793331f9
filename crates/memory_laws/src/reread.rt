// A change and the Load after it, over any memory. The contracts say what a change means in terms of Loads.
// Uses the interface.
ghost use Rattle.std.specs.Prelude.{◌≡◌};
ghost use Rattle.memory.specs.Rules.{cell_at, store_answer, store_after, cas_answer, cas_after};
ghost use Rattle.memory_laws.specs.Laws.{StoreLaw, CasLaw, stored_answer, swapped_answer};

use memory::{Cell, Memory, MemoryFault};
use value::ValueKind;

// Stores the cell and loads it again.
pub fn store_and_load<V: ValueKind, M: Memory<V>>(
    memory: &mut M,
    i: usize,
    cell: &Cell<V>,
) -> Result<Cell<V>, MemoryFault>
    ensures answer { result ≡ stored_answer (store_answer V.coded (M.limits memory.old) (M.cells memory.old) i cell.now) cell.now }
    ensures after { M.cells memory.new ≡ store_after V.coded (M.limits memory.old) (M.cells memory.old) i cell.now }
    ensures kept { M.limits memory.new ≡ M.limits memory.old }
    ensures law { StoreLaw result (M.cells memory.old) (M.cells memory.new) i cell.now }
{
    memory.store(i, cell)?;
    memory.load(i)
}

// Compares, perhaps swaps, and loads the cell: whether the swap was made, and what the cell then holds.
pub fn cas_and_load<V: ValueKind, M: Memory<V>>(
    memory: &mut M,
    i: usize,
    old: &Cell<V>,
    new: &Cell<V>,
) -> Result<(bool, Cell<V>), MemoryFault>
    ensures answer { result ≡ swapped_answer (cas_answer V.coded (M.limits memory.old) (M.cells memory.old) i old.now new.now) (cell_at (M.cells memory.old) i) new.now }
    ensures after { M.cells memory.new ≡ cas_after V.coded (M.limits memory.old) (M.cells memory.old) i old.now new.now }
    ensures kept { M.limits memory.new ≡ M.limits memory.old }
    ensures law { CasLaw result (M.cells memory.old) (M.cells memory.new) i old.now new.now }
{
    let swapped = memory.cas(i, old, new)?;
    let found = memory.load(i)?;
    Ok((swapped, found))
}
