// What every memory does. Code over any memory is proved from these clauses alone.
// Uses cells, limits and faults; the rules that the clauses cite stand in specs/Rules.antt.
ghost use Rattle.std.specs.Prelude.{◌≡◌, ℕ, ◌<◌, ◌≤◌, Bool, true, List, Result, length, IfOk};
ghost use Rattle.memory.specs.declared.cell.Cell.{Cell};
ghost use Rattle.memory.specs.declared.fault.MemoryFault.{MemoryFault};
ghost use Rattle.memory.specs.declared.limits.Limits.{Limits};
ghost use Rattle.memory.specs.Rules.{load_answer, fitting, fits_answer, admission, store_answer, store_after, cas_answer, cas_after};

use crate::cell::Cell;
use crate::fault::MemoryFault;
use crate::limits::Limits;
use value::ValueKind;

// A list of cells and three limits. Index and cells stay parameters of their own: each call is
// defined by them.
pub trait Memory<V: ValueKind> {
    // the cells
    ghost cells: { Self → List (Cell V) };

    // the greatest process number, tag and code
    ghost limits: { Self → Limits };

    // what a Store of a cell, answered so, makes of the memory before it, beyond its cells and limits: nothing more
    // is told where a memory does not say
    ghost store_leaves: { Self → ℕ → Cell V → Result (Unit {0}) MemoryFault → Self → Type 0 } = { λ _ _ _ _ _. Unit {0} };

    // what a CAS to a cell, answered so, makes of the memory before it, beyond its cells and limits, likewise
    ghost cas_leaves: { Self → ℕ → Cell V → Result Bool MemoryFault → Self → Type 0 } = { λ _ _ _ _ _. Unit {0} };

    // there are at most 65,535 cells
    ghost few: { (m : Self) → length (cells m) ≤ 65535 };

    // How many cells there are.
    fn len(&self) -> usize
        ensures { result ≡ length (cells self.now) };

    // The limits.
    fn limits(&self) -> Limits
        ensures { result ≡ limits self.now };

    // Cell i.
    fn load(&self, i: usize) -> Result<Cell<V>, MemoryFault>
        ensures { result ≡ load_answer (cells self.now) i };

    // Whether the cell could be stored. The test is the same for every memory.
    fn fits(&self, cell: &Cell<V>) -> Result<(), MemoryFault>
        ensures { result ≡ fits_answer V.coded (limits self.now) cell.now }
    {
        self.limits().admit_cell(0, cell)
    }

    // Refuses as a change of cell i to this cell would, and changes nothing.
    fn admit(&self, i: usize, cell: &Cell<V>) -> Result<(), MemoryFault>
        ensures answer { result ≡ admission V.coded (limits self.now) (length (cells self.now)) i cell.now }
        ensures passed { IfOk result (λ _. (i < length (cells self.now)) × (fitting V.coded (limits self.now) cell.now ≡ true)) }
    {
        self.limits().admit_change(self.len(), i, cell)
    }

    // Makes cell i the given cell.
    fn store(&mut self, i: usize, cell: &Cell<V>) -> Result<(), MemoryFault>
        ensures answer { result ≡ store_answer V.coded (limits self.old) (cells self.old) i cell.now }
        ensures after { cells self.new ≡ store_after V.coded (limits self.old) (cells self.old) i cell.now }
        ensures kept { limits self.new ≡ limits self.old }
        ensures beyond { store_leaves self.old i cell.now result self.new };

    // Makes cell i the new cell and says yes if cell i is the same as the old cell, else says no.
    fn cas(&mut self, i: usize, old: &Cell<V>, new: &Cell<V>) -> Result<bool, MemoryFault>
        ensures answer { result ≡ cas_answer V.coded (limits self.old) (cells self.old) i old.now new.now }
        ensures after { cells self.new ≡ cas_after V.coded (limits self.old) (cells self.old) i old.now new.now }
        ensures kept { limits self.new ≡ limits self.old }
        ensures beyond { cas_leaves self.old i new.now result self.new };
}
