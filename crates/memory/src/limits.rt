// The limits of a memory, and the tests that each call makes before it acts.
// Uses cells and faults.
ghost use Rattle.std.specs.Prelude.{◌≡◌, min};
ghost use Rattle.memory.specs.Rules.{fitting, smaller_limits, open_limits, admission, fitness};

use crate::cell::Cell;
use crate::fault::MemoryFault;
use value::ValueKind;

// The most cells that a memory has.
const MOST_CELLS: usize = 65_535;

// The greatest process number of open and packed memory.
const GREATEST_PROCESS: u16 = 32_767;

// The greatest tag of open and packed memory, 2^48 - 1.
const GREATEST_TAG: u64 = 0xffff_ffff_ffff;

// The greatest process number, tag and code.
#[derive(Clone, Copy, Debug, PartialEq, Eq)]
pub struct Limits {
    pub process: u16,
    pub tag: u64,
    pub code: u64,
}

impl Limits {
    // The limits of open and packed memory.
    pub fn open<V: ValueKind>() -> Limits
        ensures { result ≡ open_limits V.GREATEST_CODE }
    {
        Limits {
            process: GREATEST_PROCESS,
            tag: GREATEST_TAG,
            code: V::GREATEST_CODE,
        }
    }

    // Each limit the smaller of the two.
    pub fn smaller(self, other: Limits) -> Limits
        ensures { result ≡ smaller_limits self other }
    {
        Limits {
            process: self.process.min(other.process),
            tag: self.tag.min(other.tag),
            code: self.code.min(other.code),
        }
    }

    // Whether the cell passes none of the limits.
    pub fn fit<V: ValueKind>(self, cell: &Cell<V>) -> bool
        ensures { result ≡ fitting V.coded self cell.now }
    {
        match cell {
            Cell::Value(value) => value.code() <= self.code,
            Cell::Id(id) => id.process <= self.process && id.tag <= self.tag,
        }
    }

    // Refuses a cell that does not fit, naming the place.
    pub(crate) fn admit_cell<V: ValueKind>(
        self,
        place: usize,
        cell: &Cell<V>,
    ) -> Result<(), MemoryFault>
        ensures { result ≡ fitness V.coded self place cell.now }
    {
        if !self.fit(cell) {
            return Err(MemoryFault::unfit(place));
        }
        Ok(())
    }

    // Refuses an index that is not below the count, then a cell that does not fit: the tests before a change.
    pub fn admit_change<V: ValueKind>(
        self,
        count: usize,
        i: usize,
        cell: &Cell<V>,
    ) -> Result<(), MemoryFault>
        ensures { result ≡ admission V.coded self count i cell.now }
    {
        if i >= count {
            return Err(MemoryFault::no_cell(i));
        }
        self.admit_cell(i, cell)
    }
}

// How many cells a table of this length counts for.
pub fn counted_cells(table: usize) -> usize
    ensures { result ≡ min 65535 table }
{
    table.min(MOST_CELLS)
}
