// The faults of memories: why a memory refuses, and where.
// Uses nothing but the standard library.
ghost use Rattle.std.specs.Prelude.{◌≡◌, Some};
ghost use Rattle.memory.specs.Faults.{memory_layer, refusal_number, refusal_words, fault_line, no_cell, unfit};

use std::error::Error;
use std::fmt;

// The layer of memories.
const MEMORY_LAYER: u8 = 1;

// Why a memory refuses. The rules give each refusal the number by which it is told.
#[derive(Clone, Copy, Debug, PartialEq, Eq)]
pub enum MemoryRefusal {
    // The memory has no such cell.
    NoCell = 1,
    // The cell does not fit the memory's limits.
    Unfit = 2,
}

// The number of a refusal, which `as` takes from the enum.
impl From<MemoryRefusal> for u8 {
    ghost from_gives = { λ refusal number. number ≡ refusal_number refusal };

    fn from(refusal: MemoryRefusal) -> u8 {
        refusal as u8
    }
}

impl fmt::Display for MemoryRefusal {
    ghost output = { λ refusal. Some (refusal_words refusal) };

    fn fmt<W: fmt::Write>(&self, f: &mut fmt::Formatter<W>) -> fmt::Result {
        f.write_str(match self {
            MemoryRefusal::NoCell => "the memory has no such cell",
            MemoryRefusal::Unfit => "the cell does not fit the memory's limits",
        })
    }
}

// A refusal and its place: the index of the cell, or 0. The rules give each layer a fault type of its own, so this one and
// that of run sheets are two, alike but for their refusals and their layer.
#[derive(Clone, Copy, Debug, PartialEq, Eq)]
pub struct MemoryFault {
    pub refusal: MemoryRefusal,
    pub place: usize,
}

impl MemoryFault {
    // There is no cell i. Two constructors and no refusal as a parameter: clauses and rules name the two apart.
    pub fn no_cell(i: usize) -> MemoryFault
        ensures { result ≡ no_cell i }
    {
        MemoryFault {
            refusal: MemoryRefusal::NoCell,
            place: i,
        }
    }

    // The cell for place i does not fit.
    pub fn unfit(i: usize) -> MemoryFault
        ensures { result ≡ unfit i }
    {
        MemoryFault {
            refusal: MemoryRefusal::Unfit,
            place: i,
        }
    }

    // The layer that refuses, by the number that the rules give it.
    pub fn layer(&self) -> u8
        ensures { result ≡ memory_layer }
    {
        MEMORY_LAYER
    }

    // The number of the refusal.
    pub fn number(&self) -> u8
        ensures { result ≡ refusal_number self.now.refusal }
    {
        self.refusal.into()
    }

    // Where the refusal was met.
    pub fn place(&self) -> usize
        ensures { result ≡ self.now.place }
    {
        self.place
    }
}

impl fmt::Display for MemoryFault {
    ghost output = { λ fault. Some (fault_line fault) };

    fn fmt<W: fmt::Write>(&self, f: &mut fmt::Formatter<W>) -> fmt::Result {
        let Self { refusal, place } = *self;
        let layer = self.layer();
        let number = self.number();
        write!(
            f,
            "layer {layer}, number {number}, place {place}: {refusal}"
        )
    }
}

impl Error for MemoryFault {}
