// What the tests share: cells to store, and the calls of a memory with a refusal told by its three numbers.
// Uses the value kinds and the memories.
use memory::{Cell, Memory, MemoryFault, TaggedId, same_cell};
use value::{Link, Node, Number, ValueKind};

// The layer, number and place of a refusal: the tests look at the numbers themselves.
pub type Refusal = (u8, u8, usize);

fn numbers(fault: MemoryFault) -> Refusal {
    (fault.layer(), fault.number(), fault.place())
}

pub fn store<V: ValueKind, M: Memory<V>>(
    memory: &mut M,
    i: usize,
    cell: &Cell<V>,
) -> Result<(), Refusal> {
    memory.store(i, cell).map_err(numbers)
}

pub fn cas<V: ValueKind, M: Memory<V>>(
    memory: &mut M,
    i: usize,
    old: &Cell<V>,
    new: &Cell<V>,
) -> Result<bool, Refusal> {
    memory.cas(i, old, new).map_err(numbers)
}

pub fn fits<V: ValueKind, M: Memory<V>>(memory: &M, cell: &Cell<V>) -> Result<(), Refusal> {
    memory.fits(cell).map_err(numbers)
}

// Whether a Load of i finds the cell.
pub fn holds<V: ValueKind, M: Memory<V>>(
    memory: &M,
    i: usize,
    cell: &Cell<V>,
) -> Result<bool, Refusal> {
    memory
        .load(i)
        .map(|found| same_cell(&found, cell))
        .map_err(numbers)
}

pub fn number(value: u32) -> Cell<Number> {
    Cell::Value(Number {
        value: u64::from(value),
    })
}

pub fn numbered(process: u16, tag: u64) -> Cell<Number> {
    Cell::Id(TaggedId { process, tag })
}

// The same id in a memory of links: two functions, so that a test says which.
pub fn linked(process: u16, tag: u64) -> Cell<Link> {
    Cell::Id(TaggedId { process, tag })
}

// A link to the last node, marked as deleted: the greatest code.
pub fn last_link() -> Cell<Link> {
    Cell::Value(Link::To(Node {
        number: 65_535,
        deleted: true,
    }))
}
