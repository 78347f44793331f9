// What the lines look at and ask for: an operation's operands, the place of an access, and what it found.
// Uses cells and tagged ids.
use memory::{Cell, TaggedId};

// An operand: its location, its expected value, two collected values and two ids. An operation's answers are
// the first collected values. The rules name these fields one by one, so the two collects are no array.
#[derive(Clone, Copy, Debug, PartialEq, Eq)]
pub struct Operand<V> {
    pub location: u16,
    pub expected: Option<V>,
    pub first: Option<V>,
    pub second: Option<V>,
    pub first_id: TaggedId,
    pub second_id: TaggedId,
}

// A shared cell: val or tid of a location, or the saved value of a process.
#[derive(Clone, Copy, Debug, PartialEq, Eq)]
pub enum Place {
    Val(u16),
    Tid(u16),
    Saved(u16),
}

// One access to shared memory.
#[derive(Clone, Copy, Debug, PartialEq, Eq)]
pub enum Access<V> {
    Load(Place),
    Store(Place, Cell<V>),
    Cas {
        place: Place,
        old: Cell<V>,
        new: Cell<V>,
    },
}

// What an access found: the cell that was loaded, or what a CAS said.
#[derive(Clone, Copy, Debug, PartialEq, Eq)]
pub enum Seen<V> {
    Found(Cell<V>),
    Stored,
    Said(bool),
}
