// Cells, what a memory is made of, and when two of them are the same.
// Uses the value kinds.
ghost use Rattle.std.specs.Prelude.{◌≡◌, Decides};
ghost use Rattle.memory.specs.Cells.{same};

use value::ValueKind;

// A process number and a tag.
#[derive(Clone, Copy, Debug, PartialEq, Eq)]
pub struct TaggedId {
    pub process: u16,
    pub tag: u64,
}

// A value or a tagged id. Neither of the two is a failure, so it is no Result, and the rules name both.
#[derive(Clone, Copy, Debug, PartialEq, Eq)]
pub enum Cell<V> {
    Value(V),
    Id(TaggedId),
}

// Whether both cells hold the same value, or ids with equal numbers. Not `==`: a kind need not have it.
pub fn same_cell<V: ValueKind>(a: &Cell<V>, b: &Cell<V>) -> bool
    ensures test { result ≡ same V.coded a.now b.now }
    ensures decides { Decides result (a.now ≡ b.now) }
{
    match (a, b) {
        (Cell::Value(x), Cell::Value(y)) => x.same(y),
        (Cell::Id(x), Cell::Id(y)) => x == y,
        _ => false,
    }
}
