// The words of packed memory: 64 bits for a cell, and the cell of any 64 bits.
// Uses cells and the tests of limits.
ghost use Rattle.std.specs.Prelude.{◌≡◌};
ghost use Rattle.packed_memory.specs.Words.{packed, cell_of, LosesNothing};

use memory::{Cell, Limits, TaggedId};
use value::ValueKind;

// The cell that a word stands for. An even word whose code gives no value stands for id (0, 0).
pub fn unpack<V: ValueKind>(word: u64) -> Cell<V>
    ensures { result ≡ cell_of V.decoded word }
{
    if word % 2 == 1 {
        // `as` narrows, and is proved to lose nothing.
        return Cell::Id(TaggedId {
            process: (word % 65_536 / 2) as u16,
            tag: word / 65_536,
        });
    }
    match V::from_code(word / 2) {
        Some(value) => Cell::Value(value),
        None => Cell::Id(TaggedId { process: 0, tag: 0 }),
    }
}

// The word of a cell, if the cell fits.
pub fn pack<V: ValueKind>(cell: &Cell<V>) -> Option<u64>
    ensures answer { result ≡ packed V.coded V.GREATEST_CODE cell.now }
    ensures lossless { LosesNothing V.coded V.decoded V.GREATEST_CODE }
{
    if !Limits::open::<V>().fit(cell) {
        return None;
    }
    match cell {
        Cell::Value(value) => Some(2 * value.code()),
        Cell::Id(id) => Some(id.tag * 65_536 + u64::from(id.process) * 2 + 1),
    }
}
