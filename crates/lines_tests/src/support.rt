// What the tests share: two ids, values, operands that were collected, and how a process goes on.
// Uses the value kinds, tagged ids and what the lines speak of.
use lines::{Operand, Phase, Turn};
use memory::TaggedId;
use value::{Link, Node, Number, ValueKind};

// The process that makes the lines, and one that it meets.
pub const OWN: TaggedId = TaggedId { process: 0, tag: 3 };

pub const OTHER: TaggedId = TaggedId { process: 2, tag: 7 };

pub fn number(value: u32) -> Number {
    Number {
        value: u64::from(value),
    }
}

// A link to node 3, marked as deleted or not.
pub fn link(deleted: bool) -> Link {
    Link::To(Node { number: 3, deleted })
}

// An operand of which nothing is recorded.
pub fn fresh<V: ValueKind>(location: u16) -> Operand<V> {
    Operand {
        location,
        expected: None,
        first: None,
        second: None,
        first_id: OWN,
        second_id: OWN,
    }
}

// An operand that both collects found the same.
pub fn collected<V: ValueKind>(location: u16, value: V) -> Operand<V> {
    Operand {
        first: Some(value),
        second: Some(value),
        ..fresh(location)
    }
}

// On to a phase, by a step that can be no effect step.
pub fn on<V: ValueKind>(phase: Phase<V>) -> Option<Turn<V>> {
    Some(Turn::On {
        phase,
        milestone: None,
    })
}
