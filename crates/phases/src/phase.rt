// Where a process stands in its operation: which line it makes next, and what it keeps for it.
// Uses cells and tagged ids.
use memory::{Cell, TaggedId};

// Where a READ stands, alone or inside another operation.
#[derive(Clone, Copy, Debug, PartialEq, Eq)]
pub enum ReadPhase<V> {
    // 13: load val; a value ends the READ
    Look,
    // 1: load val again, and keep it
    LookAgain,
    // 3a: load the saved value of the kept id's process
    Fetch { kept: TaggedId },
    // 3b: CAS val from the kept id to that process's saved value
    Reset { kept: TaggedId, saved: V },
}

// Where a process stands. `operand` counts the operands of its operation from 0. The two collects and their ids have
// phases of their own, since each is a named line of the rules.
#[derive(Clone, Copy, Debug, PartialEq, Eq)]
pub enum Phase<V> {
    // no operation runs
    Idle,
    // a READ
    Reading(ReadPhase<V>),
    // the first 13 of a fresh attempt of an LL, alone or of a KCSS; the tag is raised before it
    Attempt,
    // the rest of the READ of that attempt
    Linking(ReadPhase<V>),
    // 7: store the value that was read as own saved value
    Save { kept: Cell<V> },
    // 8: CAS val from that value to own id
    Mark { kept: Cell<V> },
    // 9: store own id in tid
    Note { kept: Cell<V> },
    // S6: load the tid of each operand in turn
    FirstId { operand: usize },
    // READ each operand in turn
    FirstCollect { operand: usize, read: ReadPhase<V> },
    // READ each operand in turn once more
    SecondCollect { operand: usize, read: ReadPhase<V> },
    // S9: load the tid of each operand again, and compare after the last
    SecondId { operand: usize },
    // 11: CAS val from own id, of an SC or a KCSS
    Swap,
}
