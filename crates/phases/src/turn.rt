// What a line does to its operation and process, beside the access: what it records, and where it leads.
// Uses phases and tagged ids.
use crate::phase::{Phase, ReadPhase};
use memory::TaggedId;

// What a line records in the operand of this index: an id or a value, of the first or the second collect.
// It has a case for nothing, since a line that may not find what it found has no finding, and an Option in an
// Option would not say which none is which.
#[derive(Clone, Copy, Debug, PartialEq, Eq)]
pub enum Finding<V> {
    Nothing,
    FirstId(usize, TaggedId),
    First(usize, V),
    Second(usize, V),
    SecondId(usize, TaggedId),
}

// Which step may turn out to be the operation's effect step.
#[derive(Clone, Copy, Debug, PartialEq, Eq)]
pub enum Effect {
    // the step that ends the operation
    Here,
    // its last 8 that said yes
    AtMark,
    // the step that ended the first collect of its last attempt
    AtCollect,
}

// What an operation answers: the values that it collected, yes, or no.
#[derive(Clone, Copy, Debug, PartialEq, Eq)]
pub enum Answer {
    Values,
    Yes,
    No,
}

// What a step may be to its operation, if anything: an 8 that said yes, or the end of a first collect.
#[derive(Clone, Copy, Debug, PartialEq, Eq)]
pub enum Milestone {
    Marked,
    Collected,
}

// Where the process goes: on to another phase, or to the end of its operation. Both are a line's regular outcome, so
// it is no Result, and each has two fields, so it is no Option.
#[derive(Clone, Copy, Debug, PartialEq, Eq)]
pub enum Turn<V> {
    On {
        phase: Phase<V>,
        milestone: Option<Milestone>,
    },
    Ends {
        answer: Answer,
        effect: Effect,
    },
}

// Where a READ goes, or the value that ends it. Both are a line's regular outcome, so it is no Result.
#[derive(Clone, Copy, Debug, PartialEq, Eq)]
pub enum ReadTurn<V> {
    On(ReadPhase<V>),
    Got(V),
}
