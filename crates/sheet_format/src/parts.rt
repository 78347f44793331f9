// What a run sheet says, as types. What the types cannot say, no sheet holds: a code that an operation
// does not use, a missing new value, a script byte of no meaning.

// A location that a KCSS names, with the value that it expects there.
#[derive(Clone, Copy, Debug, PartialEq, Eq)]
pub struct Operand<V> {
    pub location: u16,
    pub expected: V,
}

// What an operation is to do. A KCSS sets the location of its first operand.
#[derive(Debug, PartialEq, Eq, Drop)]
pub enum Action<V> {
    Read(u16),
    Ll(u16),
    Sc { location: u16, new: V },
    Snapshot(Vec<u16>),
    Kcss { new: V, operands: Vec<Operand<V>> },
}

// An operation, and the process that is to carry it out.
#[derive(Debug, PartialEq, Eq, Drop)]
pub struct Operation<V> {
    pub process: u8,
    pub action: Action<V>,
}

// One item of the schedule: start the next operation, or step a process. Both are things to do, so it is no Option of
// a process.
#[derive(Clone, Copy, Debug, PartialEq, Eq)]
pub enum ScriptItem {
    Start,
    Step(u8),
}

// A sheet has at most so many operations.
pub const MOST_OPERATIONS: usize = 4096;

// A whole run sheet: a value for each location, how many processes, the operations in the order in which
// they are started, and the schedule.
#[derive(Debug, PartialEq, Eq, Drop)]
pub struct Sheet<V> {
    pub initial: Vec<V>,
    pub processes: u16,
    pub operations: Vec<Operation<V>>,
    pub script: Vec<ScriptItem>,
}
