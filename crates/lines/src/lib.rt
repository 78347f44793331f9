// The lines of the algorithm, one shared access each: what a process accesses next, and where it goes from
// what the access found. Nothing here touches a memory or a table.
// Uses value kinds, cells, the kinds of operations and the phases of processes.
#![tactic(auto)]

mod access;
mod compare;
mod moves;
mod suits;
mod task;

pub use moves::{finding_of, read_turn};
pub use phases::{
    Access, Answer, Effect, Finding, Line, Milestone, Operand, Phase, Place, ReadPhase, ReadTurn,
    Seen, Turn,
};
pub use task::Task;
