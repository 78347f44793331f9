// Where a process stands in its operation, and what a line asks for, finds, records and leads to: types alone, and
// the names of the lines.
// Uses the cells of memories.
#![tactic(auto)]

mod name;
mod phase;
mod records;
mod turn;

pub use name::Line;
pub use phase::{Phase, ReadPhase};
pub use records::{Access, Operand, Place, Seen};
pub use turn::{Answer, Effect, Finding, Milestone, ReadTurn, Turn};
