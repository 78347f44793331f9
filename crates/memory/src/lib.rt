// What every memory is: cells, limits, faults and the interface.
// Uses the value kinds. The memories themselves have crates of their own.
#![tactic(auto)]

mod cell;
mod fault;
mod interface;
mod limits;

pub use cell::{Cell, TaggedId, same_cell};
pub use fault::{MemoryFault, MemoryRefusal};
pub use interface::Memory;
pub use limits::{Limits, counted_cells};
