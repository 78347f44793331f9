// Run sheets: what an examination run is to do, as types, with reading from bytes and writing to bytes. Gathers
// what `sheet_format`, `sheet_reader` and `sheet_writer` offer to others.
#![tactic(auto)]

mod methods;
mod trips;

pub use methods::SheetBytes;
pub use sheet_format::{
    Action, Operand, Operation, ReadError, ScriptItem, Sheet, SheetFault, SheetRefusal,
};
pub use sheet_reader::read;
pub use sheet_writer::write;
pub use trips::round_trips;
