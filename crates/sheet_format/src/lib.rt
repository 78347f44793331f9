// The format of run sheets: what a sheet says, as types; the faults of the sheet layer; and, in specs/, the
// bytes of a sheet and what reading and writing answer. Uses `operation` and the standard library.
#![tactic(auto)]

mod fault;
mod head;
mod header;
mod parts;
mod script;

pub use fault::{ReadError, SheetFault, SheetRefusal};
pub use head::OperationHead;
pub use header::{HEADER_LENGTH, Header, RawHeader};
pub use parts::{Action, MOST_OPERATIONS, Operand, Operation, ScriptItem, Sheet};
pub use script::start_count;
