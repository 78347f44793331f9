// Reading run sheets. Uses `sheet_header`, the types and rules of `sheet_format`, the kinds of `value` and
// `operation`, and the standard library.
#![tactic(auto)]

mod bytes;
mod read_operation;
mod rows;
mod sheet;

pub use sheet::read;
