// Reading the header of a run sheet. Uses the types and rules of `sheet_format` and the standard library.
#![tactic(auto)]

mod header;

pub use header::read_header;
