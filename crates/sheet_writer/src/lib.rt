// Writing run sheets. Uses the types and rules of `sheet_format`, the kinds of `value` and `operation`, and the
// standard library.
#![tactic(auto)]

mod action;
mod layout;
mod output;
mod puts;
mod rows;
mod sheet;

pub use sheet::write;
