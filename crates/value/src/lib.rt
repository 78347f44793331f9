// Value kinds: what a location of the machine may hold, and the code that stands for each value.
// Uses nothing but the standard library.
#![tactic(auto)]

mod kind;
mod link;
mod link_kind;
mod number;
mod number_kind;

pub use kind::ValueKind;
pub use link::{Link, Node};
pub use number::Number;
