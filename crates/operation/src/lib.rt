// Operations: the five kinds, their numbers, and what each is given.
// Uses nothing but the standard library.
#![tactic(auto)]

mod kind;

pub use kind::{OperationKind, UnknownKind};
