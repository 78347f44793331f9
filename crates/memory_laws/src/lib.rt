// The laws of every memory: a change and the Load after it, over any memory that keeps the interface.
// Uses the value kinds and the interface of memories.
#![tactic(auto)]

mod reread;

pub use reread::{cas_and_load, store_and_load};
