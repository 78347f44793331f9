// Packed memory: cells kept as 64-bit words. It is not open memory over another type of entries: a word is packed and
// unpacked, and packing is itself the second of the tests before a change.
// Uses the value kinds and what every memory is.
#![tactic(auto)]

mod packed;
mod words;

pub use packed::PackedMemory;
pub use words::{pack, unpack};
