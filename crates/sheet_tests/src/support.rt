// What the tests share: a small sheet of numbers, one of links, and what reading makes of bytes.
use sheet::{ReadError, Sheet, SheetBytes};
use std::alloc::Global;
use value::ValueKind;

// Two locations that hold 5 and 7, one process, KCSS of both expecting 5 and 7 with new 9, and its nine steps:
// the header, the initial values, the operation's head and its two operands, the script.
pub const NUMBERS: [u8; 82] = *b"\
    \x01\x01\x02\x00\x01\x00\x0a\x00\x18\x00\x00\x00\x28\x00\x00\x00\x48\x00\x00\x00\x52\x00\x00\x00\
    \x05\x00\x00\x00\x00\x00\x00\x00\x07\x00\x00\x00\x00\x00\x00\x00\
    \x05\x00\x02\x00\x09\x00\x00\x00\x00\x00\x00\x00\
    \x00\x00\x05\x00\x00\x00\x00\x00\x00\x00\
    \x01\x00\x07\x00\x00\x00\x00\x00\x00\x00\
    \xff\x00\x00\x00\x00\x00\x00\x00\x00\x00";

// One location that holds nothing, two processes, a READ by process 1 and an SC to node 3 deleted by process 0:
// the header, the initial value, the two operations, the script.
pub const LINKS: [u8; 79] = *b"\
    \x01\x02\x01\x00\x02\x00\x03\x00\x18\x00\x00\x00\x20\x00\x00\x00\x4c\x00\x00\x00\x4f\x00\x00\x00\
    \x00\x00\x00\x00\x00\x00\x00\x00\
    \x01\x01\x01\x00\x00\x00\x00\x00\x00\x00\x00\x00\x00\x00\x00\x00\x00\x00\x00\x00\x00\x00\
    \x03\x00\x01\x00\x07\x00\x00\x00\x00\x00\x00\x00\x00\x00\x00\x00\x00\x00\x00\x00\x00\x00\
    \xff\x1f\xff";

// The number and the place of the refusal with which reading meets the bytes; none if they are read.
pub fn refusal<V: ValueKind>(heap: Global, bytes: &[u8]) -> Result<Option<(u8, usize)>, ReadError> {
    match Sheet::<V>::read(heap, bytes) {
        Ok(_) => Ok(None),
        Err(ReadError::Fault(fault)) => Ok(Some((fault.number(), fault.place))),
        Err(error) => Err(error),
    }
}

// These bytes with one of them changed.
pub fn damaged<const N: usize>(mut bytes: [u8; N], at: usize, byte: u8) -> [u8; N] {
    if let Some(changed) = bytes.get_mut(at) {
        *changed = byte;
    }
    bytes
}
