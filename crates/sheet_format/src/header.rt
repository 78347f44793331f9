// What a sheet's header says.

// The header comes first, and the values right after it.
pub const HEADER_LENGTH: usize = 24;

// The fields of a header as they stand, its kind byte too: it may be the number of no kind.
#[derive(Clone, Copy, Debug, PartialEq, Eq)]
pub struct RawHeader {
    pub version: u8,
    pub kind: u8,
    pub locations: u16,
    pub processes: u16,
    pub items: u16,
    pub values: u32,
    pub operations: u32,
    pub script: u32,
    pub total: u32,
}

// A header that was found right: how many locations, processes and script items there are, and where the
// operations and the script begin.
#[derive(Clone, Copy, Debug, PartialEq, Eq)]
pub struct Header {
    pub locations: u16,
    pub processes: u16,
    pub items: u16,
    pub operations: usize,
    pub script: usize,
}
