// Numbers read from bytes, the lowest byte first. The two functions stay apart, since `from_le_bytes` belongs to
// no trait. A place is `bytes` and `at`, and no struct of both: a contract would say `place.entry.bytes.now` for
// `bytes.now`, and would still ask for room of its own at each width.
ghost use Rattle.std.specs.Prelude.{◌≡◌, ◌+◌, ◌≤◌, length};
ghost use Rattle.sheet_format.specs.Bytes.{field};

// The code in the eight bytes from `at` on.
pub(crate) fn code_at(bytes: &[u8], at: usize) -> u64
    requires { at + 8 ≤ length bytes.now }
    ensures { result ≡ field bytes.now at 8 }
{
    u64::from_le_bytes(bytes[at..at + 8].try_into().unwrap())
}

// The location in the two bytes from `at` on.
pub(crate) fn location_at(bytes: &[u8], at: usize) -> u16
    requires { at + 2 ≤ length bytes.now }
    ensures { result ≡ field bytes.now at 2 }
{
    u16::from_le_bytes(bytes[at..at + 2].try_into().unwrap())
}
