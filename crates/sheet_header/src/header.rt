// Reading a sheet's header: its length, version, kind, counts and offsets.
ghost use Rattle.std.specs.Prelude.{◌≡◌, ◌<◌, ◌≤◌, length, Ok, IfOk, MatchOption};
ghost use Rattle.sheet_format.specs.Faults.{fault, require};
ghost use Rattle.sheet_format.specs.Reading.{Placed, header_answer, header_by, header_fields};

use sheet_format::SheetRefusal::{WrongHeader, WrongLength, WrongOffset};
use sheet_format::{HEADER_LENGTH, Header, RawHeader, SheetFault, SheetRefusal};

// The fields of the header, if the sheet is long enough to have one.
fn raw_header(bytes: &[u8]) -> Option<RawHeader>
    ensures { MatchOption result (length bytes.now < 24) (λ raw. (24 ≤ length bytes.now) × (raw ≡ header_fields bytes.now)) }
{
    // A slice pattern names the single bytes; numbers of four bytes follow, each taken off the rest.
    let [version, kind, l0, l1, p0, p1, n0, n1, rest @ ..] = bytes else {
        return None;
    };
    let (values, rest) = rest.split_first_chunk::<4>()?;
    let (operations, rest) = rest.split_first_chunk::<4>()?;
    let (script, rest) = rest.split_first_chunk::<4>()?;
    let (total, _) = rest.split_first_chunk::<4>()?;
    Some(RawHeader {
        version: *version,
        kind: *kind,
        locations: u16::from_le_bytes([*l0, *l1]),
        processes: u16::from_le_bytes([*p0, *p1]),
        items: u16::from_le_bytes([*n0, *n1]),
        values: u32::from_le_bytes(*values),
        operations: u32::from_le_bytes(*operations),
        script: u32::from_le_bytes(*script),
        total: u32::from_le_bytes(*total),
    })
}

// Goes on where a rule holds, and else refuses.
fn require(holds: bool, refusal: SheetRefusal, place: usize) -> Result<(), SheetFault>
    ensures { result ≡ require holds (fault refusal place) (Ok tt) }
{
    if holds {
        Ok(())
    } else {
        Err(SheetFault::new(refusal, place))
    }
}

// The header, if it is right for a sheet of this length and of the kind with this number.
fn judge_header(raw: &RawHeader, length: usize, kind_number: u8) -> Result<Header, SheetFault>
    ensures answer { result ≡ header_by raw.now length kind_number }
    ensures placed { IfOk result (λ h. Placed length h) }
{
    // The length is a `usize`, which has no `From<u32>`.
    let operations = raw.operations as usize;
    let script = raw.script as usize;
    let after_values = HEADER_LENGTH + 8 * usize::from(raw.locations);
    let end = script + usize::from(raw.items);
    require(raw.total as usize == length, WrongLength, length)?;
    require(raw.version == 1, WrongHeader, 0)?;
    require(raw.kind == kind_number, WrongHeader, 1)?;
    require((1..=256).contains(&raw.locations), WrongHeader, 2)?;
    require((1..=32).contains(&raw.processes), WrongHeader, 4)?;
    require(raw.values as usize == HEADER_LENGTH, WrongOffset, 8)?;
    let operations_fit = operations == after_values && operations <= length;
    require(operations_fit, WrongOffset, 12)?;
    let script_fits = end == length && operations <= script;
    require(script_fits, WrongOffset, 16)?;
    Ok(Header {
        locations: raw.locations,
        processes: raw.processes,
        items: raw.items,
        operations,
        script,
    })
}

// What the header says, or the refusal with which it is met, for a sheet of values of one kind. The kind is told by
// its number, and no type: a header is the same for every kind, and its kind byte may be any number.
#[tactic(auto, unfolding(sheet_format::specs::Reading::header_answer))]
pub fn read_header(bytes: &[u8], kind_number: u8) -> Result<Header, SheetFault>
    ensures answer { result ≡ header_answer bytes.now kind_number }
    ensures placed { IfOk result (λ h. Placed (length bytes.now) h) }
{
    let Some(raw) = raw_header(bytes) else {
        return Err(SheetFault::new(WrongLength, bytes.len()));
    };
    judge_header(&raw, bytes.len(), kind_number)
}
