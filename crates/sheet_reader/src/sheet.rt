// Reading a whole run sheet.
ghost use Rattle.std.specs.Prelude.{◌≡◌, ◌≤◌, map, length, IfOk};
ghost use Rattle.sheet_format.specs.Faults.{NeedsMemory, Reads};
ghost use Rattle.sheet_format.specs.Parts.{op_of, parts_of};
ghost use Rattle.sheet_format.specs.Reading.{Keeps, operations_answer, read_answer};
ghost use Rattle.sheet_format.specs.RoundTrip.{GivesBack};

use crate::read_operation::read_operation;
use crate::rows::{Script, Values, read_row};
use sheet_format::{
    HEADER_LENGTH, MOST_OPERATIONS, Operation, ReadError, Sheet, SheetFault, SheetRefusal,
    start_count,
};
use sheet_header::read_header;
use std::alloc::Global;
use value::ValueKind;

// The operations from `at` on, up to the script at `end`.
fn read_operations<V: ValueKind>(
    heap: Global,
    bytes: &[u8],
    at: usize,
    end: usize,
) -> Result<Vec<Operation<V>>, ReadError>
    requires before { at ≤ end }
    requires inside { end ≤ length bytes.now }
    ensures { Reads (λ v. map op_of v.items) result (operations_answer V.decoded bytes.now end 4096 at) }
{
    let mut operations = Vec::new(heap);
    // A loop, and no iterator: only what was read of an operation tells where the next one starts.
    let mut next = at;
    while next < end {
        if operations.len() == MOST_OPERATIONS {
            return Err(SheetFault::new(SheetRefusal::WrongOperation, next).into());
        }
        let (operation, after) = read_operation(heap, bytes, next, end)?;
        operations.push(operation)?;
        next = after;
    }
    Ok(operations)
}

// The sheet that the bytes hold, or why they hold none. Writing the sheet gives the bytes back. Memory can
// be wanting only once the header was found right and the first code gave a value.
#[tactic(auto, unfolding(sheet_format::specs::Reading::read_answer, sheet_format::specs::Reading::body_answer))]
pub fn read<V: ValueKind>(heap: Global, bytes: &[u8]) -> Result<Sheet<V>, ReadError>
    ensures answer { Reads parts_of result (read_answer V.decoded bytes.now V.KIND) }
    ensures memory { NeedsMemory result (Keeps V.decoded bytes.now V.KIND) }
    ensures returns { IfOk result (λ sheet. GivesBack V.coded V.KIND (parts_of sheet) bytes.now) }
{
    let header = read_header(bytes, V::KIND)?;
    let locations = usize::from(header.locations);
    let initial = read_row::<Values<V>>(heap, bytes, HEADER_LENGTH, locations)?;
    let operations = read_operations(heap, bytes, header.operations, header.script)?;
    let items = usize::from(header.items);
    let script = read_row::<Script>(heap, bytes, header.script, items)?;
    if start_count(&script) != operations.len() {
        return Err(SheetFault::new(SheetRefusal::WrongScript, bytes.len()).into());
    }
    Ok(Sheet {
        initial,
        processes: header.processes,
        operations,
        script,
    })
}
