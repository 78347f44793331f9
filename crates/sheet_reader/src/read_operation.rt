// Reading one operation: its head, and then what it is to do. Where the script begins, `end`, goes along as a number: the
// bytes cut off there would be other bytes, and each answer would have to be told of those too.
ghost use Rattle.std.specs.Prelude.{◌≡◌, ◌+◌, ◌*◌, ◌≤◌, length, IfOk, slice_index};
ghost use Rattle.sheet_format.specs.Faults.{Reads};
ghost use Rattle.sheet_format.specs.Format.{size_by};
ghost use Rattle.sheet_format.specs.Parts.{act_of, op_of};
ghost use Rattle.sheet_format.specs.Reading.{unused, head_fits, head_answer, action_by, operation_answer};

use crate::bytes::{code_at, location_at};
use crate::rows::{Locations, Operands, read_row, read_value};
use operation::OperationKind;
use sheet_format::{Action, Operation, OperationHead, ReadError, SheetFault, SheetRefusal};
use std::alloc::Global;
use value::ValueKind;

// Whether the expected codes of so many operands from `at` on are zero.
fn codes_unused(bytes: &[u8], at: usize, count: usize) -> bool
    requires { at + 10 * count ≤ length bytes.now }
    ensures { result ≡ unused bytes.now at count }
{
    (0..count).all(|i| code_at(bytes, at + 10 * i + 2) == 0)
}

// Whether the operation that starts at `at` has a head that suits its kind, and does not run past `end`.
fn head_fits(bytes: &[u8], at: usize, end: usize, kind: OperationKind) -> bool
    requires short { at + 12 ≤ end }
    requires inside { end ≤ length bytes.now }
    ensures { result ≡ head_fits bytes.now at end kind }
{
    let count = usize::from(bytes[at + 2]);
    kind.counts(count)
        && bytes[at + 3] == 0
        && end - at >= 12 + 10 * count
        && (kind.takes_new() || code_at(bytes, at + 4) == 0)
        && (kind.takes_expected() || codes_unused(bytes, at + 12, count))
}

// The head of the operation that starts at `at`, in a sheet whose script begins at `end`.
#[tactic(auto, unfolding(sheet_format::specs::Reading::head_answer))]
fn read_head(bytes: &[u8], at: usize, end: usize) -> Result<OperationHead, SheetFault>
    requires before { at ≤ end }
    requires inside { end ≤ length bytes.now }
    ensures { result ≡ head_answer bytes.now at end }
{
    let wrong = SheetFault::new(SheetRefusal::WrongOperation, at);
    if end - at < 12 {
        return Err(wrong);
    }
    match OperationKind::try_from(bytes[at]) {
        Ok(kind) if head_fits(bytes, at, end, kind) => {
            Ok(OperationHead {
                kind,
                process: bytes[at + 1],
                count: bytes[at + 2],
            })
        }
        _ => Err(wrong),
    }
}

// What the operation that starts at `at` is to do, as its head says.
fn read_action<V: ValueKind>(
    heap: Global,
    bytes: &[u8],
    at: usize,
    head: OperationHead,
) -> Result<Action<V>, ReadError>
    requires some { 1 ≤ head.count }
    requires inside { at + size_by head.count ≤ length bytes.now }
    ensures { Reads act_of result (action_by V.decoded bytes.now at head.kind head.count) }
{
    let first = at + 12;
    let count = usize::from(head.count);
    let location = location_at(bytes, first);
    match head.kind {
        OperationKind::Read => Ok(Action::Read(location)),
        OperationKind::Ll => Ok(Action::Ll(location)),
        OperationKind::Sc => {
            let new = read_value(bytes, at + 4)?;
            Ok(Action::Sc { location, new })
        }
        OperationKind::Snapshot => {
            let locations = read_row::<Locations>(heap, bytes, first, count)?;
            Ok(Action::Snapshot(locations))
        }
        OperationKind::Kcss => {
            let new = read_value(bytes, at + 4)?;
            let operands = read_row::<Operands<V>>(heap, bytes, first, count)?;
            Ok(Action::Kcss { new, operands })
        }
    }
}

// The operation that starts at `at`, and where the next one starts.
#[tactic(auto, unfolding(sheet_format::specs::Reading::operation_answer))]
pub(crate) fn read_operation<V: ValueKind>(
    heap: Global,
    bytes: &[u8],
    at: usize,
    end: usize,
) -> Result<(Operation<V>, usize), ReadError>
    requires before { at ≤ end }
    requires inside { end ≤ length bytes.now }
    ensures answer { Reads (λ read. op_of read.0) result (operation_answer V.decoded bytes.now end at) }
    ensures next { IfOk result (λ read. (read.1 ≡ at + size_by (slice_index bytes.now (at + 2))) × (read.1 ≤ end)) }
{
    let head = read_head(bytes, at, end)?;
    let action = read_action(heap, bytes, at, head)?;
    let operation = Operation {
        process: head.process,
        action,
    };
    Ok((operation, at + 12 + 10 * usize::from(head.count)))
}
