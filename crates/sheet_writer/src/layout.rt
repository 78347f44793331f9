// What writing refuses before it writes a byte, in the order in which reading would meet it, and where the
// parts of a sheet end. Uses what writing asks of actions and script items, and the rules of `sheet_format`.
ghost use Rattle.std.specs.Prelude.{◌≡◌, ◌+◌, ◌*◌, ◌≤◌, map, length, IfOk};
ghost use Rattle.sheet_format.specs.Parts.{op_of, parts_of};
ghost use Rattle.sheet_format.specs.Writing.{operations_end, script_end, layout_answer};

use crate::action::{action_count, action_kind, item_byte};
use sheet_format::{
    HEADER_LENGTH, MOST_OPERATIONS, Operation, ScriptItem, Sheet, SheetFault, SheetRefusal,
    start_count,
};
use value::ValueKind;

// Where operations that begin at `at` end. A count that is not of its kind, or one operation too many,
// is refused where that operation begins. A loop, since `try_fold` would hold the same lines in a closure.
fn operations_end<V: ValueKind>(at: usize, operations: &[Operation<V>]) -> Result<usize, SheetFault>
    requires { at ≤ 2072 }
    ensures answer { result ≡ operations_end at 4096 (map op_of operations.now) }
    ensures bound { IfOk result (λ end. end ≤ at + 172 * 4096) }
{
    let mut end = at;
    for (i, operation) in operations.iter().enumerate() {
        let count = action_count(&operation.action);
        if i >= MOST_OPERATIONS || !action_kind(&operation.action).counts(count) {
            return Err(SheetFault::new(SheetRefusal::WrongOperation, end));
        }
        end += 12 + 10 * count;
    }
    Ok(end)
}

// Where a script that begins at `at` ends. A step that has no byte is refused where it stands.
fn script_end(at: usize, items: &[ScriptItem]) -> Result<usize, SheetFault>
    requires { at + length items.now ≤ 1000000 }
    ensures { result ≡ script_end at items.now }
{
    match items.iter().position(|item| item_byte(item).is_none()) {
        Some(i) => Err(SheetFault::new(SheetRefusal::WrongScript, at + i)),
        None => Ok(at + items.len()),
    }
}

// The length of the sheet's bytes, or why it has none.
pub(crate) fn layout<V: ValueKind>(sheet: &Sheet<V>) -> Result<usize, SheetFault>
    ensures { result ≡ layout_answer (parts_of sheet.now) }
{
    let locations = sheet.initial.len();
    if !(1..=256).contains(&locations) {
        return Err(SheetFault::new(SheetRefusal::WrongHeader, 2));
    }
    if !(1..=32).contains(&sheet.processes) {
        return Err(SheetFault::new(SheetRefusal::WrongHeader, 4));
    }
    if sheet.script.len() > 65_535 {
        return Err(SheetFault::new(SheetRefusal::WrongHeader, 6));
    }
    let script_at = operations_end(HEADER_LENGTH + 8 * locations, &sheet.operations)?;
    let end = script_end(script_at, &sheet.script)?;
    if start_count(&sheet.script) != sheet.operations.len() {
        return Err(SheetFault::new(SheetRefusal::WrongScript, end));
    }
    Ok(end)
}
