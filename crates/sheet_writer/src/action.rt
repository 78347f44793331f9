// What writing asks of the parts of a sheet: an action's kind, how many locations it names and the code of
// its new value, and a script item's byte. Uses the types of `sheet_format` and the kinds of operations.
ghost use Rattle.std.specs.Prelude.{◌≡◌, if◌then◌else◌, Some, None};
ghost use Rattle.sheet_format.specs.Format.{act_kind, act_count, new_code, item_byte};
ghost use Rattle.sheet_format.specs.Parts.{act_of};
ghost use Rattle.sheet_format.specs.Writing.{writable};

use operation::OperationKind;
use sheet_format::{Action, ScriptItem};
use value::ValueKind;

// The kind of an operation.
pub(crate) fn action_kind<V: ValueKind>(action: &Action<V>) -> OperationKind
    ensures { result ≡ act_kind (act_of action.now) }
{
    match action {
        Action::Read(_) => OperationKind::Read,
        Action::Ll(_) => OperationKind::Ll,
        Action::Sc { .. } => OperationKind::Sc,
        Action::Snapshot(_) => OperationKind::Snapshot,
        Action::Kcss { .. } => OperationKind::Kcss,
    }
}

// How many locations it names.
pub(crate) fn action_count<V: ValueKind>(action: &Action<V>) -> usize
    ensures { result ≡ act_count (act_of action.now) }
{
    match action {
        Action::Read(_) | Action::Ll(_) | Action::Sc { .. } => 1,
        Action::Snapshot(locations) => locations.len(),
        Action::Kcss { operands, .. } => operands.len(),
    }
}

// The code of the new value, and 0 where there is none. Not an `Option` of the value, since its one use would
// put 0 there for `None`.
pub(crate) fn new_code<V: ValueKind>(action: &Action<V>) -> u64
    ensures { result ≡ new_code V.coded (act_of action.now) }
{
    match action {
        Action::Read(_) | Action::Ll(_) | Action::Snapshot(_) => 0,
        Action::Sc { new, .. } | Action::Kcss { new, .. } => new.code(),
    }
}

// The byte that stands for a script item. A step of a process from 32 on has none.
pub(crate) fn item_byte(item: &ScriptItem) -> Option<u8>
    ensures { result ≡ (if writable item.now then Some (item_byte item.now) else None) }
{
    match item {
        ScriptItem::Start => Some(255),
        ScriptItem::Step(process) if *process < 32 => Some(*process),
        ScriptItem::Step(_) => None,
    }
}
