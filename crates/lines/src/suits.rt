// Which phases suit which kinds of operations.
// Uses the kinds of operations and the phases of processes.
ghost use Rattle.std.specs.Prelude.{◌≡◌};
ghost use Rattle.lines.specs.Suiting.{collects_from, suiting};

use operation::OperationKind;
use phases::Phase;
use value::ValueKind;

// Whether an operation of this kind collects this operand.
fn collects_from(kind: OperationKind, operand: usize) -> bool
    ensures { result ≡ collects_from kind operand }
{
    match kind {
        OperationKind::Snapshot => true,
        OperationKind::Kcss => operand >= 1,
        _ => false,
    }
}

// Whether an operation of this kind can stand in this phase.
pub(crate) fn suits<V: ValueKind>(kind: OperationKind, phase: &Phase<V>) -> bool
    ensures { result ≡ suiting kind phase.now }
{
    match phase {
        Phase::Idle => false,
        Phase::Reading(_) => kind == OperationKind::Read,
        Phase::Attempt
        | Phase::Linking(_)
        | Phase::Save { .. }
        | Phase::Mark { .. }
        | Phase::Note { .. } => { matches!(kind, OperationKind::Ll | OperationKind::Kcss) }
        Phase::FirstId { operand }
        | Phase::FirstCollect { operand, .. }
        | Phase::SecondCollect { operand, .. }
        | Phase::SecondId { operand } => collects_from(kind, *operand),
        Phase::Swap => matches!(kind, OperationKind::Sc | OperationKind::Kcss),
    }
}
