// What the lines answer with none: phases that do not suit their operation, and cells that hold what they may not.
// Uses the value kinds, cells, the lines and what the tests share.
use crate::support::{OTHER, OWN, fresh, link, number};
use lines::{Phase, ReadPhase, Seen, Task, finding_of, read_turn};
use memory::Cell;
use operation::OperationKind;
use value::{Link, Number};

// Each operation in a phase of another's, a KCSS in a SNAPSHOT of its first location, and no operation.
#[test]
fn a_phase_that_does_not_suit(rt: HostRuntime) {
    let operands = [fresh::<Number>(0), fresh::<Number>(1)];
    let cases = [
        (OperationKind::Read, Phase::Swap),
        (OperationKind::Ll, Phase::Reading(ReadPhase::Look)),
        (OperationKind::Sc, Phase::Attempt),
        (OperationKind::Snapshot, Phase::Linking(ReadPhase::Look)),
        (OperationKind::Kcss, Phase::FirstId { operand: 0 }),
        (OperationKind::Read, Phase::Idle),
    ];
    for (kind, phase) in cases {
        let task = Task {
            kind,
            operands: &operands,
        };
        assert_eq!(rt;
            task.next_access(OWN, Some(number(9)), &phase),
            None,
            "{kind:?}"
        );
    }
}

// The saved value of a process is no id, and the tid of a location is no value.
#[test]
fn a_cell_that_may_not_be(rt: HostRuntime) {
    let operands = [fresh::<Link>(0)];
    let task = Task {
        kind: OperationKind::Read,
        operands: &operands,
    };
    let fetch = ReadPhase::Fetch { kept: OTHER };
    let id = Seen::Found(Cell::<Link>::Id(OWN));
    assert_eq!(rt; read_turn(&fetch, &id), None);
    assert_eq!(rt; task.advance(&Phase::Reading(fetch), &id), None);
    let value = Seen::Found(Cell::Value(link(false)));
    assert_eq!(rt; finding_of(&Phase::FirstId { operand: 0 }, &value), None);
    assert_eq!(rt; finding_of(&Phase::SecondId { operand: 0 }, &value), None);
}
