// READs: one that finds a value at once, and one that meets an id.
// Uses the value kinds, cells, the lines and what the tests share.
use crate::support::{OTHER, OWN, fresh, link, number, on};
use lines::{
    Access, Answer, Effect, Finding, Line, Phase, Place, ReadPhase, ReadTurn, Seen, Task, Turn,
    finding_of, read_turn,
};
use memory::Cell;
use operation::OperationKind;
use value::{Link, Number};

// 13 loads val, and a value ends the READ there.
#[test]
fn a_value_ends_a_read(rt: HostRuntime) {
    let operands = [fresh::<Number>(1)];
    let task = Task {
        kind: OperationKind::Read,
        operands: &operands,
    };
    let phase = Phase::Reading(ReadPhase::Look);
    let seen = Seen::Found(Cell::Value(number(7)));
    assert_eq!(rt;
        task.next_access(OWN, None, &phase),
        Some((Line::L13, Access::Load(Place::Val(1))))
    );
    assert_eq!(rt;
        finding_of(&phase, &seen),
        Some(Finding::First(0, number(7)))
    );
    assert_eq!(rt;
        task.advance(&phase, &seen),
        Some(Turn::Ends {
            answer: Answer::Values,
            effect: Effect::Here,
        })
    );
    assert_eq!(rt;
        read_turn(&ReadPhase::Look, &seen),
        Some(ReadTurn::Got(number(7)))
    );
}

// An id leads from 13 over 1, 3a and 3b back to 13, whatever 3b said; a value at 1 leads back at once. No step of
// these ends the READ or records a thing.
#[test]
fn an_id_is_reset(rt: HostRuntime) {
    let operands = [fresh::<Link>(1)];
    let task = Task {
        kind: OperationKind::Read,
        operands: &operands,
    };
    let val = Place::Val(1);
    let found_id = Seen::Found(Cell::Id(OTHER));
    let found_value = Seen::Found(Cell::Value(link(true)));
    let fetch = ReadPhase::Fetch { kept: OTHER };
    let reset = ReadPhase::Reset {
        kept: OTHER,
        saved: link(true),
    };
    let cas = Access::Cas {
        place: val,
        old: Cell::Id(OTHER),
        new: Cell::Value(link(true)),
    };
    let steps = [
        (
            ReadPhase::Look,
            Line::L13,
            Access::Load(val),
            found_id,
            ReadPhase::LookAgain,
        ),
        (
            ReadPhase::LookAgain,
            Line::L1,
            Access::Load(val),
            found_id,
            fetch,
        ),
        (
            ReadPhase::LookAgain,
            Line::L1,
            Access::Load(val),
            found_value,
            ReadPhase::Look,
        ),
        (
            fetch,
            Line::L3a,
            Access::Load(Place::Saved(2)),
            found_value,
            reset,
        ),
        (reset, Line::L3b, cas, Seen::Said(true), ReadPhase::Look),
        (reset, Line::L3b, cas, Seen::Said(false), ReadPhase::Look),
    ];
    for (read, line, access, seen, next) in steps {
        let phase = Phase::Reading(read);
        assert_eq!(rt;
            task.next_access(OWN, None, &phase),
            Some((line, access)),
            "at {line}"
        );
        assert_eq!(rt;
            finding_of(&phase, &seen),
            Some(Finding::Nothing),
            "at {line}"
        );
        assert_eq!(rt;
            task.advance(&phase, &seen),
            on(Phase::Reading(next)),
            "at {line}"
        );
        assert_eq!(rt;
            read_turn(&read, &seen),
            Some(ReadTurn::On(next)),
            "at {line}"
        );
    }
}
