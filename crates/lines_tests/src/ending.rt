// The lines that end an LL, an SC, a KCSS and a SNAPSHOT.
// Uses the value kinds, cells, the lines and what the tests share.
use crate::support::{OTHER, OWN, collected, fresh, link, number, on};
use lines::{
    Access, Answer, Effect, Finding, Line, Operand, Phase, Place, Seen, Task, Turn, finding_of,
};
use memory::{Cell, TaggedId};
use operation::OperationKind;
use value::{Link, Number};

// 9 stores own id in tid; the effect step is the 8 before it.
#[test]
fn an_ll_ends_at_9(rt: HostRuntime) {
    let operands = [fresh::<Link>(4)];
    let task = Task {
        kind: OperationKind::Ll,
        operands: &operands,
    };
    let phase = Phase::Note {
        kept: Cell::Value(link(false)),
    };
    assert_eq!(rt;
        task.next_access(OWN, None, &phase),
        Some((Line::L9, Access::Store(Place::Tid(4), Cell::Id(OWN))))
    );
    assert_eq!(rt;
        finding_of(&phase, &Seen::Stored),
        Some(Finding::First(0, link(false)))
    );
    assert_eq!(rt;
        task.advance(&phase, &Seen::Stored),
        Some(Turn::Ends {
            answer: Answer::Values,
            effect: Effect::AtMark,
        })
    );
}

// 11 CASes val from own id to the new value, and ends the SC with what it said.
#[test]
fn an_sc_ends_at_11(rt: HostRuntime) {
    let operands = [fresh::<Link>(4)];
    let task = Task {
        kind: OperationKind::Sc,
        operands: &operands,
    };
    let cas = Access::Cas {
        place: Place::Val(4),
        old: Cell::Id(OWN),
        new: Cell::Value(Link::Nothing),
    };
    assert_eq!(rt;
        task.next_access(OWN, Some(Link::Nothing), &Phase::Swap),
        Some((Line::L11, cas))
    );
    for (said, answer) in [(true, Answer::Yes), (false, Answer::No)] {
        let seen = Seen::Said(said);
        assert_eq!(rt;
            finding_of(&Phase::Swap, &seen),
            Some(Finding::Nothing),
            "said {said}"
        );
        assert_eq!(rt;
            task.advance(&Phase::Swap, &seen),
            Some(Turn::Ends {
                answer,
                effect: Effect::Here,
            }),
            "said {said}"
        );
    }
}

// A KCSS of locations 0 and 1 that hold 5 and 7: what is expected there, what 11 writes, and where its yes and its
// no lead. Where a value differs the LL's value is written back, and what the CAS said changes nothing.
#[test]
fn a_kcss_ends_at_11(rt: HostRuntime) {
    let yes = Some(Turn::Ends {
        answer: Answer::Yes,
        effect: Effect::AtCollect,
    });
    let no_by = |effect| {
        Some(Turn::Ends {
            answer: Answer::No,
            effect,
        })
    };
    let cases = [
        (5, 7, 9, yes, on(Phase::Attempt)),
        (5, 8, 5, no_by(Effect::AtCollect), no_by(Effect::AtCollect)),
        (4, 7, 5, no_by(Effect::AtMark), no_by(Effect::AtMark)),
    ];
    for (first, second, written, after_yes, after_no) in cases {
        let operands = [
            Operand {
                expected: Some(number(first)),
                ..collected(0, number(5))
            },
            Operand {
                expected: Some(number(second)),
                ..collected(1, number(7))
            },
        ];
        let task = Task {
            kind: OperationKind::Kcss,
            operands: &operands,
        };
        let cas = Access::Cas {
            place: Place::Val(0),
            old: Cell::Id(OWN),
            new: Cell::Value(number(written)),
        };
        assert_eq!(rt;
            task.next_access(OWN, Some(number(9)), &Phase::Swap),
            Some((Line::L11, cas)),
            "expecting {first}, {second}"
        );
        assert_eq!(rt;
            task.advance(&Phase::Swap, &Seen::Said(true)),
            after_yes,
            "expecting {first}, {second}"
        );
        assert_eq!(rt;
            task.advance(&Phase::Swap, &Seen::Said(false)),
            after_no,
            "expecting {first}, {second}"
        );
    }
}

// The last S9 of a SNAPSHOT ends it only if the id and the value are those that were found before; else S6 follows.
#[test]
fn a_snapshot_ends_at_s9(rt: HostRuntime) {
    let later = TaggedId { process: 2, tag: 8 };
    let again = on(Phase::FirstId { operand: 0 });
    let ends = Some(Turn::Ends {
        answer: Answer::Values,
        effect: Effect::AtCollect,
    });
    let cases = [
        (OTHER, link(false), ends),
        (later, link(false), again),
        (OTHER, link(true), again),
    ];
    for (second_id, second, turn) in cases {
        let operands = [
            collected::<Link>(6, Link::Nothing),
            Operand {
                first_id: OTHER,
                second_id,
                second: Some(second),
                ..collected(8, link(false))
            },
        ];
        let task = Task {
            kind: OperationKind::Snapshot,
            operands: &operands,
        };
        let phase = Phase::SecondId { operand: 1 };
        let seen = Seen::Found(Cell::Id(second_id));
        assert_eq!(rt;
            task.next_access(OWN, None, &phase),
            Some((Line::S9, Access::Load(Place::Tid(8)))),
            "{second_id:?}, {second:?}"
        );
        assert_eq!(rt;
            finding_of(&phase, &seen),
            Some(Finding::SecondId(1, second_id)),
            "{second_id:?}, {second:?}"
        );
        assert_eq!(rt;
            task.advance(&phase, &seen),
            turn,
            "{second_id:?}, {second:?}"
        );
    }
}
