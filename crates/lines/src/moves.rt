// Where a line leads: what it found is recorded first, and the local work then goes on to the next access.
// Uses value kinds, cells, and an operation as its lines look at it.
ghost use Rattle.std.specs.Prelude.{◌≡◌, length, Some, None};
ghost use Rattle.phases.specs.declared.turn.Turn.TheVariants.{On, Ends};
ghost use Rattle.lines.specs.Advancing.{read_turn, ending_value, found_id, finding_of, next_read, noted, compared, swapped, first_collected, second_collected, turn_of};

use crate::compare::is_met;
use crate::task::Task;
use memory::{Cell, TaggedId};
use operation::OperationKind;
use phases::{Answer, Effect, Finding, Milestone, Phase, ReadPhase, ReadTurn, Seen, Turn};
use value::ValueKind;

// Where a READ goes from what was seen; none if a saved value is an id, or the access was not the READ's.
pub fn read_turn<V: ValueKind>(read: &ReadPhase<V>, seen: &Seen<V>) -> Option<ReadTurn<V>>
    ensures { result ≡ read_turn read.now seen.now }
{
    match (read, seen) {
        (ReadPhase::Look, Seen::Found(Cell::Value(value))) => Some(ReadTurn::Got(*value)),
        (ReadPhase::Look, Seen::Found(Cell::Id(_))) => Some(ReadTurn::On(ReadPhase::LookAgain)),
        (ReadPhase::LookAgain, Seen::Found(Cell::Value(_))) => Some(ReadTurn::On(ReadPhase::Look)),
        (ReadPhase::LookAgain, Seen::Found(Cell::Id(kept))) => Some(ReadTurn::On(ReadPhase::Fetch {
            kept: *kept,
        })),
        (ReadPhase::Fetch { kept }, Seen::Found(Cell::Value(saved))) => {
            Some(ReadTurn::On(ReadPhase::Reset {
                kept: *kept,
                saved: *saved,
            }))
        }
        (ReadPhase::Reset { .. }, Seen::Said(_)) => Some(ReadTurn::On(ReadPhase::Look)),
        _ => None,
    }
}

// The value that ends a READ, if what was seen ends it.
fn ending_value<V: ValueKind>(read: &ReadPhase<V>, seen: &Seen<V>) -> Option<V>
    ensures { result ≡ ending_value read.now seen.now }
{
    match read_turn(read, seen) {
        Some(ReadTurn::Got(value)) => Some(value),
        _ => None,
    }
}

// The id that was found, if one was.
fn found_id<V: ValueKind>(seen: &Seen<V>) -> Option<TaggedId>
    ensures { result ≡ found_id seen.now }
{
    match seen {
        Seen::Found(Cell::Id(id)) => Some(*id),
        _ => None,
    }
}

// What a line records in an operand of its operation; none if it found what it may not, a tid that is a value.
pub fn finding_of<V: ValueKind>(phase: &Phase<V>, seen: &Seen<V>) -> Option<Finding<V>>
    ensures { result ≡ finding_of phase.now seen.now }
{
    match phase {
        Phase::Reading(read) => Some(ending_value(read, seen).map_or(
            Finding::Nothing,
            |value| Finding::First(0, value),
        )),
        Phase::Note {
            kept: Cell::Value(value),
        } => Some(Finding::First(0, *value)),
        Phase::Note { kept: Cell::Id(_) } => None,
        Phase::FirstId { operand } => found_id(seen).map(|id| Finding::FirstId(*operand, id)),
        Phase::FirstCollect { operand, read } => Some(ending_value(read, seen).map_or(
            Finding::Nothing,
            |value| Finding::First(*operand, value),
        )),
        Phase::SecondCollect { operand, read } => Some(ending_value(read, seen).map_or(
            Finding::Nothing,
            |value| Finding::Second(*operand, value),
        )),
        Phase::SecondId { operand } => found_id(seen).map(|id| Finding::SecondId(*operand, id)),
        Phase::Idle
        | Phase::Attempt
        | Phase::Linking(_)
        | Phase::Save { .. }
        | Phase::Mark { .. }
        | Phase::Swap => Some(Finding::Nothing),
    }
}

// On to a phase, by a step that is no milestone.
fn on<V: ValueKind>(phase: Phase<V>) -> Option<Turn<V>>
    ensures { result ≡ Some (On phase None) }
{
    Some(Turn::On {
        phase,
        milestone: None,
    })
}

// On to a phase, by a step that is this milestone.
fn on_by<V: ValueKind>(milestone: Milestone, phase: Phase<V>) -> Option<Turn<V>>
    ensures { result ≡ Some (On phase (Some milestone)) }
{
    Some(Turn::On {
        phase,
        milestone: Some(milestone),
    })
}

// To the end of the operation.
fn ends<V: ValueKind>(answer: Answer, effect: Effect) -> Option<Turn<V>>
    ensures { result ≡ Some (Ends answer effect) }
{
    Some(Turn::Ends { answer, effect })
}

impl<V: ValueKind> Task<'_, V> {
    // Where the process goes from what was seen, with what the line found already recorded in the operands.
    pub fn advance(&self, phase: &Phase<V>, seen: &Seen<V>) -> Option<Turn<V>>
        ensures { result ≡ turn_of V.coded self.now.kind self.now.operands.now phase.now seen.now }
    {
        match (phase, seen) {
            (Phase::Reading(read), _) => match read_turn(read, seen)? {
                ReadTurn::On(read) => on(Phase::Reading(read)),
                ReadTurn::Got(_) => ends(Answer::Values, Effect::Here),
            },
            (Phase::Attempt, Seen::Found(Cell::Value(value))) => on(Phase::Save {
                kept: Cell::Value(*value),
            }),
            (Phase::Attempt, Seen::Found(Cell::Id(_))) => on(Phase::Linking(ReadPhase::LookAgain)),
            (Phase::Linking(read), _) => match read_turn(read, seen)? {
                ReadTurn::On(read) => on(Phase::Linking(read)),
                ReadTurn::Got(value) => on(Phase::Save {
                    kept: Cell::Value(value),
                }),
            },
            (Phase::Save { kept }, Seen::Stored) => on(Phase::Mark { kept: *kept }),
            (Phase::Mark { kept }, Seen::Said(true)) => {
                on_by(Milestone::Marked, Phase::Note { kept: *kept })
            }
            (Phase::Mark { .. }, Seen::Said(false)) => on(Phase::Attempt),
            (Phase::Note { .. }, Seen::Stored) => self.noted(),
            (Phase::FirstId { operand }, Seen::Found(_)) => match self.next_operand(*operand) {
                Some(operand) => on(Phase::FirstId { operand }),
                None => on(Phase::FirstCollect {
                    operand: self.snapshot_from(),
                    read: ReadPhase::Look,
                }),
            },
            (Phase::FirstCollect { operand, read }, _) => {
                self.first_collected(*operand, read_turn(read, seen)?)
            }
            (Phase::SecondCollect { operand, read }, _) => {
                self.second_collected(*operand, read_turn(read, seen)?)
            }
            (Phase::SecondId { operand }, Seen::Found(_)) => match self.next_operand(*operand) {
                Some(operand) => on(Phase::SecondId { operand }),
                None => self.compared(),
            },
            (Phase::Swap, Seen::Said(yes)) => self.swapped(*yes),
            _ => None,
        }
    }

    // Where the 9 of an LL leads: to its end, or on to the rest of a KCSS.
    fn noted(&self) -> Option<Turn<V>>
        ensures { result ≡ noted self.now.kind (length self.now.operands.now) }
    {
        match self.kind {
            OperationKind::Ll => ends(Answer::Values, Effect::AtMark),
            OperationKind::Kcss if self.operands.len() > 1 => on(Phase::FirstId { operand: 1 }),
            OperationKind::Kcss => on(Phase::Swap),
            _ => None,
        }
    }

    // The operand and the READ phase that follow in the same collect; none if the collect has ended. Here and below the
    // operand comes from the phase and the turn from what was seen, so they are two parameters.
    fn next_read(&self, operand: usize, turn: ReadTurn<V>) -> Option<(usize, ReadPhase<V>)>
        ensures { result ≡ next_read (length self.now.operands.now) operand turn }
    {
        match turn {
            ReadTurn::On(read) => Some((operand, read)),
            ReadTurn::Got(_) => Some((self.next_operand(operand)?, ReadPhase::Look)),
        }
    }

    // Where a READ of the first collect leads: on, to the next operand, or to the second collect.
    fn first_collected(&self, operand: usize, turn: ReadTurn<V>) -> Option<Turn<V>>
        ensures { result ≡ first_collected self.now.kind (length self.now.operands.now) operand turn }
    {
        match self.next_read(operand, turn) {
            Some((operand, read)) => on(Phase::FirstCollect { operand, read }),
            None => on_by(
                Milestone::Collected,
                Phase::SecondCollect {
                    operand: self.snapshot_from(),
                    read: ReadPhase::Look,
                },
            ),
        }
    }

    // Where a READ of the second collect leads: on, to the next operand, or to S9.
    fn second_collected(&self, operand: usize, turn: ReadTurn<V>) -> Option<Turn<V>>
        ensures { result ≡ second_collected self.now.kind (length self.now.operands.now) operand turn }
    {
        match self.next_read(operand, turn) {
            Some((operand, read)) => on(Phase::SecondCollect { operand, read }),
            None => on(Phase::SecondId {
                operand: self.snapshot_from(),
            }),
        }
    }

    // Where the last S9 leads: to the end, to 11, or back to the first S6.
    fn compared(&self) -> Option<Turn<V>>
        ensures { result ≡ compared V.coded self.now.kind self.now.operands.now }
    {
        match self.kind {
            _ if !self.is_undisturbed() => on(Phase::FirstId {
                operand: self.snapshot_from(),
            }),
            OperationKind::Snapshot => ends(Answer::Values, Effect::AtCollect),
            OperationKind::Kcss => on(Phase::Swap),
            _ => None,
        }
    }

    // Where 11 leads, by what its CAS said.
    fn swapped(&self, said: bool) -> Option<Turn<V>>
        ensures { result ≡ swapped V.coded self.now.kind self.now.operands.now said }
    {
        let first = self.operand(0)?;
        match self.kind {
            OperationKind::Sc if said => ends(Answer::Yes, Effect::Here),
            OperationKind::Sc => ends(Answer::No, Effect::Here),
            OperationKind::Kcss if !is_met(&first) => ends(Answer::No, Effect::AtMark),
            OperationKind::Kcss if !self.all_meet() => ends(Answer::No, Effect::AtCollect),
            OperationKind::Kcss if !said => on(Phase::Attempt),
            OperationKind::Kcss if self.operands.len() > 1 => ends(Answer::Yes, Effect::AtCollect),
            OperationKind::Kcss => ends(Answer::Yes, Effect::Here),
            _ => None,
        }
    }
}
