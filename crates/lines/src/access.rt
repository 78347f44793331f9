// The access that a process makes next, with the name of its line.
// Uses value kinds, cells, and an operation as its lines look at it.
ghost use Rattle.std.specs.Prelude.{◌≡◌};
ghost use Rattle.lines.specs.Accesses.{read_access, swap_value, line_access, next_access};

use crate::suits::suits;
use crate::task::Task;
use memory::{Cell, TaggedId};
use operation::OperationKind;
use phases::{Access, Line, Phase, Place, ReadPhase};
use value::ValueKind;

// The access of a READ of a location.
fn read_access<V: ValueKind>(location: u16, read: &ReadPhase<V>) -> (Line, Access<V>)
    ensures { result ≡ read_access location read.now }
{
    let val = Place::Val(location);
    match read {
        ReadPhase::Look => (Line::L13, Access::Load(val)),
        ReadPhase::LookAgain => (Line::L1, Access::Load(val)),
        ReadPhase::Fetch { kept } => (Line::L3a, Access::Load(Place::Saved(kept.process))),
        ReadPhase::Reset { kept, saved } => {
            (
                Line::L3b,
                Access::Cas {
                    place: val,
                    old: Cell::Id(*kept),
                    new: Cell::Value(*saved),
                },
            )
        }
    }
}

impl<V: ValueKind> Task<'_, V> {
    // The access that comes next; none if the phase does not suit the operation. `own` is the process's number and
    // tag, `new` the operation's new value.
    pub fn next_access(
        &self,
        own: TaggedId,
        new: Option<V>,
        phase: &Phase<V>,
    ) -> Option<(Line, Access<V>)>
        ensures { result ≡ next_access V.coded own self.now.kind self.now.operands.now new phase.now }
    {
        if !suits(self.kind, phase) {
            return None;
        }
        self.line_access(own, new, phase)
    }

    // The access of a phase that suits its operation.
    fn line_access(
        &self,
        own: TaggedId,
        new: Option<V>,
        phase: &Phase<V>,
    ) -> Option<(Line, Access<V>)>
        ensures { result ≡ line_access V.coded own self.now.kind self.now.operands.now new phase.now }
    {
        let first = self.operand(0)?.location;
        Some(match phase {
            Phase::Idle => return None,
            Phase::Reading(read) | Phase::Linking(read) => read_access(first, read),
            Phase::Attempt => (Line::L13, Access::Load(Place::Val(first))),
            Phase::Save { kept } => (Line::L7, Access::Store(Place::Saved(own.process), *kept)),
            Phase::Mark { kept } => {
                (
                    Line::L8,
                    Access::Cas {
                        place: Place::Val(first),
                        old: *kept,
                        new: Cell::Id(own),
                    },
                )
            }
            Phase::Note { .. } => (Line::L9, Access::Store(Place::Tid(first), Cell::Id(own))),
            Phase::FirstId { operand } => {
                (
                    Line::S6,
                    Access::Load(Place::Tid(self.operand(*operand)?.location)),
                )
            }
            Phase::FirstCollect { operand, read } | Phase::SecondCollect { operand, read } => {
                read_access(self.operand(*operand)?.location, read)
            }
            Phase::SecondId { operand } => {
                (
                    Line::S9,
                    Access::Load(Place::Tid(self.operand(*operand)?.location)),
                )
            }
            Phase::Swap => {
                (
                    Line::L11,
                    Access::Cas {
                        place: Place::Val(first),
                        old: Cell::Id(own),
                        new: Cell::Value(self.swap_value(new)?),
                    },
                )
            }
        })
    }

    // The value that 11 writes: the new value, or the LL's where a value of a KCSS differs from its expected one.
    fn swap_value(&self, new: Option<V>) -> Option<V>
        ensures { result ≡ swap_value V.coded self.now.kind self.now.operands.now new }
    {
        match self.kind {
            OperationKind::Kcss if !self.all_meet() => self.operand(0)?.first,
            _ => new,
        }
    }
}
