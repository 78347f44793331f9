// An operation as its lines look at it: what each of them asks of it.
// Uses the kinds of operations, operands, and what is asked of one operand.
ghost use Rattle.std.specs.Prelude.{◌≡◌, drop, length};
ghost use Rattle.lines.specs.Suiting.{snapshot_from};
ghost use Rattle.lines.specs.Comparing.{operand_at, all_still, all_meet};
ghost use Rattle.lines.specs.Advancing.{next_operand};

use crate::compare::{is_met, is_still};
use operation::OperationKind;
use phases::Operand;
use value::ValueKind;

// An operation that a process makes: its kind and its operands, with all that its lines have recorded in them.
#[derive(Clone, Copy, Debug, PartialEq, Eq)]
pub struct Task<'a, V> {
    pub kind: OperationKind,
    pub operands: &'a [Operand<V>],
}

impl<V: ValueKind> Task<'_, V> {
    // Operand i, if there is one.
    pub(crate) fn operand(&self, i: usize) -> Option<Operand<V>>
        ensures { result ≡ operand_at self.now.operands.now i }
    {
        self.operands.get(i).copied()
    }

    // The operand after this one, if there is one.
    pub(crate) fn next_operand(&self, operand: usize) -> Option<usize>
        ensures { result ≡ next_operand operand (length self.now.operands.now) }
    {
        operand
            .checked_add(1)
            .filter(|next| *next < self.operands.len())
    }

    // The first operand that its SNAPSHOT collects: all of a SNAPSHOT's, all but the first of a KCSS's.
    pub(crate) fn snapshot_from(&self) -> usize
        ensures { result ≡ snapshot_from self.now.kind }
    {
        match self.kind {
            OperationKind::Kcss => 1,
            _ => 0,
        }
    }

    // Whether every operand that its SNAPSHOT collects is still as it was.
    pub(crate) fn is_undisturbed(&self) -> bool
        ensures { result ≡ all_still V.coded (drop (snapshot_from self.now.kind) self.now.operands.now) }
    {
        self.operands
            .iter()
            .skip(self.snapshot_from())
            .all(is_still)
    }

    // Whether every operand has the value that it expects.
    pub(crate) fn all_meet(&self) -> bool
        ensures { result ≡ all_meet V.coded self.now.operands.now }
    {
        self.operands.iter().all(is_met)
    }
}
