// The lines as code and the lines as a relation: each step that the pure functions of crate lines say a process makes
// is a line of the relation of crate protocol, and each Start is one of its Starts. It is proof alone: each theorem is
// the contract of a function that does nothing else.
// Uses value kinds; what the theorems speak of stands in their contracts.
#![tactic(auto)]

ghost use Rattle.line_views.specs.Steps.{MakesLines, NeverSticks};
ghost use Rattle.steps_lawful.specs.Starting.{StartsBegin};
ghost use Rattle.steps_lawful.specs.Showing.{Shows};

use value::ValueKind;

// Each step of an operation of any kind is a line of the relation.
pub fn steps_make_lines<V: ValueKind>()
    ensures { MakesLines {V = V} V.coded Shows }
{}

// In a sound world an operation always has a next step, which is a line of the relation.
pub fn steps_never_stick<V: ValueKind>()
    ensures { NeverSticks {V = V} V.coded Shows }
{}

// A Start of an operation of any kind is a Start of the relation.
pub fn starts_begin<V: ValueKind>()
    ensures { StartsBegin {V = V} Shows }
{}
