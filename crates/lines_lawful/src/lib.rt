// The lines as code and the lines as a relation: each step that the pure functions of crate lines say a process makes
// is a line of the relation of crate protocol. It is proof alone: each theorem is the contract of a function that does
// nothing else. Each follows from the one theorem of crate steps_lawful, of which it is the case of one kind.
// Uses value kinds; what the theorems speak of stands in their contracts.
#![tactic(auto)]

ghost use Rattle.line_views.specs.Steps.{MakesLines};
ghost use Rattle.lines_lawful.specs.Showing.{ShowsRead, ShowsLl, ShowsSc};
ghost use Rattle.lines_lawful.specs.Collecting.{ShowsSnapshot};
ghost use Rattle.lines_lawful.specs.Single.{ShowsSingle};
ghost use Rattle.lines_lawful.specs.Several.{ShowsKcss};

use value::ValueKind;

// Each step of a READ is a line of the relation.
pub fn reads_make_lines<V: ValueKind>()
    ensures { MakesLines {V = V} V.coded ShowsRead }
{}

// Each step of an LL is a line of the relation.
pub fn lls_make_lines<V: ValueKind>()
    ensures { MakesLines {V = V} V.coded ShowsLl }
{}

// The step of an SC is a line of the relation.
pub fn scs_make_lines<V: ValueKind>()
    ensures { MakesLines {V = V} V.coded ShowsSc }
{}

// Each step of a SNAPSHOT is a line of the relation.
pub fn snapshots_make_lines<V: ValueKind>()
    ensures { MakesLines {V = V} V.coded ShowsSnapshot }
{}

// Each step of a KCSS of one location is a line of the relation.
pub fn single_kcss_make_lines<V: ValueKind>()
    ensures { MakesLines {V = V} V.coded ShowsSingle }
{}

// Each step of a KCSS of two or more locations is a line of the relation.
pub fn kcss_make_lines<V: ValueKind>()
    ensures { MakesLines {V = V} V.coded ShowsKcss }
{}
