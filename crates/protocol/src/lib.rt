// The protocol: what processes do to the shared cells of a memory, told by worlds, events and histories, and by the lines
// of the algorithm and their runs; and why the order of their operations by effect step is lawful. It is model and proof
// alone: each theorem is the contract of a function that does nothing else. V is the type of the values: any type; where
// a line has to be found, a type whose sameness can be told, as it can of any value kind. Uses the cells of memories and
// the laws of value kinds.
#![tactic(auto)]

ghost use Rattle.protocol.specs.Past.{MarksOwned, IdsNeverReturn, TidsGuardValues, ChangesByCommit, LostMarkWasReset};
ghost use Rattle.protocol.specs.Replay.{ReplaysAgree};
ghost use Rattle.protocol.specs.Order.{OrderLaw};
ghost use Rattle.protocol.specs.Steps.{LinesAreEvents};
ghost use Rattle.protocol.specs.Opening.{StartsAreOpen, StartsExactly};
ghost use Rattle.protocol.specs.Traces.{RunsAreHistories};
ghost use Rattle.protocol.specs.Going.{LinesGoOn, LinesAlwaysGoOn};
ghost use Rattle.protocol.specs.Lawful.{RunLaw};
ghost use Rattle.protocol.specs.Solo.{SoloBounds, SoloEndsTo};
ghost use Rattle.protocol.specs.Asked.{AskedBounds};
ghost use Rattle.protocol.specs.Sound.{GoesOn, RunsSound};
ghost use Rattle.protocol.specs.Finishes.{RunsFinish};
ghost use Rattle.protocol.specs.Unaided.{AlwaysGoesOn, RunsFinishAlone};

use value::ValueKind;

// An id in val of a location is the own id of its process, which has its mark there and a value saved.
pub fn marks_are_owned<V>()
    ensures { MarksOwned V }
{}

// What a tid has lost it never has again, and an id that stands in a val at two times stood there between.
pub fn ids_never_return<V>()
    ensures { IdsNeverReturn V }
{}

// While the tid of a location stays the same, a value found there stays, and no commit comes.
pub fn tids_guard_values<V>()
    ensures { TidsGuardValues V }
{}

// Each location stands for one value at each time, and for another only after a commit of that value.
pub fn changes_by_commit<V>()
    ensures { ChangesByCommit V }
{}

// The last CAS of an attempt says no only if the attempt's mark was reset.
pub fn lost_mark_was_reset<V>()
    ensures { LostMarkWasReset V }
{}

// The replay of operations on the store, as a relation and by recursion, is the same.
pub fn replays_agree<V>()
    ensures { ReplaysAgree V }
{}

// The one-at-a-time store allows the finished operations of a history, lowest effect step first; it then holds what
// every location stands for, and an SC said no only after a reset of its mark.
pub fn order_stands<V>()
    ensures { OrderLaw V }
{}

// A line of the algorithm is one event of its process, and the operation keeps what it was asked.
pub fn lines_are_events<V>()
    ensures { LinesAreEvents V }
{}

// A resting process can be given any request that its link allows.
pub fn starts_are_open<V>()
    ensures { StartsAreOpen V }
{}

// If there is a value at all, a process can be given a request exactly if it rests, its link allows the request, and the
// request names one location or more; and what it is given is what it is asked then.
pub fn starts_exactly<V>()
    ensures { StartsExactly V }
{}

// Every run is a history: each of its steps is an event that is possible in its world and leads to the next.
pub fn runs_are_histories<V>()
    ensures { RunsAreHistories V }
{}

// Where sameness of values can be told, a process that runs an operation always has a line to make.
pub fn lines_go_on<V>()
    ensures { LinesGoOn V }
{}

// For a value kind nothing has to be told: at every step of a run a process that runs an operation has a line to make.
pub fn lines_always_go_on<V: ValueKind>()
    ensures { LinesAlwaysGoOn V }
{}

// Every run is lawful, at every step: its finished operations, each once and lowest effect step first, are what the
// one-at-a-time store allows, which then holds what every location stands for; each is what its Start asked, and takes
// effect at a step of its own, from its first to its last; an SC said no only after another operation reset its mark.
pub fn runs_are_lawful<V>()
    ensures { RunLaw V }
{}

// A process that steps alone ends its operation: a READ within 7 lines, an LL within 10, an SC within 1, a SNAPSHOT of m
// locations within 12 m + 1, a KCSS of k locations within 16 k - 5, from any cells and any line of the operation.
pub fn solo_bounds<V>()
    ensures { SoloBounds V }
{}

// A process that steps alone ends its operation within the same bounds if other processes are given operations between its
// lines.
pub fn solo_ends_to<V>()
    ensures { SoloEndsTo V }
{}

// The bounds are told by what was asked, and hold from every Start whose KCSS does not repeat its first location, in
// every phase that its lines lead to, also if Starts come between those lines.
pub fn asked_bounds<V>()
    ensures { AskedBounds V }
{}

// In a sound machine a process that runs an operation can make its next line, and the machine stays sound for it: stepped
// alone, it ends its operation within its bound.
pub fn solo_goes_on<V>()
    ensures { GoesOn V }
{}

// The same for any value kind, and whichever lines the process makes: until it has ended what it was asked it can make a
// line, it makes fewer than its bound before the one that ends it, and that one ends no other request.
pub fn solo_always_goes_on<V: ValueKind>()
    ensures { AlwaysGoesOn V }
{}

// Every machine of a run is sound for every process.
pub fn runs_are_sound<V>()
    ensures { RunsSound V }
{}

// At every step of a run without repeats in its KCSSs, a process stepped alone ends what it was asked within its bound.
pub fn runs_finish<V>()
    ensures { RunsFinish V }
{}

// At every step of a run, whatever the other processes are at and were asked, a process whose KCSS, if it runs one, does
// not repeat its first location ends its operation alone within its bound: until it has ended it can make a line, and
// whichever lines it makes, the bound counts enough of them.
pub fn runs_finish_alone<V: ValueKind>()
    ensures { RunsFinishAlone V }
{}
