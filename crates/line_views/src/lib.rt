// A state of the code of the lines, seen in a world of the relation of crate protocol: definitions alone, of which
// `lines_lawful` and `steps_lawful` both speak.
// Uses `lines`, `phases`, `operation` and `protocol`.
#![tactic(auto)]
