// The lines on a sheet's operations. Uses the operations of `sheet` and the codes of `value`.
ghost use Rattle.std.specs.Prelude.{ℕ, List, Some, OnOk, map};
ghost use Rattle.std.specs.Fmt.{HasWritten, IsPlainFormatter};
ghost use Rattle.std.specs.Iterator.{Drains, IsFinite};
ghost use Rattle.std.specs.List.{flat_map};
ghost use Rattle.sheet.specs.Parts.{act_of, op_of};
ghost use Rattle.report.specs.Lines.{spaced, act_words};
ghost use Rattle.report.specs.Texts.{operations_text};

use sheet::{Action, Operation};
use std::fmt;
use value::ValueKind;

// Numbers, each after a blank.
fn write_spaced<W: fmt::Write, I: Iterator<Item = u64> + Drop>(
    f: &mut fmt::Formatter<W>,
    numbers: I,
) -> fmt::Result
    requires can { I.can_next numbers }
    requires finite { IsFinite (I.remaining numbers) }
    ensures { OnOk result ((ns : List ℕ) × Drains I.next_gives numbers ns × (IsPlainFormatter f.old → HasWritten W.write_str_gives f.old (flat_map spaced ns) f.new)) }
{
    for number in numbers {
        write!(f, " {number}")?;
    }
    Ok(())
}

// What an operation does.
#[derive(Clone, Copy)]
struct Words<'a, V>(&'a Action<V>);

impl<V: ValueKind> fmt::Display for Words<'_, V> {
    ghost output = { λ words. Some (act_words V.coded (act_of words.0.now)) };

    fn fmt<W: fmt::Write>(&self, f: &mut fmt::Formatter<W>) -> fmt::Result {
        match self.0 {
            Action::Read(location) => write!(f, "READ {location}"),
            Action::Ll(location) => write!(f, "LL {location}"),
            Action::Sc { location, new } => {
                let code = new.code();
                write!(f, "SC {location}, new {code}")
            }
            Action::Snapshot(locations) => {
                write!(f, "SNAPSHOT")?;
                write_spaced(f, locations.iter().map(|location| u64::from(*location)))
            }
            Action::Kcss { new, operands } => {
                write!(f, "KCSS")?;
                write_spaced(
                    f,
                    operands.iter().map(|operand| u64::from(operand.location)),
                )?;
                write!(f, ", expecting")?;
                write_spaced(f, operands.iter().map(|operand| operand.expected.code()))?;
                let code = new.code();
                write!(f, ", new {code}")
            }
        }
    }
}

// The operations, counted from 1.
#[derive(Clone, Copy)]
pub(crate) struct Operations<'a, V>(pub &'a [Operation<V>]);

impl<V: ValueKind> fmt::Display for Operations<'_, V> {
    ghost output = { λ list. Some (operations_text V.coded (map op_of list.0.now)) };

    fn fmt<W: fmt::Write>(&self, f: &mut fmt::Formatter<W>) -> fmt::Result {
        writeln!(f, "operations")?;
        for (i, operation) in self.0.iter().enumerate() {
            let number = i + 1;
            let process = operation.process;
            let words = Words(&operation.action);
            writeln!(f, "  {number}: process {process}, {words}")?;
        }
        Ok(())
    }
}
