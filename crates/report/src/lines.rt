// The lines on a sheet's initial values and its schedule. Uses the schedule's items of `sheet` and the codes
// of `value`.
ghost use Rattle.std.specs.Prelude.{Some};
ghost use Rattle.report.specs.Texts.{values_text, script_text};

use sheet::ScriptItem;
use std::fmt;
use value::ValueKind;

// The initial values.
#[derive(Clone, Copy)]
pub(crate) struct Values<'a, V>(pub &'a [V]);

impl<V: ValueKind> fmt::Display for Values<'_, V> {
    ghost output = { λ list. Some (values_text V.coded list.0.now) };

    fn fmt<W: fmt::Write>(&self, f: &mut fmt::Formatter<W>) -> fmt::Result {
        writeln!(f, "initial values")?;
        for (location, value) in self.0.iter().enumerate() {
            let code = value.code();
            writeln!(f, "  location {location}: code {code}")?;
        }
        Ok(())
    }
}

// The schedule, its turns counted from 1. A start names the operation that comes after those that were started
// before.
#[derive(Clone, Copy)]
pub(crate) struct Schedule<'a>(pub &'a [ScriptItem]);

impl fmt::Display for Schedule<'_> {
    ghost output = { λ list. Some (script_text list.0.now) };

    fn fmt<W: fmt::Write>(&self, f: &mut fmt::Formatter<W>) -> fmt::Result {
        writeln!(f, "schedule")?;
        // This counts starts, and is no index.
        let mut started = 0usize;
        for (i, item) in self.0.iter().enumerate() {
            let turn = i + 1;
            match item {
                ScriptItem::Start => {
                    started += 1;
                    writeln!(f, "  {turn}: start operation {started}")?;
                }
                ScriptItem::Step(process) => writeln!(f, "  {turn}: step process {process}")?,
            }
        }
        Ok(())
    }
}
