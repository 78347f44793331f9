// The whole report: the bytes are read as a sheet of links or of numbers, and described or refused. Uses the
// reader of `sheet`, the two kinds of `value` and the lines of this crate.
ghost use Rattle.std.specs.Prelude.{◌≡◌, true, false, ◌++◌, length, is_ok, IfOk, Ok, Some};
ghost use Rattle.sheet.specs.Parts.{parts_of};
ghost use Rattle.sheet.specs.Reading.{read_answer};
ghost use Rattle.sheet.specs.RoundTrip.{GivesBack};
ghost use Rattle.report.specs.Lines.{again_line, refusal_line};
ghost use Rattle.report.specs.Texts.{Reports, parts_text, answer_text, is_links, report_text, is_accepted};

use crate::again::written_again;
use crate::answer::Report;
use crate::lines::{Schedule, Values};
use crate::operations::Operations;
use sheet::{ReadError, Sheet, SheetFault};
use std::alloc::{AllocError, Global};
use std::fmt;
use value::{Link, Number, ValueKind};

// What a sheet of this length says.
#[derive(Clone, Copy)]
struct Description<'a, V> {
    sheet: &'a Sheet<V>,
    long: usize,
}

impl<V: ValueKind> fmt::Display for Description<'_, V> {
    ghost output = { λ d. Some (parts_text V.coded V.KIND d.long (parts_of d.sheet.now)) };

    fn fmt<W: fmt::Write>(&self, f: &mut fmt::Formatter<W>) -> fmt::Result {
        let Sheet {
            initial,
            processes,
            operations,
            script,
        } = self.sheet;
        let long = self.long;
        writeln!(f, "run sheet, {long} bytes")?;
        let kind = V::KIND;
        let locations = initial.len();
        let items = script.len();
        writeln!(
            f,
            "version 1, kind {kind}, {locations} locations, {processes} processes, {items} script items"
        )?;
        let values = Values(initial);
        let operations = Operations(operations);
        let schedule = Schedule(script);
        write!(f, "{values}{operations}{schedule}")
    }
}

// The report on a sheet that was read from these bytes.
fn report_sheet<V: ValueKind>(
    heap: Global,
    sheet: &Sheet<V>,
    bytes: &[u8],
) -> Result<Report, AllocError>
    requires { GivesBack V.coded V.KIND (parts_of sheet.now) bytes.now }
    ensures { IfOk result (λ t. Reports t (answer_text V.coded V.KIND (length bytes.now) (Ok (parts_of sheet.now))) true) }
{
    let long = bytes.len();
    let description = Description { sheet, long };
    let again = written_again(heap, sheet, bytes)?;
    let came = again.len();
    let verdict = if again.as_slice() == bytes {
        "the same"
    } else {
        "different"
    };
    // The bytes that came are given back before the text is made, so the two are never held together.
    drop(again);
    let text = format!(in heap; "{description}written again, {came} bytes: {verdict}\n")?;
    Ok(Report {
        text,
        accepted: true,
    })
}

// The report on a sheet that was refused.
fn report_refusal(heap: Global, fault: SheetFault) -> Result<Report, AllocError>
    ensures { IfOk result (λ t. Reports t (refusal_line fault) false) }
{
    let text = format!(in heap; "refused: {fault}\n")?;
    Ok(Report {
        text,
        accepted: false,
    })
}

// The report on bytes that are read as a sheet of one kind of values.
fn report_of<V: ValueKind>(heap: Global, bytes: &[u8]) -> Result<Report, AllocError>
    ensures { IfOk result (λ t. Reports t (answer_text V.coded V.KIND (length bytes.now) (read_answer V.decoded bytes.now V.KIND)) (is_ok (read_answer V.decoded bytes.now V.KIND))) }
{
    match sheet::read::<V>(heap, bytes) {
        Ok(sheet) => report_sheet(heap, &sheet, bytes),
        Err(ReadError::Fault(fault)) => report_refusal(heap, fault),
        // `NoMemory` holds no `AllocError` that could be handed on, so it is named here.
        Err(ReadError::NoMemory) => Err(AllocError),
    }
}

// Whether the second byte is the number of the links.
fn is_links(bytes: &[u8]) -> bool
    ensures { result ≡ is_links bytes.now }
{
    bytes.get(1) == Some(&Link::KIND)
}

// The report on the bytes of a run sheet. A sheet whose second byte is the number of the links is read as one
// of links, and any other as one of numbers, whose reader refuses the numbers of other kinds.
pub fn report(heap: Global, bytes: &[u8]) -> Result<Report, AllocError>
    ensures { IfOk result (λ t. Reports t (report_text bytes.now) (is_accepted bytes.now)) }
{
    if is_links(bytes) {
        report_of::<Link>(heap, bytes)
    } else {
        report_of::<Number>(heap, bytes)
    }
}
