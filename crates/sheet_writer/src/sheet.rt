// Writing a run sheet. Every refusal comes before the first byte is written, so that an output is either
// left as it was or has the whole sheet at its front. Uses the layout and the output.
ghost use Rattle.std.specs.Prelude.{◌≡◌, length, take, IfOk, Ok};
ghost use Rattle.sheet_format.specs.Parts.{parts_of};
ghost use Rattle.sheet_format.specs.Reading.{read_answer};
ghost use Rattle.sheet_format.specs.Writing.{write_answer, write_after};

use crate::layout::layout;
use crate::output::Output;
use sheet_format::{Sheet, SheetFault, SheetRefusal};
use value::ValueKind;

// Writes a sheet's bytes to the front of `out`, and returns how many they are. Reading them gives the
// sheet back.
pub fn write<V: ValueKind>(sheet: &Sheet<V>, out: &mut [u8]) -> Result<usize, SheetFault>
    ensures answer { result ≡ write_answer (parts_of sheet.now) (length out.old) }
    ensures after { out.new ≡ write_after (parts_of sheet.now) V.coded V.KIND out.old }
    ensures returns { IfOk result (λ n. read_answer V.decoded (take n out.new) V.KIND ≡ Ok (parts_of sheet.now)) }
{
    let end = layout(sheet)?;
    if out.len() < end {
        return Err(SheetFault::new(SheetRefusal::ShortOutput, end));
    }
    Output::new(out).put_sheet(sheet, end);
    Ok(end)
}
