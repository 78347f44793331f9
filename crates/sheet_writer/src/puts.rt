// The header of a sheet and a whole sheet, as they are put into an output. Uses the output, its rows, and the
// types of `sheet_format`.
ghost use Rattle.std.specs.Prelude.{◌≡◌, Ok};
ghost use Rattle.sheet_format.specs.Format.{header_bytes, sheet_bytes, total};
ghost use Rattle.sheet_format.specs.Parts.{parts_of, AllFitting};
ghost use Rattle.sheet_format.specs.Writing.{layout_answer};
ghost use Rattle.sheet_writer.specs.Puts.{Room, Puts};

use crate::output::Output;
use crate::rows::{Fields, Operations, Script, Values};
use sheet_format::{HEADER_LENGTH, Sheet};
use value::ValueKind;

impl Output<'_> {
    // The header of a sheet whose bytes end at `end`: version, kind, three counts, three places and the whole
    // length, each with the count of its bytes.
    fn put_header<V: ValueKind>(&mut self, sheet: &Sheet<V>, end: usize)
        requires room { Room self.old (header_bytes V.coded V.KIND (parts_of sheet.now)) }
        requires whole { end ≡ total (parts_of sheet.now) }
        ensures { Puts self.old (header_bytes V.coded V.KIND (parts_of sheet.now)) self.new }
    {
        // Lengths and places are `usize`, which has no `From` to `u64`.
        let locations = sheet.initial.len();
        let items = sheet.script.len();
        self.put_all::<Fields>(&[
            (1, 1),
            (1, u64::from(V::KIND)),
            (2, locations as u64),
            (2, u64::from(sheet.processes)),
            (2, items as u64),
            (4, HEADER_LENGTH as u64),
            (4, (HEADER_LENGTH + 8 * locations) as u64),
            (4, (end - items) as u64),
            (4, end as u64),
        ]);
    }

    // A whole sheet, whose bytes end at `end` as its layout says.
    pub(crate) fn put_sheet<V: ValueKind>(&mut self, sheet: &Sheet<V>, end: usize)
        requires room { Room self.old (sheet_bytes V.coded V.KIND (parts_of sheet.now)) }
        requires laid { layout_answer (parts_of sheet.now) ≡ Ok end }
        ensures puts { Puts self.old (sheet_bytes V.coded V.KIND (parts_of sheet.now)) self.new }
        ensures fits { AllFitting (parts_of sheet.now).operations }
    {
        self.put_header(sheet, end);
        self.put_all::<Values<V>>(&sheet.initial);
        self.put_all::<Operations<V>>(&sheet.operations);
        self.put_all::<Script>(&sheet.script);
    }
}
