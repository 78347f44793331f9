// Reading and writing as methods of a sheet. Uses what `sheet_reader` and `sheet_writer` offer.
ghost use Rattle.std.specs.Prelude.{◌≡◌, ℕ, List, length, take, IfOk, Ok, Result};
ghost use Rattle.sheet_format.specs.declared.fault.ReadError.{ReadError};
ghost use Rattle.sheet_format.specs.declared.fault.SheetFault.{SheetFault};
ghost use Rattle.sheet.specs.Faults.{Reads, NeedsMemory};
ghost use Rattle.sheet.specs.Parts.{parts_of};
ghost use Rattle.sheet.specs.Reading.{Keeps, read_answer};
ghost use Rattle.sheet.specs.RoundTrip.{GivesBack};
ghost use Rattle.sheet.specs.Writing.{write_answer, write_after};

use sheet_format::{ReadError, Sheet, SheetFault};
use std::alloc::Global;
use value::ValueKind;

// What is read from bytes and written to bytes.
pub trait SheetBytes: Sized {
    // what reading may answer on these bytes
    ghost reads: { List ℕ → Result Self ReadError → Type 0 };

    // what writing answers for an output of this length
    ghost writes: { Self → ℕ → Result ℕ SheetFault };

    // the output after writing
    ghost leaves: { Self → List ℕ → List ℕ };

    fn read(heap: Global, bytes: &[u8]) -> Result<Self, ReadError>
        ensures answer { reads bytes.now result };

    fn write(&self, out: &mut [u8]) -> Result<usize, SheetFault>
        ensures answer { result ≡ writes self.now (length out.old) }
        ensures after { out.new ≡ leaves self.now out.old };
}

impl<V: ValueKind> SheetBytes for Sheet<V> {
    ghost reads = { λ bytes r. Reads parts_of r (read_answer V.decoded bytes V.KIND) };

    ghost writes = { λ sheet room. write_answer (parts_of sheet) room };

    ghost leaves = { λ sheet out. write_after (parts_of sheet) V.coded V.KIND out };

    // The sheet that the bytes hold, or why they hold none. Writing the sheet gives the bytes back. Memory can
    // be wanting only once the header was found right and the first code gave a value.
    fn read(heap: Global, bytes: &[u8]) -> Result<Sheet<V>, ReadError>
        ensures answer { Reads parts_of result (read_answer V.decoded bytes.now V.KIND) }
        ensures memory { NeedsMemory result (Keeps V.decoded bytes.now V.KIND) }
        ensures returns { IfOk result (λ sheet. GivesBack V.coded V.KIND (parts_of sheet) bytes.now) }
    {
        sheet_reader::read(heap, bytes)
    }

    // Writes the sheet's bytes to the front of `out`, and returns how many they are. Reading them gives the
    // sheet back.
    fn write(&self, out: &mut [u8]) -> Result<usize, SheetFault>
        ensures answer { result ≡ write_answer (parts_of self.now) (length out.old) }
        ensures after { out.new ≡ write_after (parts_of self.now) V.coded V.KIND out.old }
        ensures returns { IfOk result (λ n. read_answer V.decoded (take n out.new) V.KIND ≡ Ok (parts_of self.now)) }
    {
        sheet_writer::write(self, out)
    }
}
