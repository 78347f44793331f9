// Writing a sheet again: that the bytes that were read come back is proved. Uses the writer of `sheet`.
ghost use Rattle.std.specs.Prelude.{◌≡◌, IfOk};
ghost use Rattle.sheet.specs.Parts.{parts_of};
ghost use Rattle.sheet.specs.RoundTrip.{GivesBack};

use sheet::Sheet;
use std::alloc::{AllocError, Global};
use value::ValueKind;

// What comes when a sheet is written into an output that is as long as the bytes that it was read from.
pub(crate) fn written_again<V: ValueKind>(
    heap: Global,
    sheet: &Sheet<V>,
    bytes: &[u8],
) -> Result<Vec<u8>, AllocError>
    requires { GivesBack V.coded V.KIND (parts_of sheet.now) bytes.now }
    ensures { IfOk result (λ came. came.items ≡ bytes.now) }
{
    let mut out = vec![in heap; 0u8; bytes.len()]?;
    // A sheet that is refused has no bytes, so 0 of them came; that this one is written is proved, so no error of its own
    // stands for it.
    let long = sheet::write(sheet, out.as_mut_slice()).unwrap_or(0);
    out.truncate(long);
    Ok(out)
}
