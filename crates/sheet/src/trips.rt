// The two round trips, for every kind of values: what is written is read back, and what is read is written
// back byte for byte.
ghost use Rattle.std.specs.Prelude.{ℕ, List};
ghost use Rattle.sheet.specs.Parts.{Parts};
ghost use Rattle.sheet.specs.RoundTrip.{WriteThenRead, ReadThenWrite};

use value::ValueKind;

// Says that both round trips hold.
pub fn round_trips<V: ValueKind>()
    ensures writing { (p : Parts V) (out : List ℕ) → WriteThenRead V.coded V.decoded V.KIND p out }
    ensures reading { (bytes : List ℕ) → ReadThenWrite V.coded V.decoded V.KIND bytes }
{}
