// Numbers as a value kind: kind 1, each number its own code.
ghost use Rattle.std.specs.Prelude.{◌≡◌, ◌-◌, ◌^◌};
ghost use Rattle.value.specs.Codes.{number_of};
ghost use Rattle.value.specs.Decoded.{number_at};
ghost use Rattle.std.proofs.Common.{rules};

use crate::kind::ValueKind;
use crate::number::Number;

impl ValueKind for Number {
    const KIND: u8 = 1;

    const GREATEST_CODE: u64 = 0x7fff_ffff_ffff_ffff;

    ghost coded = { λ v. v.value };

    ghost decoded = { number_of };

    ghost KIND = { 1 };

    ghost GREATEST_CODE = { 2 ^ 63 - 1 };

    ghost returned = { λ v. number_at v.value v.small };

    ghost kept = { Prim.search rules };

    ghost bounded = { Prim.search rules };

    ghost capped = { Prim.search rules };

    ghost numbered = { Prim.search rules };

    fn code(&self) -> u64 {
        self.value
    }

    fn from_code(code: u64) -> Option<Number> {
        if code > Self::GREATEST_CODE {
            return None;
        }
        Some(Number { value: code })
    }

    // By the fields, and not by the codes: that the two say the same is proved here, of this kind.
    fn same(&self, other: &Number) -> bool {
        self == other
    }
}
