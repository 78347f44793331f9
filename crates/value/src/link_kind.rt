// Links as a value kind: kind 2, nothing with code 0 and a node with code 2 * node + mark.
ghost use Rattle.value.specs.Codes.{link_code, link_of};
ghost use Rattle.std.specs.Prelude.{refl};
ghost use Rattle.value.specs.declared.link.Link.TheVariants.{Nothing, To};
ghost use Rattle.value.specs.Decoded.{link_at, nothing_at};
ghost use Rattle.std.proofs.Common.{rules};

use crate::kind::ValueKind;
use crate::link::{Link, Node};

impl ValueKind for Link {
    const KIND: u8 = 2;

    const GREATEST_CODE: u64 = 131_071;

    ghost coded = { link_code };

    ghost decoded = { link_of };

    ghost KIND = { 2 };

    ghost GREATEST_CODE = { 131071 };

    ghost returned = { elim [
      | Nothing ↦ nothing_at
      | To n ↦ link_at _ n.number n.deleted n.named n.fits refl
    ] };

    ghost kept = { Prim.search rules };

    ghost bounded = { Prim.search rules };

    ghost capped = { Prim.search rules };

    ghost numbered = { Prim.search rules };

    fn code(&self) -> u64 {
        match self {
            Link::Nothing => 0,
            Link::To(node) => 2 * u64::from(node.number) + u64::from(node.deleted),
        }
    }

    fn from_code(code: u64) -> Option<Link> {
        if code == 0 {
            return Some(Link::Nothing);
        }
        if code == 1 || code > Self::GREATEST_CODE {
            return None;
        }
        // `as` narrows, and is proved to lose nothing.
        Some(Link::To(Node {
            number: (code / 2) as u16,
            deleted: code % 2 == 1,
        }))
    }

    // By the fields, and not by the codes: that the two say the same is proved here, of this kind.
    fn same(&self, other: &Link) -> bool {
        self == other
    }
}
