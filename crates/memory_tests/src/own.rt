// A kind and a memory as somebody else may write them: the kind has no `==` and takes the `same` that the trait
// provides, the memory says nothing beyond the interface. Uses the value kinds, the memories and what the tests share.
ghost use Rattle.std.specs.Prelude.{◌≡◌, ◌-◌, ◌^◌, Some, option_map};
ghost use Rattle.std.proofs.Common.{ap, rules};
ghost use Rattle.value.specs.Codes.{number_of};
ghost use Rattle.value.specs.Decoded.{number_at};

use crate::support::{cas, fits, holds, store};
use memory::{Cell, Limits, Memory, MemoryFault};
use open_memory::OpenMemory;
use std::test::Fail;
use value::{Number, ValueKind};

// A number, as a kind of its own.
#[derive(Clone, Copy)]
pub struct Plain {
    pub number: Number,
}

impl ValueKind for Plain {
    const KIND: u8 = 1;

    const GREATEST_CODE: u64 = 0x7fff_ffff_ffff_ffff;

    ghost KIND = { 1 };

    ghost GREATEST_CODE = { 2 ^ 63 - 1 };

    ghost coded = { λ v. v.number.value };

    ghost decoded = { λ c. option_map (λ n. record { number = n }) (number_of c) };

    ghost returned = { λ v. ap (option_map (λ n. record { number = n })) (number_at v.number.value v.number.small) };

    ghost kept = { Prim.search rules };

    ghost bounded = { Prim.search rules };

    ghost capped = { Prim.search rules };

    ghost numbered = { Prim.search rules };

    fn code(&self) -> u64 {
        self.number.code()
    }

    fn from_code(code: u64) -> Option<Plain> {
        Number::from_code(code).map(|number| Plain { number })
    }
}

// The memory below, as it is.
#[derive(Drop)]
pub struct Wrapped<M> {
    pub inner: M,
}

impl<V: ValueKind, M: Memory<V>> Memory<V> for Wrapped<M> {
    ghost cells = { λ m. M.Memory.cells m.inner };

    ghost limits = { λ m. M.Memory.limits m.inner };

    ghost few = { λ m. M.Memory.few m.inner };

    fn len(&self) -> usize {
        self.inner.len()
    }

    fn limits(&self) -> Limits {
        self.inner.limits()
    }

    fn load(&self, i: usize) -> Result<Cell<V>, MemoryFault> {
        self.inner.load(i)
    }

    fn store(&mut self, i: usize, cell: &Cell<V>) -> Result<(), MemoryFault> {
        self.inner.store(i, cell)
    }

    fn cas(&mut self, i: usize, old: &Cell<V>, new: &Cell<V>) -> Result<bool, MemoryFault> {
        self.inner.cas(i, old, new)
    }
}

fn in_plain(value: u32) -> Cell<Plain> {
    Cell::Value(Plain {
        number: Number {
            value: u64::from(value),
        },
    })
}

// An open memory of plain values in a memory of one's own.
#[test]
fn own_kind_in_own_memory(rt: HostRuntime) {
    let mut table = [in_plain(5), in_plain(7)];
    let mut memory = Wrapped {
        inner: OpenMemory { cells: &mut table },
    };
    assert!(rt; memory.len() == 2);
    assert_eq!(rt; fits(&memory, &in_plain(8)), Ok(()));
    assert_eq!(rt; cas(&mut memory, 0, &in_plain(6), &in_plain(9)), Ok(false));
    assert_eq!(rt; cas(&mut memory, 0, &in_plain(5), &in_plain(9)), Ok(true));
    assert_eq!(rt; store(&mut memory, 1, &in_plain(8)), Ok(()));
    assert_eq!(rt; store(&mut memory, 2, &in_plain(8)), Err((1, 1, 2)));
    assert_eq!(rt; holds(&memory, 0, &in_plain(9)), Ok(true));
    assert_eq!(rt; holds(&memory, 1, &in_plain(7)), Ok(false));
}
