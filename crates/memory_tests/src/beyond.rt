// What the owner of a memory is told of a change beyond its cells and limits. A memory may say nothing there, so each that
// does is held to it here, by a call whose clauses write it out. Uses the value kinds and the memories.
ghost use Rattle.std.specs.Prelude.{◌≡◌};
ghost use Rattle.memory.specs.Rules.{table_stored, table_swapped};
ghost use Rattle.packed_memory.specs.Words.{word_of};
ghost use Rattle.spliced_memory.specs.Joined.{joined, SidesKept};

use crate::support::number;
use lent_memory::Lent;
use memory::{Cell, Memory, MemoryFault};
use narrow_memory::Narrow;
use open_memory::OpenMemory;
use packed_memory::PackedMemory;
use spliced_memory::Spliced;
use std::test::Fail;
use value::ValueKind;

pub fn open_store<'a, V: ValueKind>(
    m: &mut OpenMemory<'a, V>,
    i: usize,
    cell: &Cell<V>,
) -> Result<(), MemoryFault>
    ensures table { m.new.cells.now ≡ table_stored result m.old.cells.now i cell.now }
    ensures lender { m.new.cells.ghost_name ≡ m.old.cells.ghost_name }
{
    m.store(i, cell)
}

pub fn open_cas<'a, V: ValueKind>(
    m: &mut OpenMemory<'a, V>,
    i: usize,
    old: &Cell<V>,
    new: &Cell<V>,
) -> Result<bool, MemoryFault>
    ensures table { m.new.cells.now ≡ table_swapped result m.old.cells.now i new.now }
    ensures lender { m.new.cells.ghost_name ≡ m.old.cells.ghost_name }
{
    m.cas(i, old, new)
}

pub fn packed_store<'a, V: ValueKind>(
    m: &mut PackedMemory<'a, V>,
    i: usize,
    cell: &Cell<V>,
) -> Result<(), MemoryFault>
    ensures words { m.new.words.now ≡ table_stored result m.old.words.now i (word_of V.coded cell.now) }
    ensures lender { m.new.words.ghost_name ≡ m.old.words.ghost_name }
{
    m.store(i, cell)
}

pub fn packed_cas<'a, V: ValueKind>(
    m: &mut PackedMemory<'a, V>,
    i: usize,
    old: &Cell<V>,
    new: &Cell<V>,
) -> Result<bool, MemoryFault>
    ensures words { m.new.words.now ≡ table_swapped result m.old.words.now i (word_of V.coded new.now) }
    ensures lender { m.new.words.ghost_name ≡ m.old.words.ghost_name }
{
    m.cas(i, old, new)
}

pub fn spliced_store<V: ValueKind, A: Memory<V>, B: Memory<V>>(
    m: &mut Spliced<A, B>,
    i: usize,
    cell: &Cell<V>,
) -> Result<(), MemoryFault>
    ensures table { joined A.Memory.cells B.Memory.cells m.new ≡ table_stored result (joined A.Memory.cells B.Memory.cells m.old) i cell.now }
    ensures sides { SidesKept A.Memory.cells A.Memory.limits B.Memory.limits m.old m.new }
{
    m.store(i, cell)
}

pub fn spliced_cas<V: ValueKind, A: Memory<V>, B: Memory<V>>(
    m: &mut Spliced<A, B>,
    i: usize,
    old: &Cell<V>,
    new: &Cell<V>,
) -> Result<bool, MemoryFault>
    ensures table { joined A.Memory.cells B.Memory.cells m.new ≡ table_swapped result (joined A.Memory.cells B.Memory.cells m.old) i new.now }
    ensures sides { SidesKept A.Memory.cells A.Memory.limits B.Memory.limits m.old m.new }
{
    m.cas(i, old, new)
}

pub fn narrow_store<V: ValueKind, M: Memory<V>>(
    m: &mut Narrow<M>,
    i: usize,
    cell: &Cell<V>,
) -> Result<(), MemoryFault>
    ensures own { m.new.own ≡ m.old.own }
    ensures below { M.Memory.limits m.new.below ≡ M.Memory.limits m.old.below }
{
    m.store(i, cell)
}

pub fn narrow_cas<V: ValueKind, M: Memory<V>>(
    m: &mut Narrow<M>,
    i: usize,
    old: &Cell<V>,
    new: &Cell<V>,
) -> Result<bool, MemoryFault>
    ensures own { m.new.own ≡ m.old.own }
    ensures below { M.Memory.limits m.new.below ≡ M.Memory.limits m.old.below }
{
    m.cas(i, old, new)
}

pub fn lent_store<'a, V: ValueKind, M: Memory<V>>(
    m: &mut Lent<'a, M>,
    i: usize,
    cell: &Cell<V>,
) -> Result<(), MemoryFault>
    ensures inner { M.Memory.store_leaves m.old.memory.now i cell.now result m.new.memory.now }
    ensures lender { m.new.memory.ghost_name ≡ m.old.memory.ghost_name }
{
    m.store(i, cell)
}

pub fn lent_cas<'a, V: ValueKind, M: Memory<V>>(
    m: &mut Lent<'a, M>,
    i: usize,
    old: &Cell<V>,
    new: &Cell<V>,
) -> Result<bool, MemoryFault>
    ensures inner { M.Memory.cas_leaves m.old.memory.now i new.now result m.new.memory.now }
    ensures lender { m.new.memory.ghost_name ≡ m.old.memory.ghost_name }
{
    m.cas(i, old, new)
}

// The table of an open memory, after a Store and a CAS, as its owner finds it.
#[test]
fn owner_finds_the_table(rt: HostRuntime) {
    let mut table = [number(1), number(2), number(3)];
    let mut memory = OpenMemory { cells: &mut table };
    assert_eq!(rt; open_store(&mut memory, 2, &number(4)), Ok(()));
    assert_eq!(rt; open_cas(&mut memory, 0, &number(1), &number(5)), Ok(true));
    assert_eq!(rt; table, [number(5), number(2), number(4)]);
}
