// Reading what a sheet holds many of: values, operands, locations, script items, each kind in its own width.
ghost use Rattle.std.specs.Prelude.{◌≡◌, ℕ, ◌+◌, ◌*◌, ◌≤◌, true, List, Ok, Result, length, is_ok};
ghost use Rattle.sheet_format.specs.declared.fault.SheetFault.{SheetFault};
ghost use Rattle.sheet_format.specs.Bytes.{field};
ghost use Rattle.sheet_format.specs.Faults.{NeedsMemory, Reads};
ghost use Rattle.sheet_format.specs.Reading.{row_answer, value_answer, operand_answer, item_answer};

use crate::bytes::{code_at, location_at};
use sheet_format::{Operand, ReadError, ScriptItem, SheetFault, SheetRefusal};
use std::alloc::Global;
use std::marker::PhantomData;
use value::ValueKind;

// A kind of things of which a sheet holds many, one after another. The items' own types do not have it: an impl
// for all kinds of values would overlap with the others, and a location of two bytes stands in a place of ten.
pub(crate) trait Row {
    type Item: Drop;

    // How many bytes each takes.
    const WIDTH: usize;

    // how many bytes each takes
    ghost WIDTH: { ℕ };

    // what the one at a place of these bytes gives
    ghost answer: { List ℕ → ℕ → Result Self.Item SheetFault };

    // The one at `at`.
    fn read_one(bytes: &[u8], at: usize) -> Result<Self::Item, SheetFault>
        requires { at + WIDTH ≤ length bytes.now }
        ensures { result ≡ answer bytes.now at };
}

// So many from `at` on. Memory can be wanting only once the first was right.
pub(crate) fn read_row<R: Row>(
    heap: Global,
    bytes: &[u8],
    at: usize,
    count: usize,
) -> Result<Vec<R::Item>, ReadError>
    requires { at + R.WIDTH * count ≤ length bytes.now }
    ensures answer { Reads (λ v. v.items) result (row_answer (R.answer bytes.now) R.WIDTH at count) }
    ensures memory { NeedsMemory result (is_ok (R.answer bytes.now at) ≡ true) }
{
    let mut items = Vec::new(heap);
    // A loop, since `try_collect` does not say that memory is asked for only once an item was right.
    for i in 0..count {
        let item = R::read_one(bytes, at + R::WIDTH * i)?;
        items.push(item)?;
    }
    Ok(items)
}

// The value whose code stands at `at`.
pub(crate) fn read_value<V: ValueKind>(bytes: &[u8], at: usize) -> Result<V, SheetFault>
    requires { at + 8 ≤ length bytes.now }
    ensures { result ≡ value_answer V.decoded bytes.now at }
{
    V::from_code(code_at(bytes, at)).ok_or(SheetFault::new(SheetRefusal::WrongCode, at))
}

// Values, each as its code.
pub(crate) struct Values<V>(PhantomData<V>);

impl<V: ValueKind> Row for Values<V> {
    type Item = V;

    const WIDTH: usize = 8;

    ghost WIDTH = { 8 };

    ghost answer = { value_answer V.decoded };

    fn read_one(bytes: &[u8], at: usize) -> Result<V, SheetFault> {
        read_value(bytes, at)
    }
}

// Operands: a location and the value expected there.
pub(crate) struct Operands<V>(PhantomData<V>);

impl<V: ValueKind> Row for Operands<V> {
    type Item = Operand<V>;

    const WIDTH: usize = 10;

    ghost WIDTH = { 10 };

    ghost answer = { operand_answer V.decoded };

    fn read_one(bytes: &[u8], at: usize) -> Result<Operand<V>, SheetFault> {
        Ok(Operand {
            location: location_at(bytes, at),
            expected: read_value(bytes, at + 2)?,
        })
    }
}

// The locations of operands whose expected codes are not used.
pub(crate) struct Locations;

impl Row for Locations {
    type Item = u16;

    const WIDTH: usize = 10;

    ghost WIDTH = { 10 };

    ghost answer = { λ bytes at. Ok (field bytes at 2) };

    fn read_one(bytes: &[u8], at: usize) -> Result<u16, SheetFault> {
        Ok(location_at(bytes, at))
    }
}

// Script items, a byte each.
pub(crate) struct Script;

impl Row for Script {
    type Item = ScriptItem;

    const WIDTH: usize = 1;

    ghost WIDTH = { 1 };

    ghost answer = { item_answer };

    fn read_one(bytes: &[u8], at: usize) -> Result<ScriptItem, SheetFault> {
        match bytes[at] {
            255 => Ok(ScriptItem::Start),
            process if process < 32 => Ok(ScriptItem::Step(process)),
            _ => Err(SheetFault::new(SheetRefusal::WrongScript, at)),
        }
    }
}
