// The kinds of things of which a sheet holds many, as they are put into an output. Their types see to it that the
// locations fit their two bytes. Uses the output, what writing asks of actions and script items, and the types of
// `sheet_format`.
ghost use Rattle.std.specs.Prelude.{◌≡◌, ℕ, ◌<◌, ◌≤◌, List, [], ◌∷◌, ⊤, IsTrue};
ghost use Rattle.std.specs.List.{flat_map, AllByRecursion};
ghost use Rattle.sheet_format.specs.Format.{item_byte, expected_bytes, operand_bytes, operands_bytes, op_bytes, value_bytes, act_count};
ghost use Rattle.sheet_format.specs.Parts.{act_of, op_of, Fitting};
ghost use Rattle.sheet_format.specs.Writing.{writable};
ghost use Rattle.sheet_writer.specs.Puts.{Room, Puts, field_bytes};

use crate::action::{action_count, action_kind, item_byte, new_code};
use crate::output::Output;
use sheet_format::{Action, Operand, Operation, ScriptItem};
use std::marker::PhantomData;
use value::ValueKind;

// A kind of things of which a sheet holds many, one after another. The items' own types do not have it: an impl
// for all kinds of values would overlap with the others.
pub(crate) trait Row {
    type Item;

    // an item's bytes
    ghost bytes: { Self.Item → List ℕ };

    // what has to hold of an item
    ghost Allowed: { Self.Item → Type 0 } = { λ _. ⊤ };

    // what an item's type sees to
    ghost Fits: { Self.Item → Type 0 } = { λ _. ⊤ };

    // Puts an item's bytes.
    fn put_one(item: &Self::Item, output: &mut Output<'_>)
        requires room { Room output.old (bytes item.now) }
        requires allowed { Allowed item.now }
        ensures puts { Puts output.old (bytes item.now) output.new }
        ensures fits { Fits item.now };
}

// Numbers, each with the count of its bytes.
pub(crate) struct Fields;

impl Row for Fields {
    type Item = (usize, u64);

    ghost bytes = { field_bytes };

    ghost Allowed = { λ field. field.0 ≤ 8 };

    fn put_one(item: &(usize, u64), output: &mut Output<'_>) {
        output.put_number(item.0, item.1);
    }
}

// Values, each as its code.
pub(crate) struct Values<V>(PhantomData<V>);

impl<V: ValueKind> Row for Values<V> {
    type Item = V;

    ghost bytes = { value_bytes V.coded };

    fn put_one(item: &V, output: &mut Output<'_>) {
        output.put_number(8, item.code());
    }
}

// Locations where no value is expected.
pub(crate) struct Locations;

impl Row for Locations {
    type Item = u16;

    ghost bytes = { λ location. operand_bytes location 0 };

    ghost Fits = { λ location. location < 65536 };

    fn put_one(item: &u16, output: &mut Output<'_>) {
        output.put_operand(*item, 0);
    }
}

// Operands: a location and the value expected there.
pub(crate) struct Operands<V>(PhantomData<V>);

impl<V: ValueKind> Row for Operands<V> {
    type Item = Operand<V>;

    ghost bytes = { expected_bytes V.coded };

    ghost Fits = { λ operand. operand.location < 65536 };

    fn put_one(item: &Operand<V>, output: &mut Output<'_>) {
        output.put_operand(item.location, item.expected.code());
    }
}

// Operations: kind, process, count, a zero byte, the new code and the operands.
pub(crate) struct Operations<V>(PhantomData<V>);

impl<V: ValueKind> Row for Operations<V> {
    type Item = Operation<V>;

    ghost bytes = { λ operation. op_bytes V.coded (op_of operation) };

    ghost Allowed = { λ operation. act_count (act_of operation.action) < 256 };

    ghost Fits = { λ operation. Fitting (act_of operation.action) };

    fn put_one(item: &Operation<V>, output: &mut Output<'_>) {
        let Operation { process, action } = item;
        let kind = u8::from(action_kind(action));
        // `as` narrows, and is proved to lose nothing.
        output.put(&[kind, *process, action_count(action) as u8, 0]);
        output.put_number(8, new_code(action));
        output.put_operands(action);
    }
}

// Script items, a byte each.
pub(crate) struct Script;

impl Row for Script {
    type Item = ScriptItem;

    ghost bytes = { λ item. item_byte item ∷ [] };

    ghost Allowed = { λ item. IsTrue (writable item) };

    fn put_one(item: &ScriptItem, output: &mut Output<'_>) {
        if let Some(byte) = item_byte(item) {
            output.put(&[byte]);
        }
    }
}

impl Output<'_> {
    // Puts items one after another.
    pub(crate) fn put_all<R: Row>(&mut self, items: &[R::Item])
        requires room { Room self.old (flat_map R.bytes items.now) }
        requires allowed { AllByRecursion R.Allowed items.now }
        ensures puts { Puts self.old (flat_map R.bytes items.now) self.new }
        ensures fits { AllByRecursion R.Fits items.now }
    {
        for item in items {
            R::put_one(item, self);
        }
    }

    // A location and an expected code.
    fn put_operand(&mut self, location: u16, code: u64)
        requires { Room self.old (operand_bytes location code) }
        ensures puts { Puts self.old (operand_bytes location code) self.new }
        ensures fits { location < 65536 }
    {
        self.put_number(2, u64::from(location));
        self.put_number(8, code);
    }

    // The locations that an action names, with the codes that it expects there.
    fn put_operands<V: ValueKind>(&mut self, action: &Action<V>)
        requires { Room self.old (operands_bytes V.coded (act_of action.now)) }
        ensures puts { Puts self.old (operands_bytes V.coded (act_of action.now)) self.new }
        ensures fits { Fitting (act_of action.now) }
    {
        match action {
            Action::Read(location) | Action::Ll(location) | Action::Sc { location, .. } => {
                self.put_operand(*location, 0)
            }
            Action::Snapshot(locations) => self.put_all::<Locations>(locations),
            Action::Kcss { operands, .. } => self.put_all::<Operands<V>>(operands),
        }
    }
}
