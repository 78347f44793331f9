// Looking at an operand: whether a collect left it undisturbed, and whether its value is as expected.
// Uses value kinds and operands. These stand beside the type and not on it, since it is crate phases': a trait for
// two private questions would be longer.
ghost use Rattle.std.specs.Prelude.{◌≡◌};
ghost use Rattle.lines.specs.Comparing.{same_values, still, meets};

use phases::Operand;
use value::ValueKind;

// Whether both hold the same value; nothing is the same as nothing that is not there. By `same`, since a kind need not
// have `==`.
fn same_values<V: ValueKind>(a: Option<V>, b: Option<V>) -> bool
    ensures { result ≡ same_values V.coded a b }
{
    a.zip(b).is_some_and(|(x, y)| x.same(&y))
}

// Whether both ids and both values of an operand are the same.
pub(crate) fn is_still<V: ValueKind>(operand: &Operand<V>) -> bool
    ensures { result ≡ still V.coded operand.now }
{
    operand.first_id == operand.second_id && same_values(operand.first, operand.second)
}

// Whether the value that was collected first is the expected one.
pub(crate) fn is_met<V: ValueKind>(operand: &Operand<V>) -> bool
    ensures { result ≡ meets V.coded operand.now }
{
    same_values(operand.first, operand.expected)
}
