// What reading and writing both ask of a schedule.
ghost use Rattle.std.specs.Prelude.{◌≡◌};
ghost use Rattle.sheet_format.specs.Reading.{starts};

use crate::parts::ScriptItem;

// How many items start an operation. A loop, since `filter` and `count` take half as long again and more over a long
// schedule.
pub fn start_count(items: &[ScriptItem]) -> usize
    ensures { result ≡ starts items.now }
{
    let mut count = 0;
    for item in items {
        if let ScriptItem::Start = item {
            count += 1;
        }
    }
    count
}
