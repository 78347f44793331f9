// The value-kind trait. Generic code is proved from the laws below and from nothing else, so it serves
// every kind that keeps them.
ghost use Rattle.std.specs.Prelude.{◌≡◌, ℕ, ◌-◌, ◌^◌, ◌<◌, ◌≤◌, Some, Decides, Option};

// A kind of values. Each value has a code, a whole number; a code gives back one value or none. Two values
// are the same exactly when their codes are equal.
pub trait ValueKind: Copy + Drop {
    // The number by which a run sheet names the kind.
    const KIND: u8;

    // No value's code passes this one.
    const GREATEST_CODE: u64;

    // the kind number
    ghost KIND: { ℕ };

    // the greatest code
    ghost GREATEST_CODE: { ℕ };

    // the code of a value
    ghost coded: { Self → ℕ };

    // the value of a code, if it has one
    ghost decoded: { ℕ → Option Self };

    // The code of this value.
    fn code(&self) -> u64
        ensures { result ≡ coded self.now };

    // The value that has this code, if there is one.
    fn from_code(code: u64) -> Option<Self>
        ensures { result ≡ decoded code };

    // Whether the two are the same value: by their codes, where a kind does not compare its own fields.
    fn same(&self, other: &Self) -> bool
        ensures { Decides result (coded self.now ≡ coded other.now) }
    {
        self.code() == other.code()
    }

    // a value's code gives that value back
    ghost returned: { (v : Self) → decoded (coded v) ≡ Some v };

    // a value got from a code has that code
    ghost kept: { (c : ℕ) (v : Self) → decoded c ≡ Some v → coded v ≡ c };

    // no value's code passes the greatest
    ghost bounded: { (v : Self) → coded v ≤ GREATEST_CODE };

    // the greatest code is at most 2^63 - 1
    ghost capped: { GREATEST_CODE ≤ 2 ^ 63 - 1 };

    // the kind number fits a byte
    ghost numbered: { KIND < 256 };
}
