// The values of kind 1.
ghost use Rattle.std.specs.Prelude.{◌^◌, ◌<◌};

// A number from 0 to 2^63 - 1.
#[derive(Clone, Copy, Debug, PartialEq, Eq)]
pub struct Number {
    pub value: u64,
    ghost small: { value < 2 ^ 63 },
}
