// The five kinds of operations, with their numbers.
ghost use Rattle.std.specs.Prelude.{◌≡◌, Some};
ghost use Rattle.operation.specs.Kinds.{kind_number, known_kind, unknown_kind_line, counted, takes_new, takes_expected};

use std::error::Error;
use std::fmt;

#[derive(Clone, Copy, Debug, PartialEq, Eq)]
pub enum OperationKind {
    Read = 1,
    Ll = 2,
    Sc = 3,
    Snapshot = 4,
    Kcss = 5,
}

// A number that no kind of operations has.
#[derive(Clone, Copy, Debug, PartialEq, Eq)]
pub struct UnknownKind {
    pub number: u8,
}

impl fmt::Display for UnknownKind {
    ghost output = { λ unknown. Some (unknown_kind_line unknown) };

    fn fmt<W: fmt::Write>(&self, f: &mut fmt::Formatter<W>) -> fmt::Result {
        write!(f, "no kind of operations has the number {}", self.number)
    }
}

impl Error for UnknownKind {}

// The number of a kind, which `as` takes from the enum.
impl From<OperationKind> for u8 {
    ghost from_gives = { λ kind number. number ≡ kind_number kind };

    fn from(kind: OperationKind) -> u8 {
        kind as u8
    }
}

// The kind that has a number, if there is one.
impl TryFrom<u8> for OperationKind {
    type Error = UnknownKind;

    ghost try_from_gives = { λ number kind. kind ≡ known_kind number };

    fn try_from(number: u8) -> Result<OperationKind, UnknownKind> {
        match number {
            1 => Ok(OperationKind::Read),
            2 => Ok(OperationKind::Ll),
            3 => Ok(OperationKind::Sc),
            4 => Ok(OperationKind::Snapshot),
            5 => Ok(OperationKind::Kcss),
            _ => Err(UnknownKind { number }),
        }
    }
}

impl OperationKind {
    // Whether an operation of this kind may name so many locations.
    pub fn counts(&self, count: usize) -> bool
        ensures { result ≡ counted self.now count }
    {
        match self {
            OperationKind::Read | OperationKind::Ll | OperationKind::Sc => count == 1,
            OperationKind::Snapshot | OperationKind::Kcss => (1..=16).contains(&count),
        }
    }

    // Whether an operation of this kind is given a new value.
    pub fn takes_new(&self) -> bool
        ensures { result ≡ takes_new self.now }
    {
        matches!(self, OperationKind::Sc | OperationKind::Kcss)
    }

    // Whether an operation of this kind is given expected values.
    pub fn takes_expected(&self) -> bool
        ensures { result ≡ takes_expected self.now }
    {
        *self == OperationKind::Kcss
    }
}
