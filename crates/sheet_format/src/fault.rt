// Faults of the sheet layer: which refusal, and where.
ghost use Rattle.std.specs.Prelude.{◌≡◌, Some};
ghost use Rattle.sheet_format.specs.declared.fault.ReadError.TheVariants.{NoMemory, Fault};
ghost use Rattle.sheet_format.specs.Faults.{fault, refusal_number};
ghost use Rattle.sheet_format.specs.Words.{refusal_words, fault_line, error_line};

use std::alloc::{AllocError, AllocFailed};
use std::error::Error;
use std::fmt;

// Why a sheet was not read or not written. The rules give each refusal the number by which it is told.
#[derive(Clone, Copy, Debug, PartialEq, Eq)]
pub enum SheetRefusal {
    WrongLength = 20,
    WrongHeader = 21,
    WrongOffset = 22,
    WrongOperation = 23,
    WrongCode = 24,
    WrongScript = 25,
    ShortOutput = 26,
}

// The number of a refusal, which `as` takes from the enum.
impl From<SheetRefusal> for u8 {
    ghost from_gives = { λ refusal number. number ≡ refusal_number refusal };

    fn from(refusal: SheetRefusal) -> u8 {
        refusal as u8
    }
}

// Why a sheet is refused, in plain words.
impl fmt::Display for SheetRefusal {
    ghost output = { λ refusal. Some (refusal_words refusal) };

    fn fmt<W: fmt::Write>(&self, f: &mut fmt::Formatter<W>) -> fmt::Result {
        f.write_str(match self {
            SheetRefusal::WrongLength =>
                "the sheet is shorter than its header or not as long as it says",
            SheetRefusal::WrongHeader =>
                "version, kind, number of locations, processes or script items is not allowed",
            SheetRefusal::WrongOffset =>
                "an offset is wrong, below the one before or past the total",
            SheetRefusal::WrongOperation =>
                "an operation's kind, count, zero byte or an unused code is wrong, it runs past the script, or there are more than 4,096",
            SheetRefusal::WrongCode => "a code gives no value of this kind",
            SheetRefusal::WrongScript =>
                "a script byte is wrong, or the starts are not as many as the operations",
            SheetRefusal::ShortOutput => "the output is too short",
        })
    }
}

// A refusal of layer 3 and its place. The rules give each layer a fault type of its own, so this one and that of memories
// are two, alike but for their refusals and their layer.
#[derive(Clone, Copy, Debug, PartialEq, Eq)]
pub struct SheetFault {
    pub refusal: SheetRefusal,
    pub place: usize,
}

impl SheetFault {
    // This refusal at this place.
    pub fn new(refusal: SheetRefusal, place: usize) -> SheetFault
        ensures { result ≡ fault refusal place }
    {
        SheetFault { refusal, place }
    }

    // The layer that refused, by the number that the rules give it.
    pub fn layer(&self) -> u8
        ensures { result ≡ 3 }
    {
        3
    }

    // The number of the refusal.
    pub fn number(&self) -> u8
        ensures { result ≡ refusal_number self.now.refusal }
    {
        self.refusal.into()
    }
}

// The layer, number and place of the refusal, and why.
impl fmt::Display for SheetFault {
    ghost output = { λ fault. Some (fault_line fault) };

    fn fmt<W: fmt::Write>(&self, f: &mut fmt::Formatter<W>) -> fmt::Result {
        let Self { refusal, place } = *self;
        let layer = self.layer();
        let number = self.number();
        write!(
            f,
            "layer {layer}, number {number}, place {place}: {refusal}"
        )
    }
}

impl Error for SheetFault {}

// Why reading ended without a sheet: the bytes were refused, or there was no memory to hold the parts.
#[derive(Clone, Copy, Debug, PartialEq, Eq)]
pub enum ReadError {
    Fault(SheetFault),
    NoMemory,
}

impl fmt::Display for ReadError {
    ghost output = { λ error. Some (error_line error) };

    fn fmt<W: fmt::Write>(&self, f: &mut fmt::Formatter<W>) -> fmt::Result {
        match self {
            Self::Fault(fault) => write!(f, "{fault}"),
            Self::NoMemory => write!(f, "no memory is left to hold the sheet"),
        }
    }
}

impl Error for ReadError {}

// Written out and not derived, since clauses name the error that `?` makes of each.
impl From<SheetFault> for ReadError {
    ghost from_gives = { λ f r. r ≡ Fault f };

    fn from(fault: SheetFault) -> ReadError {
        ReadError::Fault(fault)
    }
}

impl From<AllocError> for ReadError {
    ghost from_gives = { λ _ r. r ≡ NoMemory };

    fn from(_error: AllocError) -> ReadError {
        ReadError::NoMemory
    }
}

impl<T: Drop> From<AllocFailed<T>> for ReadError {
    ghost from_gives = { λ _ r. r ≡ NoMemory };

    fn from(_refused: AllocFailed<T>) -> ReadError {
        ReadError::from(AllocError)
    }
}
