// Pointer size, byte order and where reading stops: parsers/mod.rs of the Rust.
#![tactic(auto)]

pub mod cursor;
mod number;

ghost use Rattle.std.specs.Prelude.{◌≡◌, Some, false};
ghost use Rattle.octets.specs.Listed.{listed};

use std::error::Error;
use std::fmt;

/// Size of a pointer on the machine used to create the .blend file.
#[derive(Clone, Copy, Debug, PartialEq, Eq)]
pub enum PointerSize {
    Bits32,
    Bits64,
}

impl PointerSize {
    ghost use Rattle.octets.specs.Calls as calls;

    /// The bytes of a 32-bit pointer.
    pub const BYTES_32: usize = 4;

    /// The bytes of a 64-bit pointer.
    pub const BYTES_64: usize = 8;

    /// Returns the pointer size in bytes.
    pub fn bytes_num(self) -> usize
        ensures fact { calls.PointerSize::bytes_num self result }
        ensures constants { (PointerSize.BYTES_32 ≡ 4) × (PointerSize.BYTES_64 ≡ 8) }
    {
        match self {
            PointerSize::Bits32 => PointerSize::BYTES_32,
            PointerSize::Bits64 => PointerSize::BYTES_64,
        }
    }
}

// In bits.
impl fmt::Display for PointerSize {
    ghost use Rattle.octets.specs.Printed.{printed_pointer_size};

    ghost output = { λ p. Some (printed_pointer_size p) };

    fn fmt<W: fmt::Write>(&self, f: &mut fmt::Formatter<W>) -> fmt::Result {
        match self {
            PointerSize::Bits32 => write!(f, "32"),
            PointerSize::Bits64 => write!(f, "64"),
        }
    }
}

/// Endianness of the machine used to create the .blend file.
#[derive(Clone, Copy, Debug, PartialEq, Eq)]
pub enum Endianness {
    Little,
    Big,
}

impl fmt::Display for Endianness {
    ghost use Rattle.octets.specs.Printed.{printed_endianness};

    ghost output = { λ e. Some (printed_endianness e) };

    fn fmt<W: fmt::Write>(&self, f: &mut fmt::Formatter<W>) -> fmt::Result {
        match self {
            Endianness::Little => write!(f, "little"),
            Endianness::Big => write!(f, "big"),
        }
    }
}

/// A number that none of the named refusals has.
#[derive(Clone, Copy, Debug, PartialEq, Eq)]
pub struct Unlisted {
    number: u64,
    ghost unlisted: { listed number ≡ false },
}

/// A refusal that carries nothing, by its name in document 01's table. Those that carry something are variants of the errors of the calls that give them.
#[derive(Clone, Copy, Debug, PartialEq, Eq)]
pub enum Refusal {
    /// 1: the file does not begin with "BLENDER": it may be compressed.
    CompressedFileNotSupported,
    /// 3: a block has the address 0.
    InvalidMemoryAddress,
    /// 4: a Principal block whose count is not 1.
    UnsupportedCountOnPrincipalBlock,
    /// 5: a code that is none of a block.
    UnknownBlockCode,
    /// 6: the last block is no DNA1.
    NoDnaBlockFound,
    /// 9: an array's size is no number.
    InvalidArraySize,
    /// 10: a product, or the length of a file to be written, does not fit into 64 bits.
    ProductTooLarge,
    /// 12: a slice is too short for the value.
    ValueSliceTooShort,
    /// 13: no such row, part or place.
    NotThere,
    /// 15: something is left of a field's name after its declarator, so that it has no width.
    NameNotFullyRead,
    /// Any other number: no call of the reader gives it.
    Other(Unlisted),
}

impl Refusal {
    ghost use Rattle.octets.specs.Calls as calls;

    // The numbers of the refusals that carry something, as documents 01 and 02 have them: what carries it is a variant of an error enum, and C is told the number.
    // Document 01's 2, malformed, is 16 or 17 here.

    /// Refusal 7, with the rows needed: the row table is too short.
    pub const BLOCK_TABLE_TOO_SHORT: u64 = 7;

    /// Refusal 8, with which table and the rows needed: a table for the catalogue is too short.
    pub const CATALOGUE_TABLE_TOO_SHORT: u64 = 8;

    /// Refusal 11, with the groups: the table for dimensions is too short.
    pub const DIMENSION_TABLE_TOO_SHORT: u64 = 11;

    /// Refusal 14, with the buckets and the rows needed: no bucket, or a table of the index is too short.
    pub const INDEX_TOO_SHORT: u64 = 14;

    /// Refusal 16, with the offset of the failed read's first byte: fewer bytes are left than the read wants.
    pub const CUT_SHORT: u64 = 16;

    /// Refusal 17, with the offset of the failed read's first byte: enough bytes are left, and they differ.
    pub const WRONG_MARK: u64 = 17;

    /// Refusal 18, with the bytes needed: the output is too short.
    pub const OUTPUT_TOO_SHORT: u64 = 18;

    /// Refusal 19, with the first row that it is in, the row count for the header: a number, mark or version that the form has no room for.
    pub const NO_ROOM_IN_FORM: u64 = 19;

    /// The number of the refusal.
    pub fn number(self) -> u64
        ensures { calls.«Refusal::number» self result }
    {
        match self {
            Refusal::CompressedFileNotSupported => 1,
            Refusal::InvalidMemoryAddress => 3,
            Refusal::UnsupportedCountOnPrincipalBlock => 4,
            Refusal::UnknownBlockCode => 5,
            Refusal::NoDnaBlockFound => 6,
            Refusal::InvalidArraySize => 9,
            Refusal::ProductTooLarge => 10,
            Refusal::ValueSliceTooShort => 12,
            Refusal::NotThere => 13,
            Refusal::NameNotFullyRead => 15,
            Refusal::Other(other) => other.number,
        }
    }

    /// The refusal that has this number.
    pub fn of_number(number: u64) -> Refusal
        ensures { calls.Refusal::of_number number result }
    {
        match number {
            1 => Refusal::CompressedFileNotSupported,
            3 => Refusal::InvalidMemoryAddress,
            4 => Refusal::UnsupportedCountOnPrincipalBlock,
            5 => Refusal::UnknownBlockCode,
            6 => Refusal::NoDnaBlockFound,
            9 => Refusal::InvalidArraySize,
            10 => Refusal::ProductTooLarge,
            12 => Refusal::ValueSliceTooShort,
            13 => Refusal::NotThere,
            15 => Refusal::NameNotFullyRead,
            _ => Refusal::Other(Unlisted { number }),
        }
    }
}

// By its number.
impl fmt::Display for Refusal {
    ghost use Rattle.octets.specs.Printed.{printed_refusal};

    ghost output = { λ r. Some (printed_refusal r) };

    fn fmt<W: fmt::Write>(&self, f: &mut fmt::Formatter<W>) -> fmt::Result {
        write!(f, "{}", self.number())
    }
}

impl Error for Refusal {}

/// Why reading stopped, and where: the offset of the failed read's first byte.
#[derive(Clone, Copy, Debug, PartialEq, Eq)]
pub enum Fault {
    /// Fewer bytes are left than the read wants, or the byte that ends a run never comes.
    Cut(usize),
    /// Enough bytes are left, and they are not the ones that have to stand there.
    Mark(usize),
    /// What was read is refused.
    Refusal(Refusal),
}

impl From<Refusal> for Fault {
    ghost use Rattle.octets.specs.declared.Fault.{Fault};

    ghost from_gives = { λ r f. f ≡ Fault.Refusal r };

    fn from(r: Refusal) -> Self {
        Fault::Refusal(r)
    }
}

impl Fault {
    ghost use Rattle.octets.specs.Calls as calls;

    /// The number of the refusal.
    pub fn refusal(self) -> u64
        ensures { calls.«Fault::refusal» self result }
    {
        match self {
            Fault::Cut(_) => Refusal::CUT_SHORT,
            Fault::Mark(_) => Refusal::WRONG_MARK,
            Fault::Refusal(r) => r.number(),
        }
    }

    /// The offset of the failed read's first byte, 0 where the refusal carries none.
    pub fn place(self) -> usize
        ensures { calls.«Fault::place» self result }
    {
        match self {
            Fault::Cut(at) => at,
            Fault::Mark(at) => at,
            Fault::Refusal(_) => 0,
        }
    }
}

// By its number and, of a cut and a wrong mark, the offset that it carries.
impl fmt::Display for Fault {
    ghost use Rattle.octets.specs.Printed.{printed_fault};

    ghost output = { λ f. Some (printed_fault f) };

    fn fmt<W: fmt::Write>(&self, f: &mut fmt::Formatter<W>) -> fmt::Result {
        match self {
            Fault::Refusal(r) => write!(f, "{r}"),
            _ => write!(f, "{} {}", self.refusal(), self.place()),
        }
    }
}

impl Error for Fault {}
