// The values that a reading of a file's header has: the types of parsers/blend.rs of the Rust.
#![tactic(auto)]

pub mod blend;

ghost use Rattle.std.specs.Prelude.{◌≡◌, ◌≤◌, ◌<◌, length, [], ◌∷◌, Some};
ghost use Rattle.header.specs.Header as headers;
ghost use Rattle.header.specs.Helpers.{version_length};
ghost use Rattle.header.specs.Printed.{printed_format, printed_version, printed_header};
ghost use Rattle.header.specs.Calls as calls;

use octets::{Endianness, PointerSize};
use std::fmt;

/// The on-disk layout of a blend file.
#[derive(Clone, Copy, Debug, PartialEq, Eq)]
pub enum FileFormat {
    /// Pre-5.0 format: 12-byte file header and a block header of
    /// `code(4) + size(u32) + address(ptr) + sdna_index(u32) + count(u32)`.
    Legacy,
    /// Blender 5.0+ format: 17-byte file header and a block header of
    /// `code(4) + sdna_index(u32) + address(ptr) + size(u64) + count(u64)`.
    New,
}

impl FileFormat {
    /// The bytes of a Legacy file header.
    pub const LEGACY_HEADER: usize = 12;

    /// The bytes of a New file header.
    pub const NEW_HEADER: usize = 17;

    /// A Legacy block header's bytes beside its address.
    pub const LEGACY_BLOCK: usize = 16;

    /// A New block header's bytes beside its address.
    pub const NEW_BLOCK: usize = 24;

    /// Returns the length of the file header in bytes.
    pub fn header_len(self) -> usize
        ensures fact { calls.FileFormat::header_len self result }
        ensures constants { (FileFormat.LEGACY_HEADER ≡ 12) × (FileFormat.NEW_HEADER ≡ 17) }
    {
        match self {
            FileFormat::Legacy => FileFormat::LEGACY_HEADER,
            FileFormat::New => FileFormat::NEW_HEADER,
        }
    }

    // The bytes of a header's version.
    pub(crate) fn version_len(self) -> usize
        ensures fact { result ≡ version_length self }
        ensures few { result ≤ 4 }
    {
        match self {
            FileFormat::Legacy => 3,
            FileFormat::New => 4,
        }
    }

    /// Returns the length of a block header in bytes: 20, 24, 28 or 32.
    pub fn block_header_len(self, pointer_size: PointerSize) -> usize
        ensures fact { calls.FileFormat::block_header_len self pointer_size result }
        ensures constants { (FileFormat.LEGACY_BLOCK ≡ 16) × (FileFormat.NEW_BLOCK ≡ 24) }
    {
        match self {
            FileFormat::Legacy => FileFormat::LEGACY_BLOCK + pointer_size.bytes_num(),
            FileFormat::New => FileFormat::NEW_BLOCK + pointer_size.bytes_num(),
        }
    }
}

impl fmt::Display for FileFormat {
    ghost output = { λ f. Some (printed_format f) };

    fn fmt<W: fmt::Write>(&self, f: &mut fmt::Formatter<W>) -> fmt::Result {
        match self {
            FileFormat::Legacy => write!(f, "legacy"),
            FileFormat::New => write!(f, "new"),
        }
    }
}

/// The version of Blender used to save the blend file.
#[derive(Clone, Copy, Debug, PartialEq, Eq)]
pub struct Version {
    pub major: u16,
    pub minor: u16,
}

impl Version {
    /// The version that ASCII digits spell; other bytes are passed over.
    pub(crate) fn from_digits(digits: &[u8]) -> Self
        requires { length digits.now ≤ 4 }
        ensures { result ≡ headers.version_of digits.now }
    {
        let mut combined: u16 = 0;
        for d in digits {
            combined = with_digit(combined, *d);
        }
        Version {
            major: combined / 100,
            minor: combined % 100,
        }
    }
}

// As the Rust has it: major, a dot, minor.
impl fmt::Display for Version {
    ghost output = { λ v. Some (printed_version v) };

    fn fmt<W: fmt::Write>(&self, f: &mut fmt::Formatter<W>) -> fmt::Result {
        write!(f, "{}.{}", self.major, self.minor)
    }
}

// A number with one decimal digit more, or the same where the byte is none.
#[tactic(auto, unfolding(crate::specs::Header::decimal))]
fn with_digit(n: u16, b: u8) -> u16
    requires { n < 1000 }
    ensures { result ≡ headers.decimal n (b ∷ []) }
{
    if b.is_ascii_digit() {
        n * 10 + u16::from(b - b'0')
    } else {
        n
    }
}

/// What the header of a file says.
#[derive(Clone, Copy, Debug, PartialEq, Eq)]
pub struct Header {
    /// The size of the pointer on the machine used to save the blend file.
    pub pointer_size: PointerSize,
    /// The endianness on the machine used to save the blend file.
    pub endianness: Endianness,
    /// The version of Blender used to save the blend file.
    pub version: Version,
    /// The on-disk layout of the file, which controls how block headers are parsed.
    pub format: FileFormat,
}

impl Header {
    /// A header of its parts.
    pub fn new(
        pointer_size: PointerSize,
        endianness: Endianness,
        version: Version,
        format: FileFormat,
    ) -> Self
        ensures { calls.«Header::new» pointer_size endianness version format result }
    {
        Header {
            pointer_size,
            endianness,
            version,
            format,
        }
    }
}

// Edition, pointer bits, order, major and minor.
impl fmt::Display for Header {
    ghost output = { λ h. Some (printed_header h) };

    fn fmt<W: fmt::Write>(&self, f: &mut fmt::Formatter<W>) -> fmt::Result {
        write!(
            f,
            "{} {} {} {} {}",
            self.format, self.pointer_size, self.endianness, self.version.major, self.version.minor
        )
    }
}
