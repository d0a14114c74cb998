// The file header: parsers/blend.rs of the Rust. Its nom parsers are reads at a place here, moved by value.
ghost use Rattle.std.specs.Prelude.{◌≡◌, List, ℕ, ◌≤◌};
ghost use Rattle.octets.specs.Cursor.{found};
ghost use Rattle.octets.specs.Reader.{run};
ghost use Rattle.octets.specs.Reader.Reader.{done, bytes};
ghost use Rattle.header.specs.Header as headers;
ghost use Rattle.header.specs.Helpers.{ordered};
ghost use Rattle.header.specs.Calls as calls;

use crate::{FileFormat, Header, Version};
use octets::cursor::Cursor;
use octets::{Endianness, Fault, PointerSize, Refusal};

// One of two marks at a place: what it stands for.
fn one_of<T: Copy>(
    c: Cursor,
    s: &[u8],
    m: &[u8],
    a: T,
    n: &[u8],
    b: T,
) -> Result<(T, Cursor), Fault>
    ensures { found result ≡ run (headers.one_of m.now a n.now b done) s.now c.at }
{
    if let Some(next) = c.begins(s, m) {
        return Ok((a, next));
    }
    let next = c.mark(s, n)?;
    Ok((b, next))
}

/// The pointer mark at a place: `_` is 32 bits, `-` 64.
pub fn pointer_size(c: Cursor, s: &[u8]) -> Result<(PointerSize, Cursor), Fault>
    ensures { calls.blend::pointer_size c s.now result }
{
    one_of(c, s, b"_", PointerSize::Bits32, b"-", PointerSize::Bits64)
}

/// The order mark at a place: `v` is little, `V` big.
pub fn endianness(c: Cursor, s: &[u8]) -> Result<(Endianness, Cursor), Fault>
    ensures { calls.«blend::endianness» c s.now result }
{
    one_of(c, s, b"v", Endianness::Little, b"V", Endianness::Big)
}

// A version of n bytes.
fn version_bytes(c: Cursor, s: &[u8], n: usize) -> Result<(Version, Cursor), Fault>
    requires { n ≤ 4 }
    ensures { found result ≡ run (bytes n (λ v. done (headers.version_of v))) s.now c.at }
{
    let next = c.bytes(s, n)?;
    Ok((Version::from_digits(c.part(s, n)), next))
}

/// The version of three bytes at a place.
pub fn version(c: Cursor, s: &[u8]) -> Result<(Version, Cursor), Fault>
    ensures { calls.«blend::version» c s.now result }
{
    version_bytes(c, s, 3)
}

// A header's last two parts, its order mark and its version, which are the same in both editions but for the version's length.
fn ordered(
    c: Cursor,
    s: &[u8],
    format: FileFormat,
    size: PointerSize,
) -> Result<(Header, Cursor), Fault>
    ensures { (u : List ℕ) → found result ≡ headers.valued (run (ordered format size u) s.now c.at) }
{
    let (order, next) = endianness(c, s)?;
    let (v, last) = version_bytes(next, s, format.version_len())?;
    Ok((Header::new(size, order, v, format), last))
}

// A New header after its magic.
fn new(c: Cursor, s: &[u8]) -> Result<(Header, Cursor), Fault>
    ensures { found result ≡ headers.valued (run headers.new s.now c.at) }
{
    let mark = c.bytes(s, 2)?;
    let (size, next) = pointer_size(mark, s)?;
    let last = next.bytes(s, 2)?;
    ordered(last, s, FileFormat::New, size)
}

// A file's header and the place after it.
fn header_in(s: &[u8]) -> Result<(Header, Cursor), Fault>
    ensures { found result ≡ headers.valued (run headers.header_bytes s.now 0) }
{
    let start = Cursor { at: 0 };
    let c = start
        .begins(s, b"BLENDER")
        .ok_or(Refusal::CompressedFileNotSupported)?;
    if let Some(next) = c.begins(s, b"_") {
        return ordered(next, s, FileFormat::Legacy, PointerSize::Bits32);
    }
    if let Some(next) = c.begins(s, b"-") {
        return ordered(next, s, FileFormat::Legacy, PointerSize::Bits64);
    }
    new(c, s)
}

/// A file's header and its length, or why it is refused, and where.
pub fn header(file: &[u8]) -> Result<(Header, usize), Fault>
    ensures { calls.«blend::header» file.now result }
{
    let (h, c) = header_in(file)?;
    Ok((h, c.at))
}

/// Why a header is refused, and where; nothing where it is not.
pub fn refusal_of(answer: Result<(Header, usize), Fault>) -> Option<Fault>
    ensures { calls.blend::refusal_of answer result }
{
    answer.err()
}
