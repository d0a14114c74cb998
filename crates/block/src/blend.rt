// Block headers: parsers/blend.rs of the Rust. Its nom parsers are reads at a place here, moved by value.
ghost use Rattle.std.specs.Prelude.{◌≡◌, ◌+◌, ◌≤◌, ◌<◌, length};
ghost use Rattle.octets.specs.Reader.{run};
ghost use Rattle.octets.specs.Cursor.{width_of, found};
ghost use Rattle.octets.specs.Helpers.{number_at};
ghost use Rattle.octets.specs.PointerSize.{pointer_bytes};
ghost use Rattle.block.specs.BlockHeaders.{header_at, block_header};
ghost use Rattle.block.specs.Helpers.{last_width, with_address};
ghost use Rattle.header.specs.Layout.{block_header_length};
ghost use Rattle.block.specs.Calls as calls;

use crate::BlockHeader;
use header::{FileFormat, Header};
use octets::cursor::{Cursor, Width};
use octets::{Endianness, Fault, PointerSize, Refusal};

/// A block's code as its number, the first byte most significant.
pub fn block_header_code(c: Cursor, s: &[u8]) -> Result<(u64, Cursor), Fault>
    ensures { calls.blend::block_header_code c s.now result }
{
    c.number(s, Width::Four, Endianness::Big)
}

// The width of an address.
fn address_width(p: PointerSize) -> Width
    ensures { width_of result ≡ pointer_bytes p }
{
    match p {
        PointerSize::Bits32 => Width::Four,
        PointerSize::Bits64 => Width::Eight,
    }
}

// The bytes of a block header, all that it has, in a file with this header.
#[derive(Clone, Copy)]
struct Whole<'a> {
    part: &'a [u8],
    file: Header,
    ghost complete: { length part.now ≡ block_header_length file.format file.pointer_size },
}

impl<'a> Whole<'a> {
    // The number that stands at a place of it.
    fn number(&self, at: usize, width: Width, order: Endianness) -> u64
        requires { at + width_of width ≤ length self.now.part.now }
        ensures { result ≡ number_at order (width_of width) self.now.part.now at }
    {
        let (n, _) = Cursor::new(at).number(self.part, width, order).unwrap();
        n
    }

    // Where the last two numbers stand.
    fn last_two(&self) -> usize
        ensures { result ≡ 4 + 4 + pointer_bytes self.now.file.pointer_size }
    {
        8 + self.file.pointer_size.bytes_num()
    }

    fn size(&self) -> u64
        ensures { result ≡ (header_at self.now.file self.now.part.now 0).size }
    {
        match self.file.format {
            FileFormat::Legacy => self.number(4, Width::Four, self.file.endianness),
            FileFormat::New => self.number(self.last_two(), Width::Eight, Endianness::Little),
        }
    }

    fn address(&self) -> u64
        ensures { result ≡ (header_at self.now.file self.now.part.now 0).address }
    {
        self.number(
            8,
            address_width(self.file.pointer_size),
            self.file.endianness,
        )
    }

    fn index(&self) -> u64
        ensures { result ≡ (header_at self.now.file self.now.part.now 0).index }
    {
        match self.file.format {
            FileFormat::Legacy => self.number(self.last_two(), Width::Four, self.file.endianness),
            FileFormat::New => self.number(4, Width::Four, Endianness::Little),
        }
    }

    fn count(&self) -> u64
        ensures { result ≡ (header_at self.now.file self.now.part.now 0).count }
    {
        let last = self.last_two();
        match self.file.format {
            FileFormat::Legacy => self.number(last + 4, Width::Four, self.file.endianness),
            FileFormat::New => self.number(last + 8, Width::Eight, Endianness::Little),
        }
    }

    // What it says. It is made a part of each pass that asks it, which takes half the steps (docs/COST.md).
    #[inline(always)]
    fn says(&self) -> BlockHeader
        ensures { result ≡ header_at self.now.file self.now.part.now 0 }
    {
        BlockHeader {
            code: self.number(0, Width::Four, Endianness::Big),
            size: self.size(),
            address: self.address(),
            index: self.index(),
            count: self.count(),
        }
    }
}

// A block header that stands there, unless its address is 0.
fn with_address(b: BlockHeader, next: Cursor) -> Result<(BlockHeader, Cursor), Fault>
    ensures { found result ≡ with_address b next.at }
{
    if b.address == 0 {
        Err(Fault::Refusal(Refusal::InvalidMemoryAddress))
    } else {
        Ok((b, next))
    }
}

// The width of each of a block header's last two numbers.
fn last_width(format: FileFormat) -> usize
    ensures { result ≡ last_width format }
{
    match format {
        FileFormat::Legacy => 4,
        FileFormat::New => 8,
    }
}

// What stops a block header not all of which is there: the first of its numbers that is not, unless its address is there and is 0.
fn missing(c: Cursor, s: &[u8], h: Header) -> Result<(BlockHeader, Cursor), Fault>
    requires { length s.now < c.at + block_header_length h.format h.pointer_size }
    ensures { found result ≡ run (block_header h) s.now c.at }
{
    let first = c.skip(s, 4)?;
    let address = first.skip(s, 4)?;
    let (n, second) = address.number(s, address_width(h.pointer_size), h.endianness)?;
    if n == 0 {
        return Err(Fault::Refusal(Refusal::InvalidMemoryAddress));
    }
    let last = second.skip(s, last_width(h.format))?;
    Err(Fault::Cut(last.at))
}

/// A block header of either edition at a place, in a file with this header.
pub fn block_header(c: Cursor, s: &[u8], h: Header) -> Result<(BlockHeader, Cursor), Fault>
    ensures { calls.blend::block_header c s.now h result }
{
    let len = h.format.block_header_len(h.pointer_size);
    match c.skip(s, len) {
        Ok(next) => {
            let part = c.part(s, len);
            with_address(Whole { part, file: h }.says(), next)
        }
        Err(_) => missing(c, s, h),
    }
}

/// What a block header says whose bytes these are, whatever its address; nothing but zeros where they are more or fewer than it has.
pub fn header_in(part: &[u8], h: Header) -> BlockHeader
    ensures { calls.blend::header_in part.now h result }
{
    if part.len() == h.format.block_header_len(h.pointer_size) {
        Whole { part, file: h }.says()
    } else {
        BlockHeader::new(0, 0, 0, 0, 0)
    }
}
