// A lent output that is written from its front on. No byte of it is read.
ghost use Rattle.std.specs.Prelude.{◌≡◌, ◌+◌, ◌%◌, ◌++◌, ◌≤◌, [], ◌∷◌, length};
ghost use Rattle.octets.specs.Helpers.{put};
ghost use Rattle.octets.specs.Number.{bytes_of};
ghost use Rattle.octets.specs.PointerSize.{pointer_bytes};
ghost use Rattle.header.specs.Header.{header_length};
ghost use Rattle.header.specs.HeaderOut as headers;
ghost use Rattle.header.specs.Layout.{layout_of, block_header_length};
ghost use Rattle.block.specs.Rows.{rows_spelt, payload_of};
ghost use Rattle.block.specs.Spelling.{told, spell, block_header_out};
ghost use Rattle.writer.specs.Writer as rules;
ghost use Rattle.writer.specs.Helpers.{Inside, HasRoom, Stores, version_digits};

use block::Row;
use header::{FileFormat, Header, Version};
use octets::{Endianness, PointerSize};
use writable::writable::{Rows, row_at};

// An output, and the place in it where the next byte is stored.
#[derive(Drop)]
pub(crate) struct Sink<'a> {
    pub(crate) out: &'a mut [u8],
    pub(crate) at: usize,
}

// The two marks of a header: another type and other bytes each, for which a trait would be longer than both.
fn pointer_mark(size: PointerSize) -> u8
    ensures { result ∷ [] ≡ headers.pointer_mark_of size }
{
    match size {
        PointerSize::Bits32 => b'_',
        PointerSize::Bits64 => b'-',
    }
}

fn order_mark(order: Endianness) -> u8
    ensures { result ∷ [] ≡ headers.order_mark_of order }
{
    match order {
        Endianness::Little => b'v',
        Endianness::Big => b'V',
    }
}

// The last decimal digit of a number.
fn digit(n: u64) -> u8
    ensures { result ≡ 48 + n % 10 }
{
    b'0' + (n % 10) as u8
}

// These bytes from a place on, one after another: `copy_from_slice` would call the C library's memmove, which whoever links the library need not have.
fn store(out: &mut [u8], at: usize, part: &[u8])
    requires { at + length part.now ≤ length out.old }
    ensures { out.new ≡ put out.old at part.now }
{
    for i in 0..part.len() {
        out[at + i] = part[i];
    }
}

impl Sink<'_> {
    // These bytes.
    pub(crate) fn bytes(&mut self, part: &[u8])
        requires { HasRoom self.old (length part.now) }
        ensures { Stores self.old (length part.now) part.now self.new }
    {
        store(self.out, self.at, part);
        self.at += part.len();
    }

    // A number in four bytes, and in eight. What the bytes have no room for is left out.
    fn four(&mut self, n: u64, order: Endianness)
        requires { HasRoom self.old 4 }
        ensures { Stores self.old 4 (bytes_of order 4 n) self.new }
    {
        let low = (n % 0x1_0000_0000) as u32;
        match order {
            Endianness::Little => self.bytes(&low.to_le_bytes()),
            Endianness::Big => self.bytes(&low.to_be_bytes()),
        }
    }

    fn eight(&mut self, n: u64, order: Endianness)
        requires { HasRoom self.old 8 }
        ensures { Stores self.old 8 (bytes_of order 8 n) self.new }
    {
        match order {
            Endianness::Little => self.bytes(&n.to_le_bytes()),
            Endianness::Big => self.bytes(&n.to_be_bytes()),
        }
    }

    // An address.
    fn address(&mut self, address: u64, size: PointerSize, order: Endianness)
        requires { HasRoom self.old (pointer_bytes size) }
        ensures { Stores self.old (pointer_bytes size) (bytes_of order (pointer_bytes size) address) self.new }
    {
        match size {
            PointerSize::Bits32 => self.four(address, order),
            PointerSize::Bits64 => self.eight(address, order),
        }
    }

    // A version, in as many digits as its edition has.
    fn version(&mut self, version: Version, format: FileFormat)
        requires { HasRoom self.old (version_digits format) }
        ensures { Stores self.old (version_digits format) (headers.decimals (version_digits format) (headers.version_number version)) self.new }
    {
        let n = (version.major as u64) * 100 + (version.minor as u64);
        let (tens, hundreds) = (n / 10, n / 10 / 10);
        match format {
            FileFormat::Legacy => self.bytes(&[digit(hundreds), digit(tens), digit(n)]),
            FileFormat::New => {
                self.bytes(&[digit(hundreds / 10), digit(hundreds), digit(tens), digit(n)])
            }
        }
    }

    // A header.
    pub(crate) fn header(&mut self, h: Header)
        requires { HasRoom self.old (header_length h.format) }
        ensures { Stores self.old (header_length h.format) (headers.header_out h) self.new }
    {
        let pointer = pointer_mark(h.pointer_size);
        let order = order_mark(h.endianness);
        self.bytes(b"BLENDER");
        match h.format {
            FileFormat::Legacy => self.bytes(&[pointer, order]),
            FileFormat::New => self.bytes(&[b'1', b'7', pointer, b'0', b'1', order]),
        }
        self.version(h.version, h.format);
    }

    // The numbers of a Legacy block header after its code.
    fn legacy(&mut self, r: Row, size: PointerSize, order: Endianness)
        requires { HasRoom self.old (12 + pointer_bytes size) }
        ensures { Stores self.old (12 + pointer_bytes size) (spell (layout_of FileFormat.Legacy (pointer_bytes size) order) (told r)) self.new }
    {
        self.four(r.len, order);
        self.address(r.address, size, order);
        self.four(r.index, order);
        self.four(r.count, order);
    }

    // Those of a New one: its index, size and count are little-endian whatever the file's order. It differs from Legacy in the order, the widths and the byte orders of the
    // four, so one function for both would walk a table of them, and be no plainer.
    fn new_form(&mut self, r: Row, size: PointerSize, order: Endianness)
        requires { HasRoom self.old (20 + pointer_bytes size) }
        ensures { Stores self.old (20 + pointer_bytes size) (spell (layout_of FileFormat.New (pointer_bytes size) order) (told r)) self.new }
    {
        self.four(r.index, Endianness::Little);
        self.address(r.address, size, order);
        self.eight(r.len, Endianness::Little);
        self.eight(r.count, Endianness::Little);
    }

    // A block header.
    fn block_header(&mut self, h: Header, r: Row)
        requires { HasRoom self.old (block_header_length h.format h.pointer_size) }
        ensures { Stores self.old (block_header_length h.format h.pointer_size) (block_header_out h r) self.new }
    {
        self.four(r.code, Endianness::Big);
        match h.format {
            FileFormat::Legacy => self.legacy(r, h.pointer_size, h.endianness),
            FileFormat::New => self.new_form(r, h.pointer_size, h.endianness),
        }
    }

    // A block: its header, and its payload from the source.
    fn block(&mut self, h: Header, r: Row, source: &[u8])
        requires inside { r.payload + r.len ≤ length source.now }
        requires room { HasRoom self.old (block_header_length h.format h.pointer_size + r.len) }
        ensures { Stores self.old (block_header_length h.format h.pointer_size + r.len) (block_header_out h r ++ payload_of source.now r) self.new }
    {
        self.block_header(h, r);
        let from = r.payload as usize;
        let end = from + (r.len as usize);
        self.bytes(&source[from..end]);
    }

    // The blocks of the first rows of a table, one after another.
    pub(crate) fn blocks(&mut self, h: Header, rows: Rows, source: &[u8])
        requires inside { Inside source.now (rows_spelt rows.table.now rows.n 0) }
        requires room { HasRoom self.old (length (rules.blocks_out h source.now (rows_spelt rows.table.now rows.n 0))) }
        ensures { Stores self.old (length (rules.blocks_out h source.now (rows_spelt rows.entry.table.now rows.entry.n 0))) (rules.blocks_out h source.now (rows_spelt rows.entry.table.now rows.entry.n 0)) self.new }
    {
        for row in 0..rows.n {
            self.block(h, row_at(rows.table, row), source);
        }
    }
}
