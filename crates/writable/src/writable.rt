// What can be written (added): whether a header, the first rows of a table and a source make a file that the reader takes, and how many bytes it has. Nothing is written
// here; crates/writer does it.
ghost use Rattle.std.specs.Prelude.{◌≡◌, ◌+◌, ◌/◌, ◌^◌, ◌≤◌, ◌<◌, ltb, length};
ghost use Rattle.octets.specs.PointerSize.{pointer_bytes};
ghost use Rattle.octets.specs.Reader.{run};
ghost use Rattle.header.specs.HeaderOut.{version_fits, marks_fit, header_fits};
ghost use Rattle.block.specs.Rows.{per_row, row_spelt, rows_spelt};
ghost use Rattle.block.specs.Spelling.{row_fits};
ghost use Rattle.writable.specs.Writable as rules;
ghost use Rattle.writable.specs.Helpers.{before, length_of};
ghost use Rattle.writable.specs.Calls as calls;

use block::{Kind, Row, Takes};
use dna::dna::{DnaCounts, dna_counts};
use header::{FileFormat, Header, Version};
use octets::cursor::Cursor;
use octets::{Endianness, Fault, PointerSize, Refusal};

/// A row of a table; nothing but zeros where the table does not have it.
pub fn row_at(table: &[u64], row: usize) -> Row
    ensures { calls.writable::row_at table.now row result }
{
    if table.len() / Row::NUMBERS <= row {
        return Row {
            code: 0,
            address: 0,
            index: 0,
            count: 0,
            at: 0,
            payload: 0,
            len: 0,
        };
    }
    let at = row * Row::NUMBERS;
    Row {
        code: table[at + Row::CODE],
        address: table[at + Row::ADDRESS],
        index: table[at + Row::INDEX],
        count: table[at + Row::COUNT],
        at: table[at + Row::AT],
        payload: table[at + Row::PAYLOAD],
        len: table[at + Row::LEN],
    }
}

// A row whose payload this is: its code, and the catalogue of a DNA1. What it is as a last row: the counts of that catalogue. The tests of the code are those of
// crates/blend's `taken`, which stays inside: a public call is one more promise (crates/promises), for three lines.
fn judge_code(
    part: &[u8],
    order: Endianness,
    code: u64,
    count: u64,
) -> Result<Option<DnaCounts>, Fault>
    ensures { result ≡ rules.judged_by (run (rules.as_last order code count) part.now 0) }
{
    let about = Kind::of_code(code).about();
    match about.takes {
        Takes::Never => Err(Fault::Refusal(Refusal::UnknownBlockCode)),
        Takes::Alone => if count == 1 {
            Ok(None)
        } else {
            Err(Fault::Refusal(Refusal::UnsupportedCountOnPrincipalBlock))
        },
        Takes::Always => if about.dna {
            let (n, _) = dna_counts(part, order)?;
            Ok(Some(n))
        } else {
            Ok(None)
        },
    }
}

// A row, in the reader's order: its address, its payload, its code and the catalogue of a DNA1.
fn judge(source: &[u8], order: Endianness, r: Row) -> Result<Option<DnaCounts>, Fault>
    ensures { result ≡ rules.judged order source.now r }
{
    if r.address == 0 {
        return Err(Fault::Refusal(Refusal::InvalidMemoryAddress));
    }
    let payload = Cursor {
        at: r.payload as usize,
    };
    let len = r.len as usize;
    match payload.skip(source, len) {
        Ok(_) => judge_code(payload.part(source, len), order, r.code, r.count),
        Err(_) => Err(Fault::Refusal(Refusal::NotThere)),
    }
}

// Whether a version has room: major to this, minor to 99.
fn version_fits(v: Version, most: u16) -> bool
    ensures { result ≡ version_fits most v }
{
    v.major <= most && v.minor <= 99
}

// Whether New is written with this pointer size and order: 64 bits, and the little order.
fn marks_fit(size: PointerSize, order: Endianness) -> bool
    ensures { result ≡ marks_fit size order }
{
    size == PointerSize::Bits64 && order == Endianness::Little
}

// Whether a header has room in its form.
fn header_fits(h: Header) -> bool
    ensures { result ≡ header_fits h }
{
    match h.format {
        FileFormat::Legacy => version_fits(h.version, 9),
        FileFormat::New => version_fits(h.version, 99) && marks_fit(h.pointer_size, h.endianness),
    }
}

// Whether four bytes hold a number.
fn in_four(n: u64) -> bool
    ensures { result ≡ ltb n (256 ^ 4) }
{
    n <= 0xffff_ffff
}

// Whether a row's address has room.
fn address_fits(address: u64, size: PointerSize) -> bool
    ensures { result ≡ ltb address (256 ^ pointer_bytes size) }
{
    match size {
        PointerSize::Bits32 => in_four(address),
        PointerSize::Bits64 => true,
    }
}

// Whether a row's numbers have room in the block headers of a form. The sizes and counts of New have as many bytes as their numbers.
fn row_fits(h: Header, r: Row) -> bool
    ensures { result ≡ row_fits h r }
{
    if !address_fits(r.address, h.pointer_size) {
        return false;
    }
    if !in_four(r.index) {
        return false;
    }
    match h.format {
        FileFormat::Legacy => in_four(r.len) && in_four(r.count),
        FileFormat::New => true,
    }
}

/// Why a file cannot be written.
#[derive(Clone, Copy, Debug, PartialEq, Eq)]
pub enum WritableError {
    /// Why a row or the row count is refused, or that the length does not fit into 64 bits.
    Fault(Fault),
    /// Refusal 19, with the first row whose numbers the form has no room for, the row count for the header.
    NoRoom(usize),
}

impl From<Fault> for WritableError {
    ghost use Rattle.writable.specs.declared.writable.WritableError.{WritableError};

    ghost from_gives = { λ f e. e ≡ WritableError.Fault f };

    fn from(f: Fault) -> Self {
        WritableError::Fault(f)
    }
}

/// The first rows of a table, which has as many.
#[derive(Clone, Copy)]
pub struct Rows<'a> {
    pub table: &'a [u64],
    pub n: usize,
    ghost within: { n ≤ length table.now / per_row },
}

impl Rows<'_> {
    // One of them.
    fn row(self, row: usize) -> Row
        requires { row < self.n }
        ensures { result ≡ row_spelt self.entry.table.now row }
    {
        row_at(self.table, row)
    }

    // One after another: what the last of them is, or the first that is refused. By the rows' numbers, here and in the other two: a row is read by its number, and an
    // iterator over rows would hide from a reader which slice the loop walks over.
    fn judged(self, source: &[u8], order: Endianness) -> Result<Option<DnaCounts>, Fault>
        ensures { result ≡ rules.all_judged order source.now (rows_spelt self.entry.table.now self.entry.n 0) None }
    {
        let mut last = None;
        for row in 0..self.n {
            last = judge(source, order, self.row(row))?;
        }
        Ok(last)
    }

    // The number of the first that has no room in its form.
    fn first_unfit(self, h: Header) -> Option<usize>
        ensures { result ≡ before (rules.first_unfit h (rows_spelt self.entry.table.now self.entry.n 0) 0) self.entry.n }
    {
        for row in 0..self.n {
            if !row_fits(h, self.row(row)) {
                return Some(row);
            }
        }
        None
    }

    // How many bytes the file has, where 64 bits hold it.
    fn file_length(self, h: Header) -> Option<usize>
        ensures { result ≡ length_of (rules.file_length h (rows_spelt self.entry.table.now self.entry.n 0)) }
    {
        let header = h.format.block_header_len(h.pointer_size);
        let mut sum = h.format.header_len() + 4;
        for row in 0..self.n {
            let r = self.row(row);
            sum = sum.checked_add(header)?.checked_add(r.len as usize)?;
        }
        Some(sum)
    }

    // The bytes that a file needs of whose rows the reader would take each.
    fn fitted(self, h: Header) -> Result<usize, WritableError>
        ensures { result ≡ rules.fitted h (rows_spelt self.entry.table.now self.entry.n 0) }
    {
        if !header_fits(h) {
            return Err(WritableError::NoRoom(self.n));
        }
        let long = WritableError::Fault(Fault::Refusal(Refusal::ProductTooLarge));
        match self.first_unfit(h) {
            Some(row) => Err(WritableError::NoRoom(row)),
            None => self.file_length(h).ok_or(long),
        }
    }
}

/// How many bytes the file needs whose header this is and whose blocks are the first rows of a table, with their payloads in a source; or why it cannot be written.
pub fn bytes_needed(
    h: Header,
    table: &[u64],
    rows: usize,
    source: &[u8],
) -> Result<usize, WritableError>
    ensures { calls.writable::bytes_needed h table.now rows source.now result }
{
    if table.len() / Row::NUMBERS < rows {
        return Err(WritableError::Fault(Fault::Refusal(Refusal::NotThere)));
    }
    let first = Rows { table, n: rows };
    match first.judged(source, h.endianness)? {
        Some(_) => first.fitted(h),
        None => Err(WritableError::Fault(Fault::Refusal(Refusal::NoDnaBlockFound))),
    }
}
