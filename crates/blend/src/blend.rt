// Blocks and the chain of them: parsers/blend.rs of the Rust. Its nom parsers are reads at a place here, moved by value, and its vector of
// blocks is a lent table of rows.
ghost use Rattle.std.specs.Prelude.{◌≡◌, ◌+◌, ◌/◌, ◌≤◌, ◌<◌, length};
ghost use Rattle.octets.specs.Helpers.{put, Placed};
ghost use Rattle.block.specs.Rows.{per_row, row_numbers, row_table};
ghost use Rattle.blend.specs.Blocks as blocks;
ghost use Rattle.blend.specs.Chain as chains;
ghost use Rattle.octets.specs.Tables.{written};
ghost use Rattle.blend.specs.Helpers.{taking, row_read, summed, summed_as, rows_from};
ghost use Rattle.blend.specs.Calls as calls;

use block::blend::{block_header, header_in};
use block::{BlockHeader, Kind, Row, Takes};
use dna::dna::{DnaCounts, dna_counts};
use header::Header;
use header::blend::header;
use octets::cursor::{Cursor, stands_at};
use octets::{Fault, Refusal};

// Whether a block is taken, by its count.
fn taken(takes: Takes, count: u64) -> Result<(), Refusal>
    ensures { taking result ≡ blocks.taken_by takes count }
{
    match takes {
        Takes::Alone => if count == 1 {
            Ok(())
        } else {
            Err(Refusal::UnsupportedCountOnPrincipalBlock)
        },
        Takes::Always => Ok(()),
        Takes::Never => Err(Refusal::UnknownBlockCode),
    }
}

fn row_of(b: BlockHeader, at: usize, payload: usize) -> Row
    ensures { result ≡ record { code = b.code; address = b.address; index = b.index; count = b.count; at = at; payload = payload; len = b.size } }
{
    Row {
        code: b.code,
        address: b.address,
        index: b.index,
        count: b.count,
        at: at as u64,
        payload: payload as u64,
        len: b.size,
    }
}

// A block but for a DNA1's catalogue: its header, its payload's bytes are there, and its code. Its row, and the next boundary.
fn block(c: Cursor, s: &[u8], h: Header) -> Result<(Row, usize), Fault>
    ensures { row_read result ≡ blocks.row_at h s.now c.at }
{
    let (b, from) = block_header(c, s, h)?;
    let next = from.skip(s, b.size as usize)?;
    taken(Kind::of_code(b.code).about().takes, b.count)?;
    let payload = c.at + h.format.block_header_len(h.pointer_size);
    Ok((row_of(b, c.at, payload), next.at))
}

/// What is at a boundary: the end mark; or a block's row, its catalogue's counts where it is a DNA1, and the next boundary.
#[derive(Clone, Copy, Debug, PartialEq, Eq)]
pub enum Boundary {
    EndMark,
    Block(Row, Option<DnaCounts>, usize),
}

// A fault in the payload that starts at from, told by its place in the file.
fn within(from: usize, f: Fault, len: usize) -> Fault
    requires { (from + len ≤ 18446744073709551615) × Placed len f }
    ensures { result ≡ blocks.within from f }
{
    match f {
        Fault::Cut(at) => Fault::Cut(from + at),
        Fault::Mark(at) => Fault::Mark(from + at),
        Fault::Refusal(r) => Fault::Refusal(r),
    }
}

// A block whose row is read, with its catalogue where it is a DNA1.
fn finished(s: &[u8], h: Header, r: Row, next: usize) -> Result<Boundary, Fault>
    requires { r.payload + r.len ≤ length s.now }
    ensures { result ≡ blocks.finished h s.now r next }
{
    if Kind::of_code(r.code).about().dna {
        let from = r.payload as usize;
        let len = r.len as usize;
        match dna_counts(&s[from..from + len], h.endianness) {
            Ok((n, _)) => Ok(Boundary::Block(r, Some(n), next)),
            Err(f) => Err(within(from, f, len)),
        }
    } else {
        Ok(Boundary::Block(r, None, next))
    }
}

/// What is at a boundary of a file with this header.
pub fn boundary_at(s: &[u8], h: Header, at: usize) -> Result<Boundary, Fault>
    ensures { calls.blend::boundary_at s.now h at result }
{
    if stands_at(s, at, b"ENDB") {
        return Ok(Boundary::EndMark);
    }
    let (r, next) = block(Cursor { at }, s, h)?;
    finished(s, h, r, next)
}

// A chain without its rows: how many it has, the counts of its last DNA1 and the offset after its end mark.
#[derive(Clone, Copy, Debug, PartialEq, Eq)]
struct Chained {
    rows: usize,
    dna: DnaCounts,
    end: usize,
}

// How far the first pass has come: the next boundary, how many rows lie before it, and the catalogue's counts of the last of them where it is a DNA1.
#[derive(Clone, Copy, Debug, PartialEq, Eq)]
struct Pass {
    at: usize,
    rows: usize,
    last: Option<DnaCounts>,
}

// The end of a pass that has come to an end mark.
fn ended(pass: Pass) -> Result<Chained, Fault>
    requires { pass.at + 4 ≤ 18446744073709551615 }
    ensures { result ≡ summed_as pass.rows (chains.ended pass.last (pass.at + 4)) }
{
    match pass.last {
        Some(dna) => Ok(Chained {
            rows: pass.rows,
            dna,
            end: pass.at + 4,
        }),
        None => Err(Fault::Refusal(Refusal::NoDnaBlockFound)),
    }
}

// A pass with one block more.
fn passed(pass: Pass, last: Option<DnaCounts>, next: usize) -> Pass
    requires { pass.rows < 18446744073709551615 }
    ensures { result ≡ record { at = next; rows = pass.rows + 1; last = last } }
{
    Pass {
        at: next,
        rows: pass.rows + 1,
        last,
    }
}

// The first pass: from boundary to boundary, with every catalogue read. It counts no index: a block says where the next one is.
fn count_blocks(s: &[u8], h: Header, from: usize) -> Result<Chained, Fault>
    requires { from ≤ length s.now }
    ensures { result ≡ summed 0 (chains.chain_from h s.now from) }
{
    let mut pass = Pass {
        at: from,
        rows: 0,
        last: None,
    };
    while pass.at < s.len() {
        match boundary_at(s, h, pass.at)? {
            Boundary::EndMark => {
                return ended(pass);
            }
            Boundary::Block(_, last, next) => {
                pass = passed(pass, last, next);
            }
        }
    }
    Err(Fault::Cut(pass.at))
}

// Stores a row's numbers from a place on, and answers the place after them.
fn put_row(table: &mut [u64], i: usize, r: Row) -> usize
    requires { i + per_row ≤ length table.old }
    ensures value { result ≡ i + per_row }
    ensures table_after { table.new ≡ put table.old i (row_numbers r) }
{
    table[i + Row::CODE] = r.code;
    table[i + Row::ADDRESS] = r.address;
    table[i + Row::INDEX] = r.index;
    table[i + Row::COUNT] = r.count;
    table[i + Row::AT] = r.at;
    table[i + Row::PAYLOAD] = r.payload;
    table[i + Row::LEN] = r.len;
    i + Row::NUMBERS
}

// The second pass: the rows of n blocks, which the first has read. Nothing is tested again.
fn fill_rows(s: &[u8], h: Header, from: usize, n: usize, table: &mut [u64])
    requires from_in_bounds { length (row_table (rows_from n h s.now from)) ≤ length table.old }
    requires from_len { length (rows_from n h s.now from) ≡ n }
    ensures { table.new ≡ put table.old 0 (row_table (rows_from n h s.now from)) }
{
    let len = h.format.block_header_len(h.pointer_size);
    let mut at = from;
    let mut i = 0;
    for _ in 0..n {
        let payload = at + len;
        let b = header_in(&s[at..payload], h);
        i = put_row(table, i, row_of(b, at, payload));
        at = payload + (b.size as usize);
    }
}

/// A file that is read: its header, how many rows its blocks have, the offset after the end mark, and what the last DNA1 has.
#[derive(Clone, Copy, Debug, PartialEq, Eq)]
pub struct RawBlend {
    pub header: Header,
    pub rows: usize,
    pub end: usize,
    pub dna: DnaCounts,
}

/// Why a file is not read into a table.
#[derive(Clone, Copy, Debug, PartialEq, Eq)]
pub enum BlendError {
    /// Why it is refused, and where.
    Fault(Fault),
    /// Refusal 7, with the rows needed.
    TableTooShort(usize),
}

impl From<Fault> for BlendError {
    ghost use Rattle.blend.specs.declared.blend.BlendError.{BlendError};

    ghost from_gives = { λ f e. e ≡ BlendError.Fault f };

    fn from(f: Fault) -> Self {
        BlendError::Fault(f)
    }
}

// The blocks after a header that was read and ends at from.
fn read_after(
    file: &[u8],
    h: Header,
    from: usize,
    table: &mut [u64],
) -> Result<RawBlend, BlendError>
    requires { from ≤ length file.now }
    ensures result_value { chains.paper_blend result ≡ chains.answer_for h (length (chains.chain_from h file.now from).rows) (length table.old / per_row) (chains.chain_from h file.now from).last }
    ensures table_after { table.new ≡ written (chains.paper_blend result) (row_table (chains.chain_from h file.now from).rows) table.old }
{
    let c = count_blocks(file, h, from)?;
    if table.len() / Row::NUMBERS < c.rows {
        return Err(BlendError::TableTooShort(c.rows));
    }
    fill_rows(file, h, from, c.rows, table);
    Ok(RawBlend {
        header: h,
        rows: c.rows,
        end: c.end,
        dna: c.dna,
    })
}

/// Reads a file into a row table.
pub fn blend(file: &[u8], table: &mut [u64]) -> Result<RawBlend, BlendError>
    ensures { calls.«blend::blend» file.now table.old result table.new }
{
    let (h, from) = header(file)?;
    read_after(file, h, from, table)
}
