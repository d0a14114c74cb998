// Writes scenes (added): the header, for each row its block header and its payload, and the end mark, into a lent output. Whether all of it can be written is settled
// first (crates/writable), so a refusal writes nothing.
ghost use Rattle.std.specs.Prelude.{◌≡◌, ◌≤◌, length};
ghost use Rattle.octets.specs.Helpers.{put};
ghost use Rattle.block.specs.Rows.{rows_spelt};
ghost use Rattle.writer.specs.Writer as rules;
ghost use Rattle.writer.specs.Helpers.{Inside};
ghost use Rattle.writer.specs.Calls as calls;

use crate::sink::Sink;
use header::Header;
use writable::writable::{Rows, WritableError, bytes_needed};

/// Why a file is not written.
#[derive(Clone, Copy, Debug, PartialEq, Eq)]
pub enum WriteError {
    /// Why it cannot be written.
    Unwritable(WritableError),
    /// Refusal 18, with the bytes needed.
    TooShort(usize),
}

impl From<WritableError> for WriteError {
    ghost use Rattle.writer.specs.declared.writer.WriteError.{WriteError};

    ghost from_gives = { λ u e. e ≡ WriteError.Unwritable u };

    fn from(u: WritableError) -> Self {
        WriteError::Unwritable(u)
    }
}

// A whole file.
fn put_file(out: &mut [u8], h: Header, rows: Rows, source: &[u8])
    requires inside { Inside source.now (rows_spelt rows.table.now rows.n 0) }
    requires room { length (rules.file_out h source.now (rows_spelt rows.table.now rows.n 0)) ≤ length out.old }
    ensures { out.new ≡ put out.old 0 (rules.file_out h source.now (rows_spelt rows.entry.table.now rows.entry.n 0)) }
{
    let mut sink = Sink { out, at: 0 };
    sink.header(h);
    sink.blocks(h, rows, source);
    sink.bytes(b"ENDB");
}

/// Writes a file: the header, for each of the first rows of a table its block header and its payload from the source, and the end mark. The answer is how many bytes were
/// written; the others of the output are as they were.
pub fn write(
    h: Header,
    table: &[u64],
    rows: usize,
    source: &[u8],
    out: &mut [u8],
) -> Result<usize, WriteError>
    ensures { calls.«writer::write» h table.now rows source.now out.old result out.new }
{
    let n = bytes_needed(h, table, rows, source)?;
    if out.len() < n {
        return Err(WriteError::TooShort(n));
    }
    put_file(out, h, Rows { table, n: rows }, source);
    Ok(n)
}
