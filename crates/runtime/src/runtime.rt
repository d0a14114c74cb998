// Of runtime.rs of the Rust: a block's code and the search for an address, over the row table. Views (added) are the parts of a file that rows
// tell of.
ghost use Rattle.std.specs.Prelude.{◌≡◌, ◌+◌, ◌*◌, ◌/◌, ◌<◌, length, get_or};
ghost use Rattle.block.specs.Rows.{per_row};
ghost use Rattle.runtime.specs.Calls as calls;

use block::{Kind, Row};
use octets::Refusal;
use octets::cursor::Cursor;

// One of a row's numbers, by its column.
fn cell(table: &[u64], row: usize, i: usize) -> u64
    requires { (row < length table.now / per_row) × (i < per_row) }
    ensures { result ≡ get_or table.now (row * per_row + i) 0 }
{
    table[row * Row::NUMBERS + i]
}

/// Whether the table has the row and the file the part that it tells of.
pub fn view(file: &[u8], table: &[u64], row: usize) -> Result<(), Refusal>
    ensures { calls.«runtime::view» file.now table.now row result }
{
    if table.len() / Row::NUMBERS <= row {
        return Err(Refusal::NotThere);
    }
    let payload = Cursor {
        at: cell(table, row, Row::PAYLOAD) as usize,
    };
    match payload.skip(file, cell(table, row, Row::LEN) as usize) {
        Ok(_) => Ok(()),
        Err(_) => Err(Refusal::NotThere),
    }
}

/// The part itself, empty where there is none.
pub fn view_part<'a>(file: &'a [u8], table: &[u64], row: usize) -> &'a [u8]
    ensures { calls.runtime::view_part file.now table.now row result.now }
{
    if row < table.len() / Row::NUMBERS {
        let payload = Cursor {
            at: cell(table, row, Row::PAYLOAD) as usize,
        };
        payload.part(file, cell(table, row, Row::LEN) as usize)
    } else {
        &file[..0]
    }
}

/// What an address points to.
#[derive(Clone, Copy, Debug, PartialEq, Eq)]
pub enum Pointer {
    Null,
    /// The number of the row.
    Block(usize),
    Missing,
}

/// Whether a row with this code and this address answers the search.
pub fn matches(wanted: u64, code: u64, address: u64) -> bool
    ensures { calls.«runtime::matches» wanted code address result }
{
    let about = Kind::of_code(code).about();
    about.found && address == wanted
}

/// The first of the table's first rows that has the address and is a Principal or a Subsidiary; refusal 13 where the table has fewer rows.
pub fn get_ptr(table: &[u64], rows: usize, address: u64) -> Result<Pointer, Refusal>
    ensures { calls.runtime::get_ptr table.now rows address result }
{
    if table.len() / Row::NUMBERS < rows {
        return Err(Refusal::NotThere);
    }
    if address == 0 {
        return Ok(Pointer::Null);
    }
    for row in 0..rows {
        let code = cell(table, row, Row::CODE);
        if matches(address, code, cell(table, row, Row::ADDRESS)) {
            return Ok(Pointer::Block(row));
        }
    }
    Ok(Pointer::Missing)
}

/// The code, byte by byte, that a row's code number stands for.
pub fn code(number: u64) -> Option<[u8; 4]>
    ensures { calls.«runtime::code» number result }
{
    let about = Kind::of_code(number).about();
    if about.coded {
        Some([
            (number / 0x100_0000 % 256) as u8,
            (number / 0x1_0000 % 256) as u8,
            (number / 0x100 % 256) as u8,
            (number % 256) as u8,
        ])
    } else {
        None
    }
}
