// Lists the blocks of the file that standard input has. What cannot be written is passed over.
#![tactic(auto)]

use blend::blend::{BlendError, RawBlend, blend};
use block::Row;
use octets::Refusal;
use std::io;
use std::io::Read;

// How long an input may be: a buffer that grows would have no such bound. It has a byte more, so that a longer input is told from one that just fits.
const LONGEST: usize = 65536;

// 512 rows: a file that has more is refused.
const NUMBERS: usize = 512 * Row::NUMBERS;

fn block_lines(rt: &impl Print, table: &[u64], rows: usize) {
    let (table, _) = table.as_chunks::<{ Row::NUMBERS }>();
    for (row, numbers) in table.iter().take(rows).enumerate() {
        let [code, address, index, count, at, payload, len] = numbers;
        let _ = println!(rt;
            "block {row} {code:08x} {address} {index} {count} {at} {payload} {len}"
        );
    }
}

fn lines(rt: &impl Print, b: RawBlend, table: &[u64]) {
    let RawBlend {
        header,
        rows,
        end,
        dna,
    } = b;
    let _ = println!(rt; "blend {header}");
    block_lines(rt, table, rows);
    let _ = println!(rt;
        "dna {} {} {} {}",
        dna.names, dna.types, dna.structs, dna.fields
    );
    let _ = println!(rt; "end {end}");
}

fn list(rt: &impl Print, file: &[u8]) {
    let mut table = [0u64; NUMBERS];
    match blend(file, &mut table) {
        Ok(b) => lines(rt, b, &table),
        Err(BlendError::Fault(f)) => {
            let _ = println!(rt; "refused {f}");
        }
        Err(BlendError::TableTooShort(rows)) => {
            let _ = println!(rt; "refused {} {rows}", Refusal::BLOCK_TABLE_TOO_SHORT);
        }
    }
}

// Why there is no input to list: it is longer than the buffer holds, or something that cannot be read.
#[derive(Debug, Drop)]
enum InputError {
    TooLong,
    Unread(io::Error),
}

impl From<io::Error> for InputError {
    fn from(e: io::Error) -> Self {
        InputError::Unread(e)
    }
}

// Reads to the end of the input: a pipe hands out its bytes in parts. A loop, since what std has for it tries a read again that was interrupted.
fn read<'a, R: Read>(input: &mut R, buffer: &'a mut [u8]) -> Result<&'a [u8], InputError> {
    let mut n = 0;
    while n < buffer.len() {
        match input.read(&mut buffer[n..])? {
            0 => return Ok(&buffer[..n]),
            more => n += more,
        }
    }
    Err(InputError::TooLong)
}

fn main(rt: HostRuntime) {
    let mut buffer = [0u8; LONGEST + 1];
    match read(&mut rt.stdin(), &mut buffer) {
        Ok(file) => list(&rt, file),
        Err(InputError::TooLong) => {
            let _ = println!(rt; "input too long");
        }
        Err(InputError::Unread(e)) => {
            let _ = eprintln!(rt; "blendlist: standard input: {e}");
        }
    }
}
