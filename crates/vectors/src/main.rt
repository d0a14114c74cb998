// Answers a batch of inputs by calls of the library, in the form in which the oracle answers it by the Rust. The stored run has the examples of
// document 01, declarators at the edges, and a few generated inputs for each answer. Where an argument names a file, the examples in it are run
// first (examples.rt): the stored run has the declarators of data/, with tables that are too short, and their widths.
//
// Standard input holds records: a byte for the kind, the input's length in 4 bytes, little-endian, and the input. Standard output has the
// lines of each answer and then the line `.`. Numbers are decimal; bytes, codes, hashes and floats' bits are hexadecimal.
//
// - `F`, a whole file: `file E P O MAJOR MINOR ROWS END N T S F`, and for each row
//   `row CODE ADDRESS INDEX COUNT AT PAYLOAD-AT LENGTH FNV1A64-OF-PAYLOAD`; or `refused N`, of 16 and 17 `refused N OFFSET`. A further line `walk differs` where the walker
//   does not give the same rows and the same end or refusal, with its offset.
// - `H`, a file's header by itself: `header E P O MAJOR MINOR LENGTH`, or the refusal as of a file.
// - `D`, a declarator: `value`, `array`, `pointer`, `pointer-array` or `fn`, then `NAME-AT NAME-LENGTH REST-AT`, then the indirection of a
//   pointer, then the length, the number of dimensions and the dimensions of an array; or `refused N`.
// - `f`, a name as a function pointer: `fn NAME-AT NAME-LENGTH REST-AT REST-LENGTH`, or `refused N OFFSET`.
// - `C`, `c`, a catalogue in little or big order: `dna N T S F END`, then all `name LENGTH BYTES`, all `type SIZE LENGTH BYTES`, all
//   `struct TYPE FIRST COUNT`, all `field TYPE NAME`; or `refused N OFFSET`.
// - `P`, a slice: `KIND ORDER VALUE` for each kind, in little order and then in big; or `KIND ORDER refused 12`.
// - `N`, whatever the input: `KIND NAME` for each kind of primitive value.
// - `A`, an address of 8 bytes, little-endian, and a whole file: `null`, `found ROW` or `missing`, then for each row `code CODE` or
//   `code none`; or the refusal as of a file.
//
// A record that is longer than the buffer is answered `too long`, and a batch that ends inside a record ends with the line `cut`.
#![tactic(auto)]

mod address;
mod catalogue;
mod declarator;
mod examples;
mod file;
mod out;
mod values;

ghost use Rattle.std.specs.Prelude.{◌≤◌, length};

use octets::Endianness;
use out::Output;
use std::fmt;
use std::fmt::Write;
use std::io::Read;

// How long an input may be.
const LONGEST: usize = 131072;

// The first so many numbers, each after a space.
fn words(out: &mut Output, numbers: &[u64], count: usize) -> fmt::Result {
    for n in numbers.iter().take(count) {
        write!(out, " {n}")?;
    }
    Ok(())
}

// The byte is matched itself: an enum of the kinds would be this list a second time.
fn answer(out: &mut Output, kind: u8, bytes: &[u8]) -> fmt::Result {
    match kind {
        b'F' => file::answer(out, bytes),
        b'H' => file::header_answer(out, bytes),
        b'D' => declarator::answer(out, bytes),
        b'f' => declarator::function_answer(out, bytes),
        b'C' => catalogue::answer(out, bytes, Endianness::Little),
        b'c' => catalogue::answer(out, bytes, Endianness::Big),
        b'P' => values::answer(out, bytes),
        b'N' => values::names_answer(out),
        b'A' => address::answer(out, bytes),
        _ => out.texts(&["bad-kind\n"]),
    }
}

// Why a record is not answered: it is longer than the buffer, or the batch ends inside it.
#[derive(Clone, Copy)]
enum Unread {
    TooLong,
    Cut,
}

// Reads until the buffer is full, the input ends or a read fails; what there is then. A loop, since what std has for it tries a read again that was interrupted.
fn read_full<'a>(input: &mut impl Read, buffer: &'a mut [u8]) -> &'a [u8]
    ensures { length result.now ≤ length buffer.old }
{
    let mut n = 0;
    while n < buffer.len() {
        match input.read(&mut buffer[n..]) {
            Ok(0) | Err(_) => break,
            Ok(more) => n += more,
        }
    }
    &buffer[..n]
}

// Reads past so many bytes. Whether they were there.
fn skip(input: &mut impl Read, buffer: &mut [u8], len: usize) -> bool {
    let mut left = len;
    while 0 < left {
        let most = left.min(buffer.len());
        let got = read_full(input, &mut buffer[..most]).len();
        if got == 0 {
            return false;
        }
        left -= got;
    }
    true
}

// The next record: its kind and its input, which is read to the start of the buffer; nothing where the batch ends.
fn read_record<'a>(
    input: &mut impl Read,
    buffer: &'a mut [u8],
) -> Result<Option<(u8, &'a [u8])>, Unread> {
    let mut head = [0; 5];
    let (kind, len) = match read_full(input, &mut head) {
        [] => return Ok(None),
        [kind, a, b, c, d] => (*kind, u32::from_le_bytes([*a, *b, *c, *d]) as usize),
        _ => return Err(Unread::Cut),
    };
    if buffer.len() < len {
        let there = skip(input, buffer, len);
        return Err(if there { Unread::TooLong } else { Unread::Cut });
    }
    let bytes = read_full(input, &mut buffer[..len]);
    if bytes.len() < len {
        return Err(Unread::Cut);
    }
    Ok(Some((kind, bytes)))
}

// All records; the number of turns only bounds the loop.
fn batch(out: &mut Output, input: &mut impl Read, buffer: &mut [u8]) -> fmt::Result {
    for _ in 0..u64::MAX {
        match read_record(input, buffer) {
            Ok(Some((kind, bytes))) => answer(out, kind, bytes)?,
            Ok(None) => return Ok(()),
            Err(Unread::TooLong) => writeln!(out, "too long")?,
            Err(Unread::Cut) => return writeln!(out, "cut"),
        }
        out.texts(&[".\n"])?;
    }
    Ok(())
}

fn main(rt: HostRuntime) {
    let mut out = Output::new(rt.stdout());
    let mut buffer = [0; LONGEST];
    // Where a write failed, nothing is said of it, and the batch is left at its next answer.
    let _ = examples::answer(&mut out, &rt, &mut buffer);
    let _ = batch(&mut out, &mut rt.stdin(), &mut buffer);
    let _ = out.flush();
}
