// Whole files: the header, the rows with what their views show, and a walk that has to find the same.
use crate::out::Output;
use blend::blend::{BlendError, RawBlend, blend};
use block::Row;
use header::blend::header;
use octets::{Fault, Refusal};
use runtime::runtime::{view, view_part};
use std::fmt;
use std::fmt::Write;
use walker::{Place, Step};

// The table that is lent has 128 rows; a file of more is answered by refusal 7.
pub const NUMBERS: usize = 128 * Row::NUMBERS;

// 64-bit FNV-1a.
fn hash(bytes: &[u8]) -> u64 {
    let mut h: u64 = 0xcbf2_9ce4_8422_2325;
    for b in bytes {
        h = (h ^ u64::from(*b)).wrapping_mul(0x100_0000_01b3);
    }
    h
}

// Each row, with the hash of what its view shows.
fn row_lines(out: &mut Output, file: &[u8], table: &[u64], rows: usize) -> fmt::Result {
    let (all, _) = table.as_chunks::<{ Row::NUMBERS }>();
    for (row, numbers) in all.iter().take(rows).enumerate() {
        let [code, address, index, count, at, payload, len] = numbers;
        write!(
            out,
            "row {code:08x} {address} {index} {count} {at} {payload} {len} "
        )?;
        match view(file, table, row) {
            Ok(()) => writeln!(out, "{:016x}", hash(view_part(file, table, row)))?,
            Err(r) => writeln!(out, "view {r}")?,
        }
    }
    Ok(())
}

fn read_lines(out: &mut Output, file: &[u8], table: &[u64], b: RawBlend) -> fmt::Result {
    write!(out, "file {} {} {} ", b.header, b.rows, b.end)?;
    let n = b.dna;
    writeln!(out, "{} {} {} {}", n.names, n.types, n.structs, n.fields)?;
    row_lines(out, file, table, b.rows)
}

// The row that the table has as these numbers. As scene has it, which knows none of this program: seven names are no plainer as a conversion that a library promises.
fn row_of(numbers: &[u64; Row::NUMBERS]) -> Row {
    let [code, address, index, count, at, payload, len] = *numbers;
    Row {
        code,
        address,
        index,
        count,
        at,
        payload,
        len,
    }
}

// How a step ends a walk, at the offset after the end mark or by a refusal, and the place that it hands back.
fn ending(s: Step) -> Option<(Result<usize, Fault>, Place)> {
    match s {
        Step::Block(..) => None,
        Step::End(end, back) => Some((Ok(end), back)),
        Step::Refused(f, back) => Some((Err(f), back)),
    }
}

// Whether a step ends a walk so, and one from the place that it hands back does again.
fn ends_so(s: Step, file: &[u8], so: Result<usize, Fault>) -> bool {
    let Some((first, back)) = ending(s) else {
        return false;
    };
    first == so && ending(back.step(file)).is_some_and(|(again, _)| again == so)
}

// Whether a walk gives the table's first rows, and then the end.
fn walk_ends(file: &[u8], table: &[u64], b: RawBlend) -> bool {
    let mut place = Place::start();
    let (all, _) = table.as_chunks::<{ Row::NUMBERS }>();
    for numbers in all.iter().take(b.rows) {
        match place.step(file) {
            Step::Block(r, next) if r == row_of(numbers) => place = next,
            _ => return false,
        }
    }
    ends_so(place.step(file), file, Ok(b.end))
}

// Whether a walk comes to this refusal, at this place. A block has at least 20 bytes.
fn walk_is_refused(file: &[u8], fault: Fault) -> bool {
    let mut place = Place::start();
    for _ in 0..=file.len() / 20 {
        match place.step(file) {
            Step::Block(_, next) => place = next,
            s => return ends_so(s, file, Err(fault)),
        }
    }
    false
}

fn walk_line(out: &mut Output, as_read: bool) -> fmt::Result {
    if as_read {
        Ok(())
    } else {
        writeln!(out, "walk differs")
    }
}

pub fn refused_line(out: &mut Output, e: BlendError) -> fmt::Result {
    match e {
        BlendError::Fault(f) => writeln!(out, "refused {f}"),
        BlendError::TableTooShort(rows) => {
            writeln!(out, "refused {} {rows}", Refusal::BLOCK_TABLE_TOO_SHORT)
        }
    }
}

pub fn answer(out: &mut Output, file: &[u8]) -> fmt::Result {
    let mut table = [0; NUMBERS];
    match blend(file, &mut table) {
        Ok(b) => {
            read_lines(out, file, &table, b)?;
            walk_line(out, walk_ends(file, &table, b))
        }
        Err(e) => {
            refused_line(out, e)?;
            match e {
                BlendError::Fault(f) => walk_line(out, walk_is_refused(file, f)),
                BlendError::TableTooShort(_) => Ok(()),
            }
        }
    }
}

// A header by itself.
pub fn header_answer(out: &mut Output, bytes: &[u8]) -> fmt::Result {
    match header(bytes) {
        Ok((h, length)) => writeln!(out, "header {h} {length}"),
        Err(f) => writeln!(out, "refused {f}"),
    }
}
