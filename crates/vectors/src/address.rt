// An address, 8 bytes in little order, looked for in the file after it; and every row's code.
use crate::file::{NUMBERS, refused_line};
use crate::out::Output;
use blend::blend::blend;
use block::Row;
use octets::Refusal;
use runtime::runtime::{Pointer, code, get_ptr};
use std::fmt;
use std::fmt::Write;

fn code_lines(out: &mut Output, table: &[u64], rows: usize) -> fmt::Result {
    let (all, _) = table.as_chunks::<{ Row::NUMBERS }>();
    for row in all.iter().take(rows) {
        match code(row[Row::CODE]) {
            Some(bytes) => writeln!(out, "code {:08x}", u32::from_be_bytes(bytes))?,
            None => writeln!(out, "code none")?,
        }
    }
    Ok(())
}

fn pointer_line(out: &mut Output, found: Result<Pointer, Refusal>) -> fmt::Result {
    match found {
        Ok(Pointer::Null) => writeln!(out, "null"),
        Ok(Pointer::Block(row)) => writeln!(out, "found {row}"),
        Ok(Pointer::Missing) => writeln!(out, "missing"),
        Err(r) => writeln!(out, "refused {r}"),
    }
}

fn search(out: &mut Output, file: &[u8], address: u64) -> fmt::Result {
    let mut table = [0; NUMBERS];
    match blend(file, &mut table) {
        Ok(b) => {
            pointer_line(out, get_ptr(&table, b.rows, address))?;
            code_lines(out, &table, b.rows)
        }
        Err(e) => refused_line(out, e),
    }
}

pub fn answer(out: &mut Output, input: &[u8]) -> fmt::Result {
    match input.split_first_chunk::<8>() {
        Some((address, file)) => search(out, file, u64::from_le_bytes(*address)),
        None => writeln!(out, "bad-input"),
    }
}
