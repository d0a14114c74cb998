// Catalogues: the counts, and a line for each row of the four tables.
ghost use Rattle.std.specs.Prelude.{◌<◌};

use crate::out::Output;
use crate::words;
use dna::dna::{DnaCounts, DnaError, dna, dna_counts};
use octets::{Endianness, Refusal};
use std::fmt;
use std::fmt::Write;

// A name's bytes, by its place in the payload.
#[derive(Clone, Copy)]
struct Name<'a> {
    payload: &'a [u8],
    from: u64,
    len: u64,
}

impl Name<'_> {
    fn bytes(&self) -> Option<&[u8]> {
        self.payload
            .get(self.from as usize..)?
            .get(..self.len as usize)
    }

    // The end of a line: its length, and its bytes in hexadecimal.
    fn ends_line(&self, out: &mut Output) -> fmt::Result {
        write!(out, "{}", self.len)?;
        let Some(bytes) = self.bytes() else {
            return writeln!(out, " outside");
        };
        if !bytes.is_empty() {
            write!(out, " ")?;
        }
        out.hex(bytes)?;
        writeln!(out)
    }
}

fn name_lines(out: &mut Output, payload: &[u8], table: &[u64], rows: u64) -> fmt::Result {
    let (all, _) = table.as_chunks::<2>();
    for &[from, len] in all.iter().take(rows as usize) {
        write!(out, "name ")?;
        Name { payload, from, len }.ends_line(out)?;
    }
    Ok(())
}

fn type_lines(out: &mut Output, payload: &[u8], table: &[u64], rows: u64) -> fmt::Result {
    let (all, _) = table.as_chunks::<3>();
    for &[from, len, size] in all.iter().take(rows as usize) {
        write!(out, "type {size} ")?;
        Name { payload, from, len }.ends_line(out)?;
    }
    Ok(())
}

// The first rows of a table, each after the word.
fn row_lines(out: &mut Output, word: &str, table: &[u64], per_row: usize, rows: u64) -> fmt::Result
    requires { 0 < per_row }
{
    for row in table.chunks_exact(per_row).take(rows as usize) {
        write!(out, "{word}")?;
        words(out, row, per_row)?;
        writeln!(out)?;
    }
    Ok(())
}

// The counts and the place after the last struct.
fn counts_line(out: &mut Output, payload: &[u8], order: Endianness, n: DnaCounts) -> fmt::Result {
    write!(
        out,
        "dna {} {} {} {} ",
        n.names, n.types, n.structs, n.fields
    )?;
    match dna_counts(payload, order) {
        Ok((_, end)) => writeln!(out, "{end}"),
        Err(f) => writeln!(out, "refused {f}"),
    }
}

// Answers by tables of so many numbers, or, where one of them is too short, nothing. Whether they were long enough.
fn answered<const NAMES: usize, const TYPES: usize, const STRUCTS: usize, const FIELDS: usize>(
    out: &mut Output,
    payload: &[u8],
    order: Endianness,
) -> Result<bool, fmt::Error>
    requires { (NAMES < 65536) × (TYPES < 65536) × (STRUCTS < 65536) × (FIELDS < 65536) }
{
    let mut names = [0; NAMES];
    let mut types = [0; TYPES];
    let mut structs = [0; STRUCTS];
    let mut fields = [0; FIELDS];
    match dna(
        payload,
        order,
        &mut names,
        &mut types,
        &mut structs,
        &mut fields,
    ) {
        Ok(n) => {
            counts_line(out, payload, order, n)?;
            name_lines(out, payload, &names, n.names)?;
            type_lines(out, payload, &types, n.types)?;
            row_lines(out, "struct", &structs, 3, n.structs)?;
            row_lines(out, "field", &fields, 2, n.fields)?;
        }
        Err(DnaError::Fault(f)) => writeln!(out, "refused {f}")?,
        Err(DnaError::TableTooShort(..)) => return Ok(false),
    }
    Ok(true)
}

// Most catalogues are small, and so are the tables that are made for each; then with tables for the catalogue of a real scene.
pub fn answer(out: &mut Output, payload: &[u8], order: Endianness) -> fmt::Result {
    if answered::<128, 192, 192, 256>(out, payload, order)? {
        return Ok(());
    }
    if answered::<10000, 3000, 3000, 18000>(out, payload, order)? {
        return Ok(());
    }
    writeln!(out, "refused {}", Refusal::CATALOGUE_TABLE_TOO_SHORT)
}
