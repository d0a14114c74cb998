// Declarators.
use crate::out::Output;
use crate::words;
use field::field::{Declarator, FieldError, FieldInfo, fn_pointer, parse_field};
use octets::Refusal;
use std::fmt;
use std::fmt::Write;

// In a few words. The dimensions come after them.
fn short(out: &mut Output, d: Declarator) -> fmt::Result {
    let (at, n, rest) = (d.name.at, d.name.len, d.rest.at);
    match d.kind {
        FieldInfo::Value => write!(out, "value {at} {n} {rest}"),
        FieldInfo::ValueArray { len, dimensions } => {
            write!(out, "array {at} {n} {rest} {len} {dimensions}")
        }
        FieldInfo::Pointer {
            indirection_count: stars,
        } => write!(out, "pointer {at} {n} {rest} {stars}"),
        FieldInfo::PointerArray {
            indirection_count: stars,
            len,
            dimensions,
        } => write!(
            out,
            "pointer-array {at} {n} {rest} {stars} {len} {dimensions}"
        ),
        FieldInfo::FnPointer => write!(out, "fn {at} {n} {rest}"),
    }
}

// What it is, and its places.
fn long_words(out: &mut Output, word: &str, d: Declarator) -> fmt::Result {
    write!(
        out,
        "{word} name {} {} rest {} {}",
        d.name.at, d.name.len, d.rest.at, d.rest.len
    )
}

// In whole words.
pub fn long(out: &mut Output, d: Declarator) -> fmt::Result {
    match d.kind {
        FieldInfo::Value => long_words(out, "value", d),
        FieldInfo::ValueArray { len, dimensions } => {
            long_words(out, "value array", d)?;
            write!(out, " length {len} dimensions {dimensions}")
        }
        FieldInfo::Pointer {
            indirection_count: stars,
        } => {
            long_words(out, "pointer", d)?;
            write!(out, " indirection {stars}")
        }
        FieldInfo::PointerArray {
            indirection_count: stars,
            len,
            dimensions,
        } => {
            long_words(out, "pointer array", d)?;
            write!(
                out,
                " indirection {stars} length {len} dimensions {dimensions}"
            )
        }
        FieldInfo::FnPointer => long_words(out, "function pointer", d),
    }
}

pub fn refused(out: &mut Output, e: FieldError) -> fmt::Result {
    match e {
        FieldError::Refusal(r) => write!(out, "refused {r}"),
        FieldError::DimensionTableTooShort(groups) => write!(
            out,
            "refused {} {groups}",
            Refusal::DIMENSION_TABLE_TOO_SHORT
        ),
    }
}

// How many dimensions a declarator has.
fn dimensions(kind: FieldInfo) -> usize {
    match kind {
        FieldInfo::ValueArray { dimensions, .. } | FieldInfo::PointerArray { dimensions, .. } => {
            dimensions
        }
        FieldInfo::Value | FieldInfo::Pointer { .. } | FieldInfo::FnPointer => 0,
    }
}

pub fn answer(out: &mut Output, name: &[u8]) -> fmt::Result {
    // An array, lent: its length is part of the answers.
    let mut table = [0; 64];
    match parse_field(name, &mut table) {
        Ok(d) => {
            short(out, d)?;
            words(out, &table, dimensions(d.kind))?;
        }
        Err(e) => refused(out, e)?,
    }
    writeln!(out)
}

// A name as a function pointer.
pub fn function_answer(out: &mut Output, name: &[u8]) -> fmt::Result {
    match fn_pointer(name) {
        Ok(d) => writeln!(
            out,
            "fn {} {} {} {}",
            d.name.at, d.name.len, d.rest.at, d.rest.len
        ),
        Err(f) => writeln!(out, "refused {f}"),
    }
}
