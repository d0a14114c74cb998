// Examples of declarators and of their widths, a line each: a byte that says what is asked, a space, and a name.
//
// - `1`, `2`, `3`: read with a table of so many numbers, which hold 9 before.
// - `w`, `W`: the width, where pointers have 32 or 64 bits; the type's size and a space stand before the name.
// - `s`: read without a table. `f`: read as a function pointer.
use crate::declarator::{long, refused};
use crate::out::Output;
use crate::{read_full, words};
use field::field::{Declarator, FieldError, fn_pointer, parse_field, scan_field, width};
use octets::PointerSize;
use std::env::Env;
use std::fmt::Write;
use std::fs::File;
use std::io::Eprint;
use std::rt::Files;
use std::{fmt, str};

fn quoted(out: &mut Output, label: &str, name: &[u8]) -> fmt::Result {
    write!(out, "{label}\"")?;
    out.put(name)?;
    write!(out, "\"")
}

fn parsed(out: &mut Output, answer: Result<Declarator, FieldError>) -> fmt::Result {
    match answer {
        Ok(d) => long(out, d),
        Err(e) => refused(out, e),
    }
}

// With the first numbers of a table.
fn with_table(out: &mut Output, name: &[u8], room: usize) -> fmt::Result {
    let mut table = [9; 3];
    quoted(out, "", name)?;
    write!(out, " {room}: ")?;
    let Some(lent) = table.get_mut(..room) else {
        return Ok(());
    };
    parsed(out, parse_field(name, lent))?;
    write!(out, " |")?;
    words(out, lent, room)
}

fn without_table(out: &mut Output, name: &[u8]) -> fmt::Result {
    quoted(out, "scan of ", name)?;
    write!(out, ": ")?;
    parsed(out, scan_field(name).map_err(FieldError::from))
}

fn function(out: &mut Output, name: &[u8]) -> fmt::Result {
    quoted(out, "function pointer of ", name)?;
    write!(out, ": ")?;
    match fn_pointer(name) {
        Ok(d) => long(out, d),
        Err(f) => write!(out, "refused {f}"),
    }
}

fn width_line(out: &mut Output, name: &[u8], size: u64, pointers: PointerSize) -> fmt::Result {
    quoted(out, "width of ", name)?;
    write!(out, " of {size} with {}: ", pointers.bytes_num())?;
    let Ok(d) = parse_field(name, &mut [0; 3]) else {
        return write!(out, "none");
    };
    match width(d, size, pointers) {
        Ok(n) => write!(out, "{n}"),
        Err(r) => write!(out, "refused {r}"),
    }
}

// A number of at most 64 bits.
fn decimal(digits: &[u8]) -> u64 {
    let mut n: u64 = 0;
    for d in digits {
        n = (n % 1844674407370955162 * 10).wrapping_add(u64::from(*d % 16));
    }
    n
}

fn with_size(out: &mut Output, s: &[u8], pointers: PointerSize) -> fmt::Result {
    match s.iter().position(|b| *b == b' ') {
        Some(n) => width_line(out, &s[n + 1..], decimal(&s[..n]), pointers),
        None => Ok(()),
    }
}

// The byte is matched itself: an enum of what is asked would be this list a second time.
fn example(out: &mut Output, asked: u8, s: &[u8]) -> fmt::Result {
    match asked {
        b'1'..=b'3' => with_table(out, s, usize::from(asked - b'0')),
        b's' => without_table(out, s),
        b'f' => function(out, s),
        b'w' => with_size(out, s, PointerSize::Bits32),
        _ => with_size(out, s, PointerSize::Bits64),
    }
}

fn lines(out: &mut Output, all: &[u8]) -> fmt::Result {
    for line in all.split(|b| *b == b'\n') {
        if let [asked, _, name @ ..] = line {
            example(out, *asked, name)?;
            writeln!(out)?;
        }
    }
    Ok(())
}

// The lines of this file; where it cannot be opened, standard error says why.
fn file_lines(
    out: &mut Output,
    rt: &(impl Files + Eprint),
    path: &str,
    buffer: &mut [u8],
) -> fmt::Result {
    match File::open(rt, path) {
        Ok(mut file) => {
            let all = read_full(&mut file, buffer);
            drop(file);
            lines(out, all)
        }
        Err(e) => {
            let _ = eprintln!(rt; "{path}: {e}");
            Ok(())
        }
    }
}

// The lines of the file that the program's argument names, if it has one.
pub fn answer(
    out: &mut Output,
    rt: &(impl Env + Files + Eprint),
    buffer: &mut [u8],
) -> fmt::Result {
    // A name that is longer is passed over, as none is; so no String.
    let mut path = [0; 64];
    let n = rt.arg(1, &mut path).unwrap_or(0);
    if n == 0 {
        return Ok(());
    }
    match str::from_utf8(&path[..n]) {
        Ok(path) => file_lines(out, rt, path, buffer),
        Err(e) => {
            let _ = eprintln!(rt; "the file's name: {e}");
            Ok(())
        }
    }
}
