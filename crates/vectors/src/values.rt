// Primitive values: a slice read as each kind, in both orders; and the kinds' names.
use crate::out::Output;
use octets::{Endianness, Refusal};
use primitive::primitive::{
    FloatRead, blender_name_char, blender_name_f32, blender_name_f64, blender_name_i8,
    blender_name_i16, blender_name_i32, blender_name_i64, blender_name_u8, blender_name_u16,
    blender_name_u32, blender_name_u64, parse_char, parse_f32, parse_f64, parse_i8, parse_i16,
    parse_i32, parse_i64, parse_u8, parse_u16, parse_u32, parse_u64,
};
use std::fmt;
use std::fmt::{Display, Write};

// The bits of a float.
#[derive(Clone, Copy)]
enum Bits {
    Of32(u32),
    Of64(u64),
}

// In hexadecimal, all digits.
impl Display for Bits {
    fn fmt<W: fmt::Write>(&self, f: &mut fmt::Formatter<W>) -> fmt::Result {
        match self {
            Bits::Of32(n) => write!(f, "{n:08x}"),
            Bits::Of64(n) => write!(f, "{n:016x}"),
        }
    }
}

// Two functions, since only what each reading ensures shows that `to_bits` is given no NaN.
fn f32_bits(slice: &[u8], order: Endianness) -> Result<Bits, Refusal> {
    match parse_f32(slice, order)? {
        FloatRead::Is(x) => Ok(Bits::Of32(x.to_bits())),
        FloatRead::Nan(n) => Ok(Bits::Of32(n)),
    }
}

fn f64_bits(slice: &[u8], order: Endianness) -> Result<Bits, Refusal> {
    match parse_f64(slice, order)? {
        FloatRead::Is(x) => Ok(Bits::Of64(x.to_bits())),
        FloatRead::Nan(n) => Ok(Bits::Of64(n)),
    }
}

// A value of a kind, or the refusal.
fn line<T: Display + Drop>(
    out: &mut Output,
    kind: &str,
    order: Endianness,
    value: Result<T, Refusal>,
) -> fmt::Result {
    let order = match order {
        Endianness::Little => " little ",
        Endianness::Big => " big ",
    };
    out.texts(&[kind, order])?;
    match value {
        Ok(v) => write!(out, "{v}")?,
        Err(r) => write!(out, "refused {r}")?,
    }
    out.texts(&["\n"])
}

// A line for each kind, in this order.
fn lines(out: &mut Output, s: &[u8], order: Endianness) -> fmt::Result {
    line(out, "u8", order, parse_u8(s, order))?;
    line(out, "char", order, parse_char(s, order))?;
    line(out, "i8", order, parse_i8(s, order))?;
    line(out, "u16", order, parse_u16(s, order))?;
    line(out, "i16", order, parse_i16(s, order))?;
    line(out, "u32", order, parse_u32(s, order))?;
    line(out, "i32", order, parse_i32(s, order))?;
    line(out, "u64", order, parse_u64(s, order))?;
    line(out, "i64", order, parse_i64(s, order))?;
    line(out, "f32", order, f32_bits(s, order))?;
    line(out, "f64", order, f64_bits(s, order))
}

pub fn answer(out: &mut Output, s: &[u8]) -> fmt::Result {
    lines(out, s, Endianness::Little)?;
    lines(out, s, Endianness::Big)
}

// The names of the kinds.
pub fn names_answer(out: &mut Output) -> fmt::Result {
    for (kind, name) in [
        ("u8 ", blender_name_u8()),
        ("char ", blender_name_char()),
        ("i8 ", blender_name_i8()),
        ("u16 ", blender_name_u16()),
        ("i16 ", blender_name_i16()),
        ("u32 ", blender_name_u32()),
        ("i32 ", blender_name_i32()),
        ("u64 ", blender_name_u64()),
        ("i64 ", blender_name_i64()),
        ("f32 ", blender_name_f32()),
        ("f64 ", blender_name_f64()),
    ] {
        out.texts(&[kind, name, "\n"])?;
    }
    Ok(())
}
