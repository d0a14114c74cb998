// Primitive values: parsers/primitive.rs of the Rust. Its trait is here too, under a named function for each kind, and a slice that is too short,
// where the Rust panics, is refusal 12.
ghost use Rattle.std.specs.Prelude.{◌≡◌, ℕ, ◌^◌, ◌<◌, Result};
ghost use Rattle.octets.specs.Cursor.{width_of};
ghost use Rattle.octets.specs.Paper.{Paper};
ghost use Rattle.octets.specs.Refusals.{paper_answer};
ghost use Rattle.octets.specs.Paper.Paper.{integer};
ghost use Rattle.octets.specs.declared.cursor.Width.{Width};
ghost use Rattle.octets.specs.declared.cursor.Width.TheVariants.{One, Two, Four, Eight};
ghost use Rattle.std.specs.Float.Ieee.{binary32, binary64};
ghost use Rattle.primitive.specs.Primitive as rules;
ghost use Rattle.primitive.specs.Calls as calls;

use octets::cursor::{Cursor, Width};
use octets::{Endianness, Refusal};

/// A float, or the bits of a NaN: no float of this language can be made of them.
#[derive(Clone, Copy)]
pub enum FloatRead<F, B> {
    Is(F),
    Nan(B),
}

// A kind of value: how many bytes it has, how the number is told that they spell, and how a value is told.
trait BlendPrimitive {
    ghost WIDTH: { Width };

    ghost told: { ℕ → Paper };

    ghost paper: { Self → Paper };

    const WIDTH: Width;

    // The value whose bytes spell this number.
    fn of_number(n: u64) -> Self
        requires { n < 256 ^ width_of WIDTH }
        ensures { paper result ≡ told n };
}

impl BlendPrimitive for u8 {
    ghost WIDTH = { One };

    ghost told = { rules.unsigned };

    ghost paper = { rules.unsigned };

    const WIDTH: Width = Width::One;

    fn of_number(n: u64) -> Self {
        n as u8
    }
}

impl BlendPrimitive for u16 {
    ghost WIDTH = { Two };

    ghost told = { rules.unsigned };

    ghost paper = { rules.unsigned };

    const WIDTH: Width = Width::Two;

    fn of_number(n: u64) -> Self {
        n as u16
    }
}

impl BlendPrimitive for u32 {
    ghost WIDTH = { Four };

    ghost told = { rules.unsigned };

    ghost paper = { rules.unsigned };

    const WIDTH: Width = Width::Four;

    fn of_number(n: u64) -> Self {
        n as u32
    }
}

impl BlendPrimitive for u64 {
    ghost WIDTH = { Eight };

    ghost told = { rules.unsigned };

    ghost paper = { rules.unsigned };

    const WIDTH: Width = Width::Eight;

    fn of_number(n: u64) -> Self {
        n
    }
}

impl BlendPrimitive for i8 {
    ghost WIDTH = { One };

    ghost told = { rules.signed 8 };

    ghost paper = { integer };

    const WIDTH: Width = Width::One;

    fn of_number(n: u64) -> Self {
        (n as u8).cast_signed()
    }
}

impl BlendPrimitive for i16 {
    ghost WIDTH = { Two };

    ghost told = { rules.signed 16 };

    ghost paper = { integer };

    const WIDTH: Width = Width::Two;

    fn of_number(n: u64) -> Self {
        (n as u16).cast_signed()
    }
}

impl BlendPrimitive for i32 {
    ghost WIDTH = { Four };

    ghost told = { rules.signed 32 };

    ghost paper = { integer };

    const WIDTH: Width = Width::Four;

    fn of_number(n: u64) -> Self {
        (n as u32).cast_signed()
    }
}

impl BlendPrimitive for i64 {
    ghost WIDTH = { Eight };

    ghost told = { rules.signed 64 };

    ghost paper = { integer };

    const WIDTH: Width = Width::Eight;

    fn of_number(n: u64) -> Self {
        n.cast_signed()
    }
}

impl BlendPrimitive for FloatRead<f32, u32> {
    ghost WIDTH = { Four };

    ghost told = { rules.float binary32 };

    ghost paper = { rules.paper_float };

    const WIDTH: Width = Width::Four;

    fn of_number(n: u64) -> Self {
        let bits = n as u32;
        if 0x7f80_0000 < bits % 0x8000_0000 {
            FloatRead::Nan(bits)
        } else {
            FloatRead::Is(f32::from_bits(bits))
        }
    }
}

impl BlendPrimitive for FloatRead<f64, u64> {
    ghost WIDTH = { Eight };

    ghost told = { rules.float binary64 };

    ghost paper = { rules.paper_float };

    const WIDTH: Width = Width::Eight;

    fn of_number(n: u64) -> Self {
        if 0x7ff0_0000_0000_0000 < n % 0x8000_0000_0000_0000 {
            FloatRead::Nan(n)
        } else {
            FloatRead::Is(f64::from_bits(n))
        }
    }
}

// The value of a kind that a slice begins with.
fn parse<T: BlendPrimitive>(slice: &[u8], endianness: Endianness) -> Result<T, Refusal>
    ensures { paper_answer T.paper result ≡ rules.value_of (width_of T.WIDTH) T.told endianness slice.now }
{
    let Ok((n, _)) = Cursor::new(0).number(slice, T::WIDTH, endianness) else {
        return Err(Refusal::ValueSliceTooShort);
    };
    Ok(T::of_number(n))
}

// A name for each kind, as the Rust has them and C is told them: each is `parse` at a type.

/// The unsigned number of one byte that a slice begins with.
pub fn parse_u8(slice: &[u8], endianness: Endianness) -> Result<u8, Refusal>
    ensures { calls.primitive::parse_u8 slice.now endianness result }
{
    parse::<u8>(slice, endianness)
}

/// The unsigned number of two bytes that a slice begins with.
pub fn parse_u16(slice: &[u8], endianness: Endianness) -> Result<u16, Refusal>
    ensures { calls.primitive::parse_u16 slice.now endianness result }
{
    parse::<u16>(slice, endianness)
}

/// The unsigned number of four bytes that a slice begins with.
pub fn parse_u32(slice: &[u8], endianness: Endianness) -> Result<u32, Refusal>
    ensures { calls.primitive::parse_u32 slice.now endianness result }
{
    parse::<u32>(slice, endianness)
}

/// The unsigned number of eight bytes that a slice begins with.
pub fn parse_u64(slice: &[u8], endianness: Endianness) -> Result<u64, Refusal>
    ensures { calls.primitive::parse_u64 slice.now endianness result }
{
    parse::<u64>(slice, endianness)
}

/// The character that a slice begins with: its byte.
pub fn parse_char(slice: &[u8], endianness: Endianness) -> Result<u8, Refusal>
    ensures { calls.primitive::parse_char slice.now endianness result }
{
    parse::<u8>(slice, endianness)
}

/// The signed number of one byte that a slice begins with.
pub fn parse_i8(slice: &[u8], endianness: Endianness) -> Result<i8, Refusal>
    ensures { calls.primitive::parse_i8 slice.now endianness result }
{
    parse::<i8>(slice, endianness)
}

/// The signed number of two bytes that a slice begins with.
pub fn parse_i16(slice: &[u8], endianness: Endianness) -> Result<i16, Refusal>
    ensures { calls.primitive::parse_i16 slice.now endianness result }
{
    parse::<i16>(slice, endianness)
}

/// The signed number of four bytes that a slice begins with.
pub fn parse_i32(slice: &[u8], endianness: Endianness) -> Result<i32, Refusal>
    ensures { calls.primitive::parse_i32 slice.now endianness result }
{
    parse::<i32>(slice, endianness)
}

/// The signed number of eight bytes that a slice begins with.
pub fn parse_i64(slice: &[u8], endianness: Endianness) -> Result<i64, Refusal>
    ensures { calls.primitive::parse_i64 slice.now endianness result }
{
    parse::<i64>(slice, endianness)
}

/// The float of four bytes that a slice begins with.
pub fn parse_f32(slice: &[u8], endianness: Endianness) -> Result<FloatRead<f32, u32>, Refusal>
    ensures { calls.primitive::parse_f32 slice.now endianness result }
{
    parse::<FloatRead<f32, u32>>(slice, endianness)
}

/// The float of eight bytes that a slice begins with.
pub fn parse_f64(slice: &[u8], endianness: Endianness) -> Result<FloatRead<f64, u64>, Refusal>
    ensures { calls.primitive::parse_f64 slice.now endianness result }
{
    parse::<FloatRead<f64, u64>>(slice, endianness)
}

// A name for each kind, as the Rust has them: no more than a text each.

/// Blender's name for a character.
pub fn blender_name_char() -> &'static str
    ensures { calls.primitive::blender_name_char result.now }
{
    "char"
}

/// Blender's name for a signed number of one byte.
pub fn blender_name_i8() -> &'static str
    ensures { calls.primitive::blender_name_i8 result.now }
{
    "char"
}

/// Blender's name for an unsigned number of one byte.
pub fn blender_name_u8() -> &'static str
    ensures { calls.primitive::blender_name_u8 result.now }
{
    "uchar"
}

/// Blender's name for an unsigned number of two bytes.
pub fn blender_name_u16() -> &'static str
    ensures { calls.primitive::blender_name_u16 result.now }
{
    "ushort"
}

/// Blender's name for a signed number of two bytes.
pub fn blender_name_i16() -> &'static str
    ensures { calls.primitive::blender_name_i16 result.now }
{
    "short"
}

/// Blender's name for a signed number of four bytes.
pub fn blender_name_i32() -> &'static str
    ensures { calls.primitive::blender_name_i32 result.now }
{
    "int"
}

/// Blender's name for an unsigned number of four bytes.
pub fn blender_name_u32() -> &'static str
    ensures { calls.primitive::blender_name_u32 result.now }
{
    "ulong"
}

/// Blender's name for a float of four bytes.
pub fn blender_name_f32() -> &'static str
    ensures { calls.primitive::blender_name_f32 result.now }
{
    "float"
}

/// Blender's name for a float of eight bytes.
pub fn blender_name_f64() -> &'static str
    ensures { calls.primitive::blender_name_f64 result.now }
{
    "double"
}

/// Blender's name for an unsigned number of eight bytes.
pub fn blender_name_u64() -> &'static str
    ensures { calls.primitive::blender_name_u64 result.now }
{
    "uint64_t"
}

/// Blender's name for a signed number of eight bytes.
pub fn blender_name_i64() -> &'static str
    ensures { calls.primitive::blender_name_i64 result.now }
{
    "int64_t"
}
