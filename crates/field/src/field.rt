// Declarators: parsers/field.rs of the Rust, on any bytes, with a lent table for the dimensions and with the widths of fields.
ghost use Rattle.std.specs.Prelude.{◌≡◌, ◌≤◌, ◌++◌, length, drop};
ghost use Rattle.octets.specs.Reader.{run};
ghost use Rattle.field.specs.Declarators as rules;
ghost use Rattle.field.specs.Helpers.{times_of, decimal_of, with_digit, group_of, finish, leading, place_of, scan_of, array_declared, function_args, function_by, function_of, plain_kind, array_kind};
ghost use Rattle.field.specs.Calls as calls;

use octets::cursor::{Cursor, before, stands_at};
use octets::{Fault, PointerSize, Refusal};

/// An offset in the bytes handed in, and a length.
#[derive(Clone, Copy, Debug, PartialEq, Eq)]
pub struct Span {
    pub at: usize,
    pub len: usize,
}

/// What a declarator declares.
#[derive(Clone, Copy, Debug, PartialEq, Eq)]
pub enum FieldInfo {
    Value,
    ValueArray {
        len: u64,
        dimensions: usize,
    },
    Pointer {
        indirection_count: usize,
    },
    PointerArray {
        indirection_count: usize,
        len: u64,
        dimensions: usize,
    },
    FnPointer,
}

/// A declarator: its name's place, what is left of it, and what it declares.
#[derive(Clone, Copy, Debug, PartialEq, Eq)]
pub struct Declarator {
    pub name: Span,
    pub rest: Span,
    pub kind: FieldInfo,
}

/// Why parse_field gives no declarator.
#[derive(Clone, Copy, Debug, PartialEq, Eq)]
pub enum FieldError {
    /// 9 or 10: what scan_field refuses.
    Refusal(Refusal),
    /// 11, with the number of groups: the table for the dimensions is too short.
    DimensionTableTooShort(usize),
}

impl From<Refusal> for FieldError {
    ghost use Rattle.field.specs.declared.field.FieldError.{FieldError};

    ghost from_gives = { λ r e. e ≡ FieldError.Refusal r };

    fn from(r: Refusal) -> Self {
        FieldError::Refusal(r)
    }
}

// All the groups at the front of some bytes: how many, their product where 64 bits hold it, and how many bytes they take.
#[derive(Clone, Copy)]
pub(crate) struct Groups {
    count: usize,
    product: Option<u64>,
    span: usize,
}

// An array before the table and the product are looked at.
#[derive(Clone, Copy)]
pub(crate) struct ArrayParts {
    indirection_count: usize,
    name: Span,
    rest: Span,
    count: usize,
    product: Option<u64>,
}

// A declarator, or the parts of one that is an array.
#[derive(Clone, Copy)]
pub(crate) enum Scan {
    Plain(Declarator),
    Array(ArrayParts),
}

// One factor more of a product, None where 64 bits do not hold it: that stays so, but for a factor of 0.
fn times(product: Option<u64>, d: u64) -> Option<u64>
    ensures { result ≡ times_of product d }
{
    if d == 0 {
        return Some(0);
    }
    product?.checked_mul(d)
}

// The number n with one more decimal digit b, where that is a digit and 64 bits hold the number.
fn with_digit(n: u64, b: u8) -> Option<u64>
    ensures { result ≡ with_digit n b }
{
    if !b.is_ascii_digit() {
        return None;
    }
    n.checked_mul(10)?.checked_add(u64::from(b - b'0'))
}

// Decimal digits, at least one.
fn digits(part: &[u8]) -> Result<u64, Refusal>
    ensures { result ≡ decimal_of (rules.unsigned part.now) }
{
    if part.is_empty() {
        return Err(Refusal::InvalidArraySize);
    }
    let mut n = 0;
    for b in part {
        n = with_digit(n, *b).ok_or(Refusal::InvalidArraySize)?;
    }
    Ok(n)
}

// A group's content: digits, with a `+` before them or none.
fn dimension(part: &[u8]) -> Result<u64, Refusal>
    ensures { result ≡ decimal_of (rules.decimal part.now) }
{
    match part {
        [b'+', unsigned @ ..] => digits(unsigned),
        _ => digits(part),
    }
}

// Where the first byte c from at on stands; where there is none, the end, or at itself past the end.
fn first(s: &[u8], c: u8, at: usize) -> usize
    ensures { result ≡ rules.first c s.now at }
{
    if s.len() < at {
        return at;
    }
    at + before(&s[at..], c)
}

// The group that l begins with, its number and how many bytes it takes; none where no complete one stands there.
fn one_group(l: &[u8]) -> Result<Option<(u64, usize)>, Refusal>
    ensures { result ≡ group_of l.now }
{
    if !stands_at(l, 0, b"[") {
        return Ok(None);
    }
    let end = first(l, b']', 1);
    if l.len() <= end {
        return Ok(None);
    }
    let d = dimension(&l[1..end])?;
    Ok(Some((d, end + 1)))
}

// The groups that l begins with, taken while complete.
fn array_dimensions(l: &[u8]) -> Result<Groups, Refusal>
    ensures { result ≡ finish 0 (Some 1) 0 l.now }
{
    let mut count = 0;
    let mut product = Some(1);
    let mut at = 0;
    while let Some((d, span)) = one_group(&l[at..])? {
        product = times(product, d);
        count += 1;
        at += span;
    }
    Ok(Groups {
        count,
        product,
        span: at,
    })
}

// Writes the numbers of the groups that l begins with, up to the first that is none.
fn fill_dimensions(l: &[u8], dimensions: &mut [u64])
    requires { length (leading (rules.groups l.now)) ≤ length dimensions.old }
    ensures { dimensions.new ≡ leading (rules.groups l.now) ++ drop (length (leading (rules.groups l.now))) dimensions.old }
{
    let mut at = 0;
    for slot in dimensions.iter_mut() {
        let Ok(Some((d, span))) = one_group(&l[at..]) else {
            return;
        };
        *slot = d;
        at += span;
    }
}

// How many asterisks name begins with.
fn stars(name: &[u8]) -> usize
    ensures { result ≡ rules.stars name.now }
{
    name.iter().take_while(|b| **b == b'*').count()
}

// What is left of name from a place in it on.
fn onwards(name: &[u8], at: usize) -> Span
    requires { at ≤ length name.now }
    ensures { result ≡ place_of (rules.onwards name.now at) }
{
    Span {
        at,
        len: name.len() - at,
    }
}

// A function pointer from its second part on; the first has this place.
fn function_args(name: &[u8], place: Span, c: Cursor) -> Result<Declarator, Fault>
    ensures { result ≡ function_by name.now (run (function_args (place.at, place.len)) name.now c.at) }
{
    let args = c.mark(name, b"(")?;
    let (_, next) = args.until(name, b')')?;
    Ok(Declarator {
        name: place,
        rest: onwards(name, next.at),
        kind: FieldInfo::FnPointer,
    })
}

fn function_pointer(name: &[u8]) -> Result<Declarator, Fault>
    ensures { result ≡ function_of name.now }
{
    let start = Cursor { at: 0 };
    let from = start.mark(name, b"(*")?;
    let (len, next) = from.until(name, b')')?;
    function_args(name, Span { at: from.at, len }, next)
}

fn plain_kind(indirection_count: usize) -> FieldInfo
    ensures { result ≡ plain_kind indirection_count }
{
    if indirection_count == 0 {
        FieldInfo::Value
    } else {
        FieldInfo::Pointer { indirection_count }
    }
}

fn array_kind(indirection_count: usize, len: u64, dimensions: usize) -> FieldInfo
    ensures { result ≡ array_kind indirection_count len dimensions }
{
    if indirection_count == 0 {
        FieldInfo::ValueArray { len, dimensions }
    } else {
        FieldInfo::PointerArray {
            indirection_count,
            len,
            dimensions,
        }
    }
}

impl ArrayParts {
    // The array that these are the parts of, where 64 bits hold its length.
    fn declarator(self) -> Result<Declarator, Refusal>
        ensures { result ≡ array_declared self }
    {
        let len = self.product.ok_or(Refusal::ProductTooLarge)?;
        Ok(Declarator {
            name: self.name,
            rest: self.rest,
            kind: array_kind(self.indirection_count, len, self.count),
        })
    }
}

fn pointer_or_value(name: &[u8]) -> Result<Scan, Refusal>
    ensures { result ≡ scan_of (rules.pointer_or_value name.now) }
{
    let n = stars(name);
    let end = first(name, b'[', n);
    let place = Span {
        at: n,
        len: end - n,
    };
    if end == name.len() {
        return Ok(Scan::Plain(Declarator {
            name: place,
            rest: onwards(name, end),
            kind: plain_kind(n),
        }));
    }
    let groups = array_dimensions(&name[end..])?;
    let rest = onwards(name, end + groups.span);
    Ok(Scan::Array(ArrayParts {
        indirection_count: n,
        name: place,
        rest,
        count: groups.count,
        product: groups.product,
    }))
}

fn scanned(name: &[u8]) -> Result<Scan, Refusal>
    ensures { result ≡ scan_of (rules.declared name.now) }
{
    match function_pointer(name) {
        Ok(d) => Ok(Scan::Plain(d)),
        Err(_) => pointer_or_value(name),
    }
}

/// A function pointer, or why the bytes are none, and where in them.
pub fn fn_pointer(name: &[u8]) -> Result<Declarator, Fault>
    ensures { calls.field::fn_pointer name.now result }
{
    function_pointer(name)
}

/// The declarator that name is, with no table for the dimensions; or refusal 9 or 10.
pub fn scan_field(name: &[u8]) -> Result<Declarator, Refusal>
    ensures { calls.field::scan_field name.now result }
{
    match scanned(name)? {
        Scan::Plain(d) => Ok(d),
        Scan::Array(parts) => parts.declarator(),
    }
}

/// The declarator that name is; its dimensions fill the table from the front. A refusal leaves the table as it was.
pub fn parse_field(name: &[u8], dimensions: &mut [u64]) -> Result<Declarator, FieldError>
    ensures { calls.field::parse_field name.now dimensions.old result dimensions.new }
{
    match scanned(name)? {
        Scan::Plain(d) => Ok(d),
        Scan::Array(parts) => {
            if dimensions.len() < parts.count {
                return Err(FieldError::DimensionTableTooShort(parts.count));
            }
            let d = parts.declarator()?;
            let from = parts.name.at + parts.name.len;
            fill_dimensions(&name[from..], dimensions);
            Ok(d)
        }
    }
}

// How many bytes one element of a field takes.
fn unit(kind: FieldInfo, size: u64, pointer_size: PointerSize) -> u64
    ensures { result ≡ rules.unit_of kind size pointer_size }
{
    match kind {
        FieldInfo::Value | FieldInfo::ValueArray { .. } => size,
        FieldInfo::Pointer { .. } | FieldInfo::PointerArray { .. } | FieldInfo::FnPointer => {
            pointer_size.bytes_num() as u64
        }
    }
}

// How many elements a field has.
fn elements(kind: FieldInfo) -> u64
    ensures { result ≡ rules.length_of kind }
{
    match kind {
        FieldInfo::ValueArray { len, .. } | FieldInfo::PointerArray { len, .. } => len,
        FieldInfo::Value | FieldInfo::Pointer { .. } | FieldInfo::FnPointer => 1,
    }
}

/// How many bytes a field takes, with the size of its type and the pointer size of its file; or refusal 15, a declarator with a rest has no width, or 10.
pub fn width(d: Declarator, size: u64, pointer_size: PointerSize) -> Result<u64, Refusal>
    ensures { calls.«field::width» d size pointer_size result }
{
    if d.rest.len != 0 {
        return Err(Refusal::NameNotFullyRead);
    }
    unit(d.kind, size, pointer_size)
        .checked_mul(elements(d.kind))
        .ok_or(Refusal::ProductTooLarge)
}
