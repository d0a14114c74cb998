// The catalogue: parsers/dna.rs of the Rust, with lent tables. First a pass that counts and refuses, then one that fills.
ghost use Rattle.std.specs.Prelude.{◌≡◌, ◌+◌, ◌*◌, ◌^◌, ◌≤◌, ◌<◌, [], ◌∷◌, length, MatchResult};
ghost use Rattle.octets.specs.Helpers.{number_at, past, put};
ghost use Rattle.octets.specs.Cursor.{found, moved};
ghost use Rattle.octets.specs.Reader.{run, times};
ghost use Rattle.dna.specs.declared.dna.DnaError.{DnaError};
ghost use Rattle.dna.specs.Catalogue as rules;
ghost use Rattle.dna.specs.Passes.{ListedIs, SizedIs, StructsAre, OneStructIs, LaidIs, AllFit, texts_of, sizes_of, structs_of, counts_of, fields_of, totalled, shorts_past};
ghost use Rattle.dna.specs.Calls as calls;

use octets::cursor::{Cursor, Width};
use octets::{Endianness, Fault};
use primitive::primitive::parse_u16;

/// A number in the list of types, and one in the list of names. Neither stands in for the other.
#[derive(Clone, Copy, Debug, PartialEq, Eq)]
pub struct TypeNumber(pub u64);

/// The number of a name in the catalogue.
#[derive(Clone, Copy, Debug, PartialEq, Eq)]
pub struct NameNumber(pub u64);

/// A field of a struct: its type and its name, by their numbers.
#[derive(Clone, Copy, Debug, PartialEq, Eq)]
pub struct DnaField {
    pub type_index: TypeNumber,
    pub name_index: NameNumber,
}

/// How many names, types, structs and fields a catalogue has.
#[derive(Clone, Copy, Debug, PartialEq, Eq)]
pub struct DnaCounts {
    pub names: u64,
    pub types: u64,
    pub structs: u64,
    pub fields: u64,
}

/// One of the four tables that dna fills.
#[derive(Clone, Copy, Debug, PartialEq, Eq)]
pub enum DnaTable {
    Names,
    Types,
    Structs,
    Fields,
}

impl DnaTable {
    /// The number of the table, as refusal 8 carries it.
    pub fn number(self) -> u64
        ensures { calls.«dna::DnaTable::number» self result }
    {
        match self {
            DnaTable::Names => 1,
            DnaTable::Types => 2,
            DnaTable::Structs => 3,
            DnaTable::Fields => 4,
        }
    }
}

/// Why dna fills no table.
#[derive(Clone, Copy, Debug, PartialEq, Eq)]
pub enum DnaError {
    /// Where and why the payload does not read.
    Fault(Fault),
    /// Refusal 8: the first table that is too short, and the rows that it needs.
    TableTooShort(DnaTable, u64),
}

impl From<Fault> for DnaError {
    ghost from_gives = { λ f e. e ≡ DnaError.Fault f };

    fn from(f: Fault) -> Self {
        DnaError::Fault(f)
    }
}

// A list that was found: how many elements it has, and where they start.
#[derive(Clone, Copy)]
pub(crate) struct Span {
    pub count: u64,
    pub at: usize,
}

// Where the lists of a catalogue stand, how many fields its structs have together, and the place after the last struct. There are as many sizes as types.
#[derive(Clone, Copy)]
pub(crate) struct Layout {
    pub names: Span,
    pub types: Span,
    pub sizesat: usize,
    pub structs: Span,
    pub fields: u64,
    pub end: usize,
}

impl Layout {
    fn counts(self) -> DnaCounts
        ensures { result ≡ counts_of self }
    {
        DnaCounts {
            names: self.names.count,
            types: self.types.count,
            structs: self.structs.count,
            fields: self.fields,
        }
    }
}

// How many bytes are missing to a multiple of 4.
fn padding(n: usize) -> usize
    ensures { result ≡ rules.padding n }
{
    (4 - n % 4) % 4
}

// Past n zero-ended strings.
fn strings(c: Cursor, s: &[u8], n: u64) -> Result<Cursor, Fault>
    ensures { moved result ≡ past (run (times n rules.text) s.now c.at) }
{
    let mut here = c;
    for _ in 0..n {
        (_, here) = here.string(s)?;
    }
    Ok(here)
}

// A mark, a count, as many strings, and padding.
fn list(c: Cursor, s: &[u8], e: Endianness, mark: &[u8]) -> Result<(Span, Cursor), Fault>
    ensures { ListedIs s.now result (run (rules.listed e mark.now) s.now c.at) }
{
    let (count, start) = c.mark(s, mark)?.number(s, Width::Four, e)?;
    let end = strings(start, s, count)?;
    let padded = end.skip(s, padding(end.at - start.at))?;
    Ok((
        Span {
            count,
            at: start.at,
        },
        padded,
    ))
}

// Past n records of K numbers of two bytes. They are not looked at: what counts is whether they are there, and if not, where the first number stands that
// is not.
fn records_past<const K: usize>(c: Cursor, s: &[u8], n: u64) -> Result<Cursor, Fault>
    requires { 0 < K }
    ensures { moved result ≡ shorts_past s.now (K * n) c.at }
{
    let there = s.len().saturating_sub(c.at) / 2;
    if n <= (there / K) as u64 {
        Ok(Cursor::new(c.at + 2 * (K * n as usize)))
    } else {
        Err(Fault::Cut(c.at + 2 * there))
    }
}

// The sizes of m types, and padding: where they start, and the place after the padding.
fn sizes(c: Cursor, s: &[u8], e: Endianness, m: u64) -> Result<(usize, Cursor), Fault>
    ensures { SizedIs e m s.now result (run (rules.sized e m) s.now c.at) }
{
    let start = c.mark(s, b"TLEN")?;
    let end = records_past::<1>(start, s, m)?;
    let padded = end.skip(s, padding(end.at - start.at))?;
    Ok((start.at, padded))
}

// One struct, past its fields: its type, how many fields it has, and the place after them.
fn one_struct(c: Cursor, s: &[u8], e: Endianness) -> Result<(TypeNumber, u64, Cursor), Fault>
    ensures { OneStructIs s.now c.at result (run (rules.struct e) s.now c.at) }
{
    let (kind, next) = c.number(s, Width::Two, e)?;
    let (n, from) = next.number(s, Width::Two, e)?;
    let last = records_past::<2>(from, s, n)?;
    Ok((TypeNumber(kind), n, last))
}

// Past n structs, with their fields counted.
fn structs_past(c: Cursor, s: &[u8], e: Endianness, n: u64) -> Result<(u64, Cursor), Fault>
    ensures { found result ≡ totalled 0 (run (times n (rules.struct e)) s.now c.at) }
{
    let mut here = c;
    let mut fields: u64 = 0;
    for _ in 0..n {
        let (_, count, next) = one_struct(here, s, e)?;
        fields += count;
        here = next;
    }
    Ok((fields, here))
}

// The structs: where they stand, how many fields they have together, and the place after them.
fn struct_list(c: Cursor, s: &[u8], e: Endianness) -> Result<(Span, u64, Cursor), Fault>
    ensures { StructsAre e s.now result (run (rules.structured e) s.now c.at) }
{
    let (count, start) = c.mark(s, b"STRC")?.number(s, Width::Four, e)?;
    let (fields, last) = structs_past(start, s, e, count)?;
    Ok((
        Span {
            count,
            at: start.at,
        },
        fields,
        last,
    ))
}

// A whole catalogue.
fn whole(s: &[u8], e: Endianness) -> Result<Layout, Fault>
    ensures { LaidIs e s.now result (run (rules.catalogue e) s.now 0) }
{
    let start = Cursor::new(0).mark(s, b"SDNA")?;
    let (names, after_names) = list(start, s, e, b"NAME")?;
    let (types, after_types) = list(after_names, s, e, b"TYPE")?;
    let (sizesat, after_sizes) = sizes(after_types, s, e, types.count)?;
    let (structs, fields, last) = struct_list(after_sizes, s, e)?;
    Ok(Layout {
        names,
        types,
        sizesat,
        structs,
        fields,
        end: last.at,
    })
}

// Stores a row of N numbers from a place on, and answers the place after it. A table is not lent in rows, by as_chunks_mut or chunks_exact_mut: no contract
// says what it ends as then. Nor are its rows numbered: to store the i-th at N * i took 26 thousand instructions more than 658 thousand for lamp.blend.
fn put_row<const N: usize>(table: &mut [u64], at: usize, row: [u64; N]) -> usize
    requires { at + N ≤ length table.old }
    ensures value { result ≡ at + N }
    ensures table_after { table.new ≡ put table.old at row.entry }
{
    let end = at + N;
    table[at..end].copy_from_slice(&row);
    end
}

// Writes the rows of names: offset, length.
fn fill_names(s: &[u8], names: Span, table: &mut [u64])
    requires { length (rules.pairs (texts_of s.now names)) ≤ length table.old }
    ensures { table.new ≡ put table.old 0 (rules.pairs (texts_of s.now names)) }
{
    let mut here = Cursor::new(names.at);
    let mut at = 0;
    for _ in 0..names.count {
        let Ok((len, next)) = here.string(s) else {
            return;
        };
        at = put_row(table, at, [here.at as u64, len as u64]);
        here = next;
    }
}

// Writes the rows of types: offset, length, size. The strings and their sizes are read side by side.
fn fill_types(s: &[u8], e: Endianness, types: Span, sizesat: usize, table: &mut [u64])
    requires { length (rules.type_rows (texts_of s.now types) (sizes_of e s.now types.count sizesat)) ≤ length table.old }
    ensures { table.new ≡ put table.old 0 (rules.type_rows (texts_of s.now types) (sizes_of e s.now types.count sizesat)) }
{
    let mut here = Cursor::new(types.at);
    let mut there = Cursor::new(sizesat);
    let mut at = 0;
    for _ in 0..types.count {
        let Ok((len, next)) = here.string(s) else {
            return;
        };
        let Ok((size, after)) = there.number(s, Width::Two, e) else {
            return;
        };
        at = put_row(table, at, [here.at as u64, len as u64, size]);
        here = next;
        there = after;
    }
}

// Writes the rows of structs: type, first field row, field count.
fn fill_structs(s: &[u8], e: Endianness, structs: Span, table: &mut [u64])
    requires { length (rules.struct_rows 0 (structs_of e s.now structs)) ≤ length table.old }
    ensures { table.new ≡ put table.old 0 (rules.struct_rows 0 (structs_of e s.now structs)) }
{
    let mut here = Cursor::new(structs.at);
    let mut row: u64 = 0;
    let mut at = 0;
    for _ in 0..structs.count {
        let Ok((kind, count, next)) = one_struct(here, s, e) else {
            return;
        };
        at = put_row(table, at, [kind.0, row, count]);
        row += count;
        here = next;
    }
}

// A number of two bytes that stands at a place, and a field record that does.
fn short(s: &[u8], at: usize, e: Endianness) -> u64
    requires { at + 2 ≤ length s.now }
    ensures { result ≡ number_at e 2 s.now at }
{
    u64::from(parse_u16(&s[at..at + 2], e).unwrap())
}

fn field_there(s: &[u8], at: usize, e: Endianness) -> DnaField
    requires { at + 4 ≤ length s.now }
    ensures { (result.type_index.0 ≡ number_at e 2 s.now at) × (result.name_index.0 ≡ number_at e 2 s.now (at + 2)) }
{
    DnaField {
        type_index: TypeNumber(short(s, at, e)),
        name_index: NameNumber(short(s, at + 2, e)),
    }
}

// Stores a field record: its type number and its name number.
fn put_field(table: &mut [u64], at: usize, f: DnaField) -> usize
    requires { at + 2 ≤ length table.old }
    ensures value { result ≡ at + 2 }
    ensures table_after { table.new ≡ put table.old at (f.type_index.0 ∷ f.name_index.0 ∷ []) }
{
    put_row(table, at, [f.type_index.0, f.name_index.0])
}

// Writes the rows of one struct's fields, which are there, from a place of the table on, and answers the place after them.
fn fill_struct_fields(s: &[u8], e: Endianness, fields: Span, table: &mut [u64], at: usize) -> usize
    requires rows_in_bounds { at + length (rules.pairs (fields_of e s.now fields)) ≤ length table.old }
    requires fields_in_bounds { fields.at + 4 * fields.count ≤ length s.now }
    ensures value { result ≡ at + length (rules.pairs (fields_of e s.now fields)) }
    ensures table_after { table.new ≡ put table.old at (rules.pairs (fields_of e s.now fields)) }
{
    let mut next = at;
    for i in 0..fields.count as usize {
        next = put_field(table, next, field_there(s, fields.at + 4 * i, e));
    }
    next
}

// Writes the rows of the fields of structs: type, name.
fn fill_fields(s: &[u8], e: Endianness, structs: Span, table: &mut [u64])
    requires { length (rules.field_rows (structs_of e s.now structs)) ≤ length table.old }
    ensures { table.new ≡ put table.old 0 (rules.field_rows (structs_of e s.now structs)) }
{
    let mut here = Cursor::new(structs.at);
    let mut at = 0;
    for _ in 0..structs.count {
        let Ok((_, count, next)) = one_struct(here, s, e) else {
            return;
        };
        let fields = Span {
            count,
            at: here.at + 4,
        };
        at = fill_struct_fields(s, e, fields, table, at);
        here = next;
    }
}

/// What a payload has, and the place after its last struct; or where and why it does not read. The catalogue without tables.
pub fn dna_counts(payload: &[u8], endianness: Endianness) -> Result<(DnaCounts, usize), Fault>
    ensures { calls.dna::dna_counts payload.now endianness result }
{
    let laid = whole(payload, endianness)?;
    Ok((laid.counts(), laid.end))
}

// The first table of these lengths that is too short.
fn room_for(
    n: DnaCounts,
    names: usize,
    types: usize,
    structs: usize,
    fields: usize,
) -> Result<(), DnaError>
    ensures { MatchResult result (λ u. AllFit n (rules.rooms names types structs fields)) (λ e. rules.paper_error e ≡ rules.answer_for n (rules.rooms names types structs fields)) }
{
    if ((names / 2) as u64) < n.names {
        return Err(DnaError::TableTooShort(DnaTable::Names, n.names));
    }
    if ((types / 3) as u64) < n.types {
        return Err(DnaError::TableTooShort(DnaTable::Types, n.types));
    }
    if ((structs / 3) as u64) < n.structs {
        return Err(DnaError::TableTooShort(DnaTable::Structs, n.structs));
    }
    if ((fields / 2) as u64) < n.fields {
        return Err(DnaError::TableTooShort(DnaTable::Fields, n.fields));
    }
    Ok(())
}

/// Reads a payload into the four tables: names, types, structs, fields. A refusal leaves each as it was.
pub fn dna(
    payload: &[u8],
    endianness: Endianness,
    names: &mut [u64],
    types: &mut [u64],
    structs: &mut [u64],
    fields: &mut [u64],
) -> Result<DnaCounts, DnaError>
    ensures { calls.«dna::dna» payload.now endianness names.old types.old structs.old fields.old result names.new types.new structs.new fields.new }
{
    let l = whole(payload, endianness)?;
    let n = l.counts();
    room_for(n, names.len(), types.len(), structs.len(), fields.len())?;
    fill_names(payload, l.names, names);
    fill_types(payload, endianness, l.types, l.sizesat, types);
    fill_structs(payload, endianness, l.structs, structs);
    fill_fields(payload, endianness, l.structs, fields);
    Ok(n)
}
