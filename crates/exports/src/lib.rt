// The library for other languages: numbers, slices and structs of numbers in, a struct of numbers by value out. Each function calls one of the reader's and tells its answer
// in numbers, refusals by document 01's; the contract says so by the reader's own definitions. A slice crosses as a pointer and a length. blend.h says what each
// function is for.
#![tactic(auto)]

ghost use Rattle.std.specs.Prelude.{◌≡◌, [], ◌∷◌, length};
ghost use Rattle.octets.specs.Paper.Paper.{refuses};
ghost use Rattle.octets.specs.Refusals.{number_of, paper_answer};
ghost use Rattle.dna.specs.Catalogue as catalogues;
ghost use Rattle.primitive.specs.Primitive as values;
ghost use Rattle.field.specs.Declarators as declarators;
ghost use Rattle.blend.specs.Chain as chains;
ghost use Rattle.header.specs.Header as headers;
ghost use Rattle.index.specs.Index as indexes;
ghost use Rattle.block.specs.Rows as rows;
ghost use Rattle.walker.specs.Walker as walks;
ghost use Rattle.writer.specs.Writer as writers;
ghost use Rattle.exports.specs.Exports as rules;
ghost use Rattle.exports.specs.Calls as calls;

use blend::blend::{BlendError, RawBlend, blend};
use block::Row;
use dna::dna::{DnaCounts, DnaError, dna};
use field::field::{Declarator, FieldError, FieldInfo, Span, parse_field, width};
use header::blend::header;
use header::{FileFormat, Header, Version};
use index::index::{IndexError, build, find};
use octets::{Endianness, Fault, PointerSize, Refusal};
use primitive::primitive::{parse_u8, parse_u16, parse_u32, parse_u64};
use runtime::runtime::{Pointer, get_ptr, view};
use walker::{Place, Step};
use writable::writable::WritableError;
use writer::writer::{WriteError, write};

// In every struct `refusal` is 0, or the number of a refusal, and then every number that it does not carry is 0. `fault_at` is what 16 and 17 carry.

/// A file's header in numbers.
#[repr(C)]
#[derive(Clone, Copy, Debug, Default, PartialEq, Eq)]
pub struct BlendHeader {
    pub refusal: u64,
    pub fault_at: u64,
    pub edition: u64,
    pub pointer_bytes: u64,
    pub order: u64,
    pub major: u64,
    pub minor: u64,
    pub length: u64,
}

/// What a reading of a file answers.
#[repr(C)]
#[derive(Clone, Copy, Debug, Default, PartialEq, Eq)]
pub struct BlendRead {
    pub refusal: u64,
    pub fault_at: u64,
    pub needed: u64,
    pub edition: u64,
    pub pointer_bytes: u64,
    pub order: u64,
    pub major: u64,
    pub minor: u64,
    pub rows: u64,
    pub end: u64,
    pub names: u64,
    pub types: u64,
    pub structs: u64,
    pub fields: u64,
}

/// What a step of a walk answers: a row, or the end, and the place that it hands back.
#[repr(C)]
#[derive(Clone, Copy, Debug, Default, PartialEq, Eq)]
pub struct BlendStep {
    pub refusal: u64,
    pub fault_at: u64,
    pub kind: u64,
    pub code: u64,
    pub address: u64,
    pub index: u64,
    pub count: u64,
    pub at: u64,
    pub payload: u64,
    pub length: u64,
    pub end: u64,
    pub next_at: u64,
    pub next_dna: u64,
}

/// What a reading of a catalogue answers.
#[repr(C)]
#[derive(Clone, Copy, Debug, Default, PartialEq, Eq)]
pub struct BlendCatalogue {
    pub refusal: u64,
    pub fault_at: u64,
    pub table: u64,
    pub needed: u64,
    pub names: u64,
    pub types: u64,
    pub structs: u64,
    pub fields: u64,
}

/// A field's declarator in numbers.
#[repr(C)]
#[derive(Clone, Copy, Debug, Default, PartialEq, Eq)]
pub struct BlendField {
    pub refusal: u64,
    pub needed: u64,
    pub kind: u64,
    pub name_at: u64,
    pub name_length: u64,
    pub rest_at: u64,
    pub rest_length: u64,
    pub indirection: u64,
    pub length: u64,
    pub dimensions: u64,
}

/// Where a row's payload lies.
#[repr(C)]
#[derive(Clone, Copy, Debug, Default, PartialEq, Eq)]
pub struct BlendView {
    pub refusal: u64,
    pub at: u64,
    pub length: u64,
}

/// What an address points to.
#[repr(C)]
#[derive(Clone, Copy, Debug, Default, PartialEq, Eq)]
pub struct BlendPointer {
    pub refusal: u64,
    pub kind: u64,
    pub row: u64,
}

/// Whether an index was built.
#[repr(C)]
#[derive(Clone, Copy, Debug, Default, PartialEq, Eq)]
pub struct BlendIndex {
    pub refusal: u64,
    pub buckets: u64,
    pub rows: u64,
}

/// What an address points to, by an index.
#[repr(C)]
#[derive(Clone, Copy, Debug, Default, PartialEq, Eq)]
pub struct BlendFound {
    pub refusal: u64,
    pub buckets: u64,
    pub rows: u64,
    pub kind: u64,
    pub row: u64,
}

/// Whether a file was written.
#[repr(C)]
#[derive(Clone, Copy, Debug, Default, PartialEq, Eq)]
pub struct BlendWritten {
    pub refusal: u64,
    pub fault_at: u64,
    pub needed: u64,
    pub row: u64,
    pub written: u64,
}

/// A number that a slice begins with.
#[repr(C)]
#[derive(Clone, Copy, Debug, Default, PartialEq, Eq)]
pub struct BlendValue {
    pub refusal: u64,
    pub value: u64,
}

fn edition(f: FileFormat) -> u64
    ensures { result ≡ headers.edition f }
{
    match f {
        FileFormat::Legacy => 0,
        FileFormat::New => 1,
    }
}

fn order(e: Endianness) -> u64
    ensures { result ≡ headers.order e }
{
    match e {
        Endianness::Little => 0,
        Endianness::Big => 1,
    }
}

// The order that a number stands for: 0 little, any other big.
fn order_of(n: u64) -> Endianness
    ensures { result ≡ rules.order_of n }
{
    if n == 0 {
        Endianness::Little
    } else {
        Endianness::Big
    }
}

/// A file's header in numbers.
pub fn blend_header(file: &[u8]) -> BlendHeader
    ensures { calls.blend_header file.now result }
{
    match header(file) {
        Ok((h, at)) => {
            let format = h.format;
            let size = h.pointer_size;
            let endianness = h.endianness;
            let version = h.version;
            BlendHeader {
                refusal: 0,
                fault_at: 0,
                edition: edition(format),
                pointer_bytes: size.bytes_num() as u64,
                order: order(endianness),
                major: version.major as u64,
                minor: version.minor as u64,
                length: at as u64,
            }
        }
        Err(f) => BlendHeader {
            refusal: f.refusal(),
            fault_at: f.place() as u64,
            ..BlendHeader::default()
        },
    }
}

// The struct of a file that was read.
fn read_out(b: RawBlend) -> BlendRead
    ensures { result ≡ rules.read_out (chains.paper_blend (Ok b)) }
{
    let h = b.header;
    let format = h.format;
    let size = h.pointer_size;
    let endianness = h.endianness;
    let version = h.version;
    let counts = b.dna;
    BlendRead {
        refusal: 0,
        fault_at: 0,
        needed: 0,
        edition: edition(format),
        pointer_bytes: size.bytes_num() as u64,
        order: order(endianness),
        major: version.major as u64,
        minor: version.minor as u64,
        rows: b.rows as u64,
        end: b.end as u64,
        names: counts.names,
        types: counts.types,
        structs: counts.structs,
        fields: counts.fields,
    }
}

fn read_refused(refusal: u64, fault_at: u64, needed: u64) -> BlendRead
    ensures { result ≡ rules.read_told refusal fault_at needed (λ i. 0) }
{
    BlendRead {
        refusal,
        fault_at,
        needed,
        ..BlendRead::default()
    }
}

/// Reads a file into a row table.
pub fn blend_read(file: &[u8], table: &mut [u64]) -> BlendRead
    ensures { calls.blend_read file.now table.old result table.new }
{
    match blend(file, table) {
        Ok(b) => read_out(b),
        Err(BlendError::Fault(f)) => read_refused(f.refusal(), f.place() as u64, 0),
        Err(BlendError::TableTooShort(rows)) => read_refused(
            Refusal::BLOCK_TABLE_TOO_SHORT,
            0,
            rows as u64,
        ),
    }
}

// Whether a number stands for a DNA1: 0 no, any other yes.
fn dna_of(number: u64) -> bool
    ensures { result ≡ rules.dna_of number }
{
    number != 0
}

fn dna_number(dna: bool) -> u64
    ensures { result ≡ rules.dna_number dna }
{
    if dna { 1 } else { 0 }
}

// A row of zeros, where a step has none.
fn no_row() -> Row
    ensures { result ≡ rows.none }
{
    Row {
        code: 0,
        address: 0,
        index: 0,
        count: 0,
        at: 0,
        payload: 0,
        len: 0,
    }
}

// A step's answer in numbers, with the place that it hands back.
fn step_told(refusal: u64, fault_at: u64, kind: u64, row: Row, end: u64, place: Place) -> BlendStep
    ensures { result ≡ rules.step_told refusal fault_at kind (rows.number_in row) end place }
{
    BlendStep {
        refusal,
        fault_at,
        kind,
        code: row.code,
        address: row.address,
        index: row.index,
        count: row.count,
        at: row.at,
        payload: row.payload,
        length: row.len,
        end,
        next_at: place.at as u64,
        next_dna: dna_number(place.dna),
    }
}

fn step_out(step: Step) -> BlendStep
    ensures { result ≡ rules.step_out (walks.paper_step step) (walks.place_of step) }
{
    match step {
        Step::Block(row, place) => step_told(0, 0, 0, row, 0, place),
        Step::End(end, place) => step_told(0, 0, 1, no_row(), end as u64, place),
        Step::Refused(f, place) => step_told(f.refusal(), f.place() as u64, 0, no_row(), 0, place),
    }
}

/// One step of a walk: the block at a place, the end, or the refusal, and the place that is handed back.
pub fn blend_step(file: &[u8], at: usize, dna: u64) -> BlendStep
    ensures { calls.blend_step file.now at dna result }
{
    let place = Place {
        at,
        dna: dna_of(dna),
    };
    step_out(place.step(file))
}

fn catalogue_refused(refusal: u64, fault_at: u64, table: u64, needed: u64) -> BlendCatalogue
    ensures { result ≡ rules.catalogue_told refusal fault_at table needed (λ i. 0) }
{
    BlendCatalogue {
        refusal,
        fault_at,
        table,
        needed,
        ..BlendCatalogue::default()
    }
}

fn catalogue_out(answer: Result<DnaCounts, DnaError>) -> BlendCatalogue
    ensures { result ≡ rules.catalogue_out (catalogues.paper_tables answer) }
{
    match answer {
        Ok(n) => BlendCatalogue {
            refusal: 0,
            fault_at: 0,
            table: 0,
            needed: 0,
            names: n.names,
            types: n.types,
            structs: n.structs,
            fields: n.fields,
        },
        Err(DnaError::Fault(f)) => catalogue_refused(f.refusal(), f.place() as u64, 0, 0),
        Err(DnaError::TableTooShort(which, rows)) => catalogue_refused(
            Refusal::CATALOGUE_TABLE_TOO_SHORT,
            0,
            which.number(),
            rows,
        ),
    }
}

/// Reads a DNA1's payload into four tables.
pub fn blend_catalogue(
    payload: &[u8],
    order: u64,
    names: &mut [u64],
    types: &mut [u64],
    structs: &mut [u64],
    fields: &mut [u64],
) -> BlendCatalogue
    ensures { calls.blend_catalogue payload.now order names.old types.old structs.old fields.old result names.new types.new structs.new fields.new }
{
    let answer = dna(payload, order_of(order), names, types, structs, fields);
    catalogue_out(answer)
}

fn field_refused(refusal: u64, needed: u64) -> BlendField
    ensures { result ≡ rules.field_out (refuses refusal (needed ∷ [])) }
{
    BlendField {
        refusal,
        needed,
        ..BlendField::default()
    }
}

// A declarator's places, its kind's number and the kind's own numbers.
fn field_told(
    name: Span,
    rest: Span,
    kind: u64,
    indirection: u64,
    length: u64,
    dimensions: u64,
) -> BlendField
    ensures { result ≡ record { refusal = 0; needed = 0; kind = kind; name_at = name.at; name_length = name.len; rest_at = rest.at; rest_length = rest.len; indirection = indirection; length = length; dimensions = dimensions } }
{
    BlendField {
        refusal: 0,
        needed: 0,
        kind,
        name_at: name.at as u64,
        name_length: name.len as u64,
        rest_at: rest.at as u64,
        rest_length: rest.len as u64,
        indirection,
        length,
        dimensions,
    }
}

fn field_out(d: Declarator) -> BlendField
    ensures { result ≡ rules.field_out (declarators.paper_declarator d) }
{
    let kind = d.kind;
    let name = d.name;
    let rest = d.rest;
    match kind {
        FieldInfo::Value => field_told(name, rest, 0, 0, 1, 0),
        FieldInfo::ValueArray { len, dimensions } => field_told(
            name,
            rest,
            1,
            0,
            len,
            dimensions as u64,
        ),
        FieldInfo::Pointer { indirection_count } => field_told(
            name,
            rest,
            2,
            indirection_count as u64,
            1,
            0,
        ),
        FieldInfo::PointerArray {
            indirection_count,
            len,
            dimensions,
        } => {
            field_told(
                name,
                rest,
                3,
                indirection_count as u64,
                len,
                dimensions as u64,
            )
        },
        FieldInfo::FnPointer => field_told(name, rest, 4, 0, 1, 0),
    }
}

/// A field's declarator in numbers.
pub fn blend_field(name: &[u8], dimensions: &mut [u64]) -> BlendField
    ensures { calls.blend_field name.now dimensions.old result dimensions.new }
{
    match parse_field(name, dimensions) {
        Ok(d) => field_out(d),
        Err(FieldError::Refusal(r)) => field_refused(r.number(), 0),
        Err(FieldError::DimensionTableTooShort(n)) => field_refused(
            Refusal::DIMENSION_TABLE_TOO_SHORT,
            n as u64,
        ),
    }
}

// The kind that its number and its own numbers stand for. A number that is no kind stands for a value.
fn kind_of(kind: u64, indirection: u64, length: u64, dimensions: u64) -> FieldInfo
    ensures { result ≡ rules.info_of kind indirection length dimensions }
{
    if kind == 1 {
        return FieldInfo::ValueArray {
            len: length,
            dimensions: dimensions as usize,
        };
    }
    if kind == 2 {
        return FieldInfo::Pointer {
            indirection_count: indirection as usize,
        };
    }
    if kind == 3 {
        return FieldInfo::PointerArray {
            indirection_count: indirection as usize,
            len: length,
            dimensions: dimensions as usize,
        };
    }
    if kind == 4 {
        return FieldInfo::FnPointer;
    }
    FieldInfo::Value
}

// The declarator that the numbers of blend_field stand for.
fn declarator_of(f: BlendField) -> Declarator
    ensures { result ≡ rules.declarator_of f }
{
    let name = Span {
        at: f.name_at as usize,
        len: f.name_length as usize,
    };
    let rest = Span {
        at: f.rest_at as usize,
        len: f.rest_length as usize,
    };
    Declarator {
        name,
        rest,
        kind: kind_of(f.kind, f.indirection, f.length, f.dimensions),
    }
}

// The pointer size that a number of bytes stands for: 4, any other 8.
fn size_of(bytes: u64) -> PointerSize
    ensures { result ≡ rules.size_of bytes }
{
    if bytes == 4 {
        PointerSize::Bits32
    } else {
        PointerSize::Bits64
    }
}

// A number, or the refusal of it.
fn told(answer: Result<u64, Refusal>) -> BlendValue
    ensures { result ≡ rules.value_out (paper_answer values.unsigned answer) }
{
    match answer {
        Ok(value) => BlendValue { refusal: 0, value },
        Err(r) => BlendValue {
            refusal: r.number(),
            value: 0,
        },
    }
}

/// How many bytes a field takes whose name blend_field told.
pub fn blend_width(field: BlendField, size: u64, pointer_bytes: u64) -> BlendValue
    ensures { calls.blend_width field size pointer_bytes result }
{
    if field.refusal != 0 {
        return told(Err(Refusal::NameNotFullyRead));
    }
    told(width(declarator_of(field), size, size_of(pointer_bytes)))
}

fn view_refused(r: Refusal) -> BlendView
    ensures { result ≡ record { refusal = number_of r; at = 0; length = 0 } }
{
    BlendView {
        refusal: r.number(),
        ..BlendView::default()
    }
}

/// Where a row's payload lies in the file.
pub fn blend_view(file: &[u8], table: &[u64], row: usize) -> BlendView
    ensures { calls.blend_view file.now table.now row result }
{
    if table.len() / Row::NUMBERS <= row {
        return view_refused(Refusal::NotThere);
    }
    match view(file, table, row) {
        Ok(()) => BlendView {
            refusal: 0,
            at: table[row * Row::NUMBERS + Row::PAYLOAD],
            length: table[row * Row::NUMBERS + Row::LEN],
        },
        Err(r) => view_refused(r),
    }
}

/// The row that an address points to.
pub fn blend_lookup(table: &[u64], rows: usize, address: u64) -> BlendPointer
    ensures { calls.blend_lookup table.now rows address result }
{
    match get_ptr(table, rows, address) {
        Ok(Pointer::Null) => BlendPointer {
            refusal: 0,
            kind: 0,
            row: 0,
        },
        Ok(Pointer::Block(row)) => BlendPointer {
            refusal: 0,
            kind: 1,
            row: row as u64,
        },
        Ok(Pointer::Missing) => BlendPointer {
            refusal: 0,
            kind: 2,
            row: 0,
        },
        Err(r) => BlendPointer {
            refusal: r.number(),
            kind: 0,
            row: 0,
        },
    }
}

fn index_out(answer: Result<(), IndexError>) -> BlendIndex
    ensures { result ≡ rules.index_out (indexes.paper_indexed answer) }
{
    match answer {
        Ok(()) => BlendIndex {
            refusal: 0,
            buckets: 0,
            rows: 0,
        },
        Err(IndexError::Refusal(r)) => BlendIndex {
            refusal: r.number(),
            buckets: 0,
            rows: 0,
        },
        Err(IndexError::TooShort(buckets, rows)) => BlendIndex {
            refusal: Refusal::INDEX_TOO_SHORT,
            buckets: buckets as u64,
            rows: rows as u64,
        },
    }
}

/// Chains the rows of a table by their addresses.
pub fn blend_index(
    table: &[u64],
    rows: usize,
    buckets: usize,
    heads: &mut [u64],
    links: &mut [u64],
) -> BlendIndex
    ensures { calls.blend_index table.now rows buckets heads.old links.old result heads.new links.new }
{
    let answer = build(table, rows, buckets, heads, links);
    index_out(answer)
}

fn found_told(kind: u64, row: u64) -> BlendFound
    ensures { result ≡ record { refusal = 0; buckets = 0; rows = 0; kind = kind; row = row } }
{
    BlendFound {
        refusal: 0,
        buckets: 0,
        rows: 0,
        kind,
        row,
    }
}

fn found_refused(refusal: u64, buckets: u64, rows: u64) -> BlendFound
    ensures { result ≡ record { refusal = refusal; buckets = buckets; rows = rows; kind = 0; row = 0 } }
{
    BlendFound {
        refusal,
        buckets,
        rows,
        kind: 0,
        row: 0,
    }
}

fn found_out(answer: Result<Pointer, IndexError>) -> BlendFound
    ensures { result ≡ rules.found_out (indexes.paper_found answer) }
{
    match answer {
        Ok(Pointer::Null) => found_told(0, 0),
        Ok(Pointer::Block(row)) => found_told(1, row as u64),
        Ok(Pointer::Missing) => found_told(2, 0),
        Err(IndexError::Refusal(r)) => found_refused(r.number(), 0, 0),
        Err(IndexError::TooShort(buckets, rows)) => found_refused(
            Refusal::INDEX_TOO_SHORT,
            buckets as u64,
            rows as u64,
        ),
    }
}

/// The row that an address points to, by an index.
pub fn blend_find(
    table: &[u64],
    rows: usize,
    buckets: usize,
    heads: &[u64],
    links: &[u64],
    address: u64,
) -> BlendFound
    ensures { calls.blend_find table.now rows buckets heads.now links.now address result }
{
    found_out(find(table, rows, buckets, heads, links, address))
}

// The edition that a number stands for: 0 legacy, any other new.
fn format_of(edition: u64) -> FileFormat
    ensures { result ≡ rules.format_of edition }
{
    if edition == 0 {
        FileFormat::Legacy
    } else {
        FileFormat::New
    }
}

// Whether these numbers stand for an edition, a pointer size and an order.
fn is_form(edition: u64, pointer_bytes: u64, order: u64) -> bool
    ensures { result ≡ rules.is_form edition pointer_bytes order }
{
    edition <= 1 && order <= 1 && (pointer_bytes == 4 || pointer_bytes == 8)
}

// A number as part of a version; 65,535, for which no form has room, where it is larger.
fn capped(n: u64) -> u16
    ensures { result ≡ rules.capped n }
{
    if n < 0xffff { n as u16 } else { 0xffff }
}

// The version of a header: one that no form has room for, where the other numbers stand for no form.
fn version_of(form: bool, major: u64, minor: u64) -> Version
    ensures { result ≡ rules.version_of form major minor }
{
    if form {
        Version {
            major: capped(major),
            minor: capped(minor),
        }
    } else {
        Version {
            major: 0xffff,
            minor: 0xffff,
        }
    }
}

// The header that the numbers of blend_header stand for.
fn header_of(edition: u64, pointer_bytes: u64, order: u64, major: u64, minor: u64) -> Header
    ensures { result ≡ rules.header_of edition pointer_bytes order major minor }
{
    let form = is_form(edition, pointer_bytes, order);
    Header {
        pointer_size: size_of(pointer_bytes),
        endianness: order_of(order),
        version: version_of(form, major, minor),
        format: format_of(edition),
    }
}

fn written_told(refusal: u64, fault_at: u64, needed: u64, row: u64, written: u64) -> BlendWritten
    ensures { result ≡ record { refusal = refusal; fault_at = fault_at; needed = needed; row = row; written = written } }
{
    BlendWritten {
        refusal,
        fault_at,
        needed,
        row,
        written,
    }
}

fn written_out(answer: Result<usize, WriteError>) -> BlendWritten
    ensures { result ≡ rules.written_out (writers.paper_write answer) }
{
    match answer {
        Ok(n) => written_told(0, 0, 0, 0, n as u64),
        Err(WriteError::Unwritable(WritableError::Fault(f))) => {
            written_told(f.refusal(), f.place() as u64, 0, 0, 0)
        }
        Err(WriteError::Unwritable(WritableError::NoRoom(row))) => {
            written_told(Refusal::NO_ROOM_IN_FORM, 0, 0, row as u64, 0)
        }
        Err(WriteError::TooShort(n)) => written_told(Refusal::OUTPUT_TOO_SHORT, 0, n as u64, 0, 0),
    }
}

/// Writes a file of a header, rows and their payloads.
pub fn blend_write(
    edition: u64,
    pointer_bytes: u64,
    order: u64,
    major: u64,
    minor: u64,
    table: &[u64],
    rows: usize,
    source: &[u8],
    out: &mut [u8],
) -> BlendWritten
    ensures { calls.blend_write edition pointer_bytes order major minor table.now rows source.now out.old result out.new }
{
    let h = header_of(edition, pointer_bytes, order, major, minor);
    let answer = write(h, table, rows, source, out);
    written_out(answer)
}

/// The unsigned number of one byte that a slice begins with.
pub fn blend_u8(slice: &[u8], order: u64) -> BlendValue
    ensures { calls.blend_u8 slice.now order result }
{
    told(parse_u8(slice, order_of(order)).map(u64::from))
}

/// The unsigned number of two bytes that a slice begins with.
pub fn blend_u16(slice: &[u8], order: u64) -> BlendValue
    ensures { calls.blend_u16 slice.now order result }
{
    told(parse_u16(slice, order_of(order)).map(u64::from))
}

/// The unsigned number of four bytes that a slice begins with.
pub fn blend_u32(slice: &[u8], order: u64) -> BlendValue
    ensures { calls.blend_u32 slice.now order result }
{
    told(parse_u32(slice, order_of(order)).map(u64::from))
}

/// The unsigned number of eight bytes that a slice begins with.
pub fn blend_u64(slice: &[u8], order: u64) -> BlendValue
    ensures { calls.blend_u64 slice.now order result }
{
    told(parse_u64(slice, order_of(order)))
}
