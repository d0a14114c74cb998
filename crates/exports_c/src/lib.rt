// The C symbols of the library for other languages: each calls the function of its name in crates/exports, under the same contract. blend.h there says what each is for.
#![tactic(auto)]

ghost use Rattle.exports.specs.Calls as calls;

use exports::{
    BlendCatalogue, BlendField, BlendFound, BlendHeader, BlendIndex, BlendPointer, BlendRead,
    BlendStep, BlendValue, BlendView, BlendWritten,
};

/// A file's header in numbers.
#[unsafe(no_mangle)]
pub extern "C" fn blend_header(file: &[u8]) -> BlendHeader
    ensures { calls.blend_header file.now result }
{
    exports::blend_header(file)
}

/// Reads a file into a row table.
#[unsafe(no_mangle)]
pub extern "C" fn blend_read(file: &[u8], table: &mut [u64]) -> BlendRead
    ensures { calls.blend_read file.now table.old result table.new }
{
    exports::blend_read(file, table)
}

/// One step of a walk: the block at a place, the end, or the refusal, and the place that is handed back.
#[unsafe(no_mangle)]
pub extern "C" fn blend_step(file: &[u8], at: usize, dna: u64) -> BlendStep
    ensures { calls.blend_step file.now at dna result }
{
    exports::blend_step(file, at, dna)
}

/// Reads a DNA1's payload into four tables.
#[unsafe(no_mangle)]
pub extern "C" fn blend_catalogue(
    payload: &[u8],
    order: u64,
    names: &mut [u64],
    types: &mut [u64],
    structs: &mut [u64],
    fields: &mut [u64],
) -> BlendCatalogue
    ensures { calls.blend_catalogue payload.now order names.old types.old structs.old fields.old result names.new types.new structs.new fields.new }
{
    exports::blend_catalogue(payload, order, names, types, structs, fields)
}

/// A field's declarator in numbers.
#[unsafe(no_mangle)]
pub extern "C" fn blend_field(name: &[u8], dimensions: &mut [u64]) -> BlendField
    ensures { calls.blend_field name.now dimensions.old result dimensions.new }
{
    exports::blend_field(name, dimensions)
}

/// How many bytes a field takes whose name blend_field told.
#[unsafe(no_mangle)]
pub extern "C" fn blend_width(field: BlendField, size: u64, pointer_bytes: u64) -> BlendValue
    ensures { calls.blend_width field size pointer_bytes result }
{
    exports::blend_width(field, size, pointer_bytes)
}

/// Where a row's payload lies in the file.
#[unsafe(no_mangle)]
pub extern "C" fn blend_view(file: &[u8], table: &[u64], row: usize) -> BlendView
    ensures { calls.blend_view file.now table.now row result }
{
    exports::blend_view(file, table, row)
}

/// The row that an address points to.
#[unsafe(no_mangle)]
pub extern "C" fn blend_lookup(table: &[u64], rows: usize, address: u64) -> BlendPointer
    ensures { calls.blend_lookup table.now rows address result }
{
    exports::blend_lookup(table, rows, address)
}

/// Chains the rows of a table by their addresses.
#[unsafe(no_mangle)]
pub extern "C" fn blend_index(
    table: &[u64],
    rows: usize,
    buckets: usize,
    heads: &mut [u64],
    links: &mut [u64],
) -> BlendIndex
    ensures { calls.blend_index table.now rows buckets heads.old links.old result heads.new links.new }
{
    exports::blend_index(table, rows, buckets, heads, links)
}

/// The row that an address points to, by an index.
#[unsafe(no_mangle)]
pub extern "C" fn blend_find(
    table: &[u64],
    rows: usize,
    buckets: usize,
    heads: &[u64],
    links: &[u64],
    address: u64,
) -> BlendFound
    ensures { calls.blend_find table.now rows buckets heads.now links.now address result }
{
    exports::blend_find(table, rows, buckets, heads, links, address)
}

/// Writes a file of a header, rows and their payloads.
#[unsafe(no_mangle)]
pub extern "C" fn blend_write(
    edition: u64,
    pointer_bytes: u64,
    order: u64,
    major: u64,
    minor: u64,
    table: &[u64],
    rows: usize,
    source: &[u8],
    out: &mut [u8],
) -> BlendWritten
    ensures { calls.blend_write edition pointer_bytes order major minor table.now rows source.now out.old result out.new }
{
    exports::blend_write(
        edition,
        pointer_bytes,
        order,
        major,
        minor,
        table,
        rows,
        source,
        out,
    )
}

/// The unsigned number of one byte that a slice begins with.
#[unsafe(no_mangle)]
pub extern "C" fn blend_u8(slice: &[u8], order: u64) -> BlendValue
    ensures { calls.blend_u8 slice.now order result }
{
    exports::blend_u8(slice, order)
}

/// The unsigned number of two bytes that a slice begins with.
#[unsafe(no_mangle)]
pub extern "C" fn blend_u16(slice: &[u8], order: u64) -> BlendValue
    ensures { calls.blend_u16 slice.now order result }
{
    exports::blend_u16(slice, order)
}

/// The unsigned number of four bytes that a slice begins with.
#[unsafe(no_mangle)]
pub extern "C" fn blend_u32(slice: &[u8], order: u64) -> BlendValue
    ensures { calls.blend_u32 slice.now order result }
{
    exports::blend_u32(slice, order)
}

/// The unsigned number of eight bytes that a slice begins with.
#[unsafe(no_mangle)]
pub extern "C" fn blend_u64(slice: &[u8], order: u64) -> BlendValue
    ensures { calls.blend_u64 slice.now order result }
{
    exports::blend_u64(slice, order)
}
