// An index beside the row table (added): for each bucket the rows whose addresses fall into it, as a chain that rises, in two lent tables. A bucket's head and a
// row's link are each the number, plus 1, of the next row of that bucket, 0 at the end.
ghost use Rattle.std.specs.Prelude.{◌≡◌, List, ℕ, ◌/◌, ◌≤◌, ◌<◌, length, get_or};
ghost use Rattle.block.specs.Rows.{per_row};
ghost use Rattle.index.specs.Index as rules;
ghost use Rattle.index.specs.Helpers.{room_for, Cleared, Chained};
ghost use Rattle.index.specs.Calls as calls;

use block::Row;
use octets::Refusal;
use runtime::runtime::{Pointer, matches};

/// Why an index is not built or not used.
#[derive(Clone, Copy, Debug, PartialEq, Eq)]
pub enum IndexError {
    /// Refusal 13: the row table has fewer rows, or a chain leaves them or does not rise.
    Refusal(Refusal),
    /// Refusal 14, with the buckets and the rows that the two tables need.
    TooShort(usize, usize),
}

// Whether all is there: a row table that has so many rows, and index tables of these lengths.
fn room_for(
    has: usize,
    rows: usize,
    buckets: usize,
    heads: usize,
    links: usize,
) -> Result<(), IndexError>
    ensures { rules.paper_indexed result ≡ room_for has rows buckets heads links }
{
    if has < rows {
        return Err(IndexError::Refusal(Refusal::NotThere));
    }
    if buckets == 0 {
        return Err(IndexError::TooShort(1, rows));
    }
    if heads < buckets {
        return Err(IndexError::TooShort(buckets, rows));
    }
    if links < rows {
        return Err(IndexError::TooShort(buckets, rows));
    }
    Ok(())
}

// The bucket that a row falls into.
fn bucket_of(table: &[u64], row: usize, buckets: usize) -> usize
    requires { (row < length table.now / per_row) × (0 < buckets) }
    ensures { (result ≡ rules.bucket_of table.now buckets row) × (result < buckets) }
{
    (table[row * Row::NUMBERS + Row::ADDRESS] % (buckets as u64)) as usize
}

// No bucket has a row yet.
fn clear(heads: &mut [u64], buckets: usize)
    requires { buckets ≤ length heads.old }
    ensures { Cleared buckets heads.old heads.new }
{
    heads[..buckets].fill(0);
}

// Puts each row in front of its bucket's chain, from the last to the first.
fn chain_rows(table: &[u64], rows: usize, buckets: usize, heads: &mut [u64], links: &mut [u64])
    requires rows_in_bounds { (rows ≤ length table.now / per_row) × (0 < buckets) × (buckets ≤ length heads.old) × (rows ≤ length links.old) }
    requires by_index { (b : ℕ) → b < buckets → get_or heads.old b 0 ≡ 0 }
    ensures { Chained table.now rows buckets 0 heads.old heads.new links.old links.new }
{
    for row in (0..rows).rev() {
        let b = bucket_of(table, row, buckets);
        links[row] = heads[b];
        heads[b] = (row + 1) as u64;
    }
}

/// Chains the first rows of a table by their addresses: a head for each bucket, a link for each row.
pub fn build(
    table: &[u64],
    rows: usize,
    buckets: usize,
    heads: &mut [u64],
    links: &mut [u64],
) -> Result<(), IndexError>
    ensures { calls.«index::build» table.now rows buckets heads.old links.old result heads.new links.new }
{
    let has = table.len() / Row::NUMBERS;
    room_for(has, rows, buckets, heads.len(), links.len())?;
    clear(heads, buckets);
    chain_rows(table, rows, buckets, heads, links);
    Ok(())
}

// Whether the search for an address takes a row.
fn row_matches(table: &[u64], row: usize, address: u64) -> bool
    requires { row < length table.now / per_row }
    ensures { result ≡ rules.row_matches table.now address row }
{
    let at = row * Row::NUMBERS;
    matches(address, table[at + Row::CODE], table[at + Row::ADDRESS])
}

// Follows a chain from its head to the first row that matches. It counts no index: each number says the next.
fn follow(
    table: &[u64],
    rows: usize,
    links: &[u64],
    head: u64,
    address: u64,
) -> Result<Pointer, IndexError>
    requires { (rows ≤ length table.now / per_row) × (rows ≤ length links.now) }
    ensures { rules.paper_found result ≡ rules.chain_from table.now rows links.now address head }
{
    let mut number = head;
    let mut last: u64 = 0;
    while number != 0 {
        if (rows as u64) < number {
            return Err(IndexError::Refusal(Refusal::NotThere));
        }
        if number <= last {
            return Err(IndexError::Refusal(Refusal::NotThere));
        }
        let row = (number - 1) as usize;
        if row_matches(table, row, address) {
            return Ok(Pointer::Block(row));
        }
        last = number;
        number = links[row];
    }
    Ok(Pointer::Missing)
}

/// What an address points to among the first rows of a table, by the chain of its bucket.
pub fn find(
    table: &[u64],
    rows: usize,
    buckets: usize,
    heads: &[u64],
    links: &[u64],
    address: u64,
) -> Result<Pointer, IndexError>
    ensures { calls.«index::find» table.now rows buckets heads.now links.now address result }
{
    let has = table.len() / Row::NUMBERS;
    room_for(has, rows, buckets, heads.len(), links.len())?;
    if address == 0 {
        return Ok(Pointer::Null);
    }
    let b = (address % (buckets as u64)) as usize;
    follow(table, rows, links, heads[b], address)
}
