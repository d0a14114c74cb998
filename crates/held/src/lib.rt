// Two calls of the reader in forms that hold references: a walker that holds the file's slice, and the search for an address in a lent list of
// row records. Each is thin: what matters is in the crate `blend`, on plain parameters.
#![tactic(auto)]

ghost use Rattle.held.specs.Calls as calls;

use block::Row;
use octets::Refusal;
use runtime::runtime::{Pointer, matches};
use walker::{Place, Step};

/// A walk that holds its file: the file and the place in it.
#[derive(Clone, Copy, Debug, PartialEq, Eq)]
pub struct Walker<'a> {
    pub file: &'a [u8],
    pub place: Place,
}

/// The step on plain parameters.
pub fn step_at(file: &[u8], place: Place) -> Step
    ensures { calls.step_at file.now place result }
{
    place.step(file)
}

/// A walker at the start of a file.
pub fn over<'a>(file: &'a [u8]) -> Walker<'a>
    ensures { calls.«over» file.entry result }
{
    Walker {
        file,
        place: Place { at: 0, dna: false },
    }
}

/// A step from where the walker stands.
pub fn next<'a>(w: Walker<'a>) -> Step
    ensures { calls.«next» w.entry result }
{
    step_at(w.file, w.place)
}

/// The walker at another place.
pub fn moved<'a>(w: Walker<'a>, place: Place) -> Walker<'a>
    ensures { calls.«moved» w.entry place result }
{
    Walker {
        file: w.file,
        place,
    }
}

/// The step of a walker over a file at a place: plain parameters, for callers that hold no walker.
pub fn step_from(file: &[u8], place: Place) -> Step
    ensures { calls.step_from file.now place result }
{
    next(moved(over(file), place))
}

/// Whether a row is one that the address leads to.
pub fn row_is(row: Row, address: u64) -> bool
    ensures { calls.row_is row address result }
{
    matches(address, row.code, row.address)
}

/// The first of the first n rows that the address leads to.
pub fn find_row(rows: &[Row], n: usize, address: u64) -> Result<Pointer, Refusal>
    ensures { calls.find_row rows.now n address result }
{
    if rows.len() < n {
        return Err(Refusal::NotThere);
    }
    if address == 0 {
        return Ok(Pointer::Null);
    }
    for i in 0..n {
        if row_is(rows[i], address) {
            return Ok(Pointer::Block(i));
        }
    }
    Ok(Pointer::Missing)
}

/// The same for four rows by value: the one function here that lends them, for callers that hold no slice of rows.
pub fn find_in(rows: [Row; 4], n: usize, address: u64) -> Result<Pointer, Refusal>
    ensures { calls.find_in rows n address result }
{
    find_row(&rows, n, address)
}
