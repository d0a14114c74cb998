// What the rules of the other crates promise an auditor: specs/ has the statements, proofs/ their proofs. The two functions here read as `blend` does, and their contracts
// are the demands themselves.
#![tactic(auto)]

ghost use Rattle.demands.specs.Calls as calls;

use blend::blend::{BlendError, RawBlend, blend};

/// Reads a file. Where it is read, header, blocks and end mark cover it up to the end of that mark, each byte once, in order.
pub fn read(file: &[u8], table: &mut [u64]) -> Result<RawBlend, BlendError>
    ensures { calls.«read» file.now table.old result table.new }
{
    blend(file, table)
}

/// The answers of two files.
#[derive(Clone, Copy, Debug, PartialEq, Eq)]
pub struct Two {
    pub one: Result<RawBlend, BlendError>,
    pub other: Result<RawBlend, BlendError>,
}

/// Reads two files. Where the first is read and the second differs from it only inside payloads of blocks other than DNA1, or after the end mark, the second is
/// read with the same answer and the same rows, and every untouched payload shows the same bytes.
pub fn read_two(one: &[u8], first: &mut [u64], other: &[u8], second: &mut [u64]) -> Two
    ensures { calls.read_two one.now first.old other.now second.old result first.new second.new }
{
    let a = blend(one, first);
    let b = blend(other, second);
    Two { one: a, other: b }
}
