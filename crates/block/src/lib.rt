// The values that a reading of a file's blocks has: the types of parsers/blend.rs of the Rust, and a block's row.
#![tactic(auto)]

pub mod blend;

ghost use Rattle.std.specs.Prelude.{◌≡◌};
ghost use Rattle.block.specs.Kinds.{is_principal};
ghost use Rattle.block.specs.Calls as calls;

/// What a block header says.
#[derive(Clone, Copy, Debug, PartialEq, Eq)]
pub struct BlockHeader {
    pub code: u64,
    pub size: u64,
    pub address: u64,
    pub index: u64,
    pub count: u64,
}

impl BlockHeader {
    /// A block header of its numbers.
    pub fn new(code: u64, size: u64, address: u64, index: u64, count: u64) -> Self
        ensures { calls.«BlockHeader::new» code size address index count result }
    {
        BlockHeader {
            code,
            size,
            address,
            index,
            count,
        }
    }
}

/// What a block is, by its code: the variants of the Rust's Block, and a code that is none of them.
#[derive(Clone, Copy, Debug, PartialEq, Eq)]
pub enum Kind {
    Rend,
    Test,
    Global,
    Principal,
    Subsidiary,
    Dna,
    Unknown,
}

// Whether a code's number is that of any two bytes and then two zeros.
fn is_principal(code: u64) -> bool
    ensures { result ≡ is_principal code }
{
    code <= 0xffff_ffff && code % 0x1_0000 == 0
}

impl Kind {
    /// Which kind a code's number is, its first byte most significant.
    pub fn of_code(code: u64) -> Self
        ensures { calls.Kind::of_code code result }
    {
        match code {
            0x5245_4e44 => Kind::Rend,
            0x5445_5354 => Kind::Test,
            0x474c_4f42 => Kind::Global,
            0x4441_5441 => Kind::Subsidiary,
            0x444e_4131 => Kind::Dna,
            _ if is_principal(code) => Kind::Principal,
            _ => Kind::Unknown,
        }
    }
}

/// How a block is taken, by its kind.
#[derive(Clone, Copy, Debug, PartialEq, Eq)]
pub enum Takes {
    Always,
    // Where its count is 1.
    Alone,
    Never,
}

/// What follows from a block's kind.
#[derive(Clone, Copy, Debug, PartialEq, Eq)]
pub struct About {
    pub takes: Takes,
    // Whether it is found by its address.
    pub found: bool,
    // Whether it has a code.
    pub coded: bool,
    pub dna: bool,
}

impl About {
    /// What follows from a kind, of its parts.
    pub fn new(takes: Takes, found: bool, coded: bool, dna: bool) -> Self
        ensures { calls.«About::new» takes found coded dna result }
    {
        About {
            takes,
            found,
            coded,
            dna,
        }
    }
}

impl Kind {
    /// What follows from the kind.
    pub fn about(self) -> About
        ensures { calls.«Kind::about» self result }
    {
        match self {
            Kind::Rend | Kind::Test | Kind::Global => About::new(Takes::Always, false, true, false),
            Kind::Subsidiary => About::new(Takes::Always, true, false, false),
            Kind::Principal => About::new(Takes::Alone, true, true, false),
            Kind::Dna => About::new(Takes::Always, false, true, true),
            Kind::Unknown => About::new(Takes::Never, false, false, false),
        }
    }
}

/// A block as the row table has it: its header's numbers but for the size, where its header and its payload start, and the payload's length.
#[derive(Clone, Copy, Debug, PartialEq, Eq)]
pub struct Row {
    pub code: u64,
    pub address: u64,
    pub index: u64,
    pub count: u64,
    pub at: u64,
    pub payload: u64,
    pub len: u64,
}

impl Row {
    /// The numbers per row of a row table, and the column of each.
    pub const NUMBERS: usize = 7;

    /// The column of a block's code.
    pub const CODE: usize = 0;

    /// The column of the address at which it was saved.
    pub const ADDRESS: usize = 1;

    /// The column of the number of its struct.
    pub const INDEX: usize = 2;

    /// The column of how many structs it holds.
    pub const COUNT: usize = 3;

    /// The column of the offset of its block header.
    pub const AT: usize = 4;

    /// The column of the offset of its payload.
    pub const PAYLOAD: usize = 5;

    /// The column of its payload's length.
    pub const LEN: usize = 6;
}
