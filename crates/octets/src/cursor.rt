// A place in a run of bytes, moved by value: what nom's closures over the input are in the Rust. Each method is one read of a reading tree
// (specs/Reader.antt), takes any place and any bytes, and hands the next place back in its answer.
ghost use Rattle.std.specs.Prelude.{◌≡◌, ◌+◌, ◌≤◌, ◌<◌, length, drop, MatchResult};
ghost use Rattle.octets.specs.declared.Fault.{Fault};
ghost use Rattle.octets.specs.Reader as rules;
ghost use Rattle.octets.specs.Reader.{room};
ghost use Rattle.octets.specs.Calls as calls;

use crate::number::number;
use crate::{Endianness, Fault};

/// A place in a run of bytes: the offset of the next read.
#[derive(Clone, Copy, Debug, PartialEq, Eq)]
pub struct Cursor {
    pub at: usize,
}

/// How many bytes a number has.
#[derive(Clone, Copy, Debug, PartialEq, Eq)]
pub enum Width {
    One,
    Two,
    Four,
    Eight,
}

impl Width {
    /// Returns the width in bytes.
    pub fn bytes_num(self) -> usize
        ensures { calls.cursor::Width::bytes_num self result }
    {
        match self {
            Width::One => 1,
            Width::Two => 2,
            Width::Four => 4,
            Width::Eight => 8,
        }
    }
}

// Whether s has n bytes from at.
fn has(s: &[u8], at: usize, n: usize) -> bool
    ensures { result ≡ room s.now at n }
{
    if s.len() < at {
        return false;
    }
    n <= s.len() - at
}

/// Whether the bytes m stand at this place.
pub fn stands_at(s: &[u8], at: usize, m: &[u8]) -> bool
    ensures { calls.cursor::stands_at s.now at m.now result }
{
    let n = m.len();
    if n == 0 {
        return true;
    }
    if has(s, at, n) {
        let end = at + n;
        check::same(&s[at..end], m)
    } else {
        false
    }
}

// The same byte by byte.
fn before_by_bytes(s: &[u8], c: u8) -> usize
    ensures { result ≡ rules.before c s.now }
{
    for i in 0..s.len() {
        if s[i] == c {
            return i;
        }
    }
    s.len()
}

/// How many bytes stand before the first that is c; all of them where there is none. It goes eight bytes a turn, as long as there are eight, which an iterator does not.
pub fn before(s: &[u8], c: u8) -> usize
    ensures { calls.«cursor::before» s.now c result }
{
    let mut i = 0;
    while i + 7 < s.len() {
        if s[i] == c {
            return i;
        }
        if s[i + 1] == c {
            return i + 1;
        }
        if s[i + 2] == c {
            return i + 2;
        }
        if s[i + 3] == c {
            return i + 3;
        }
        if s[i + 4] == c {
            return i + 4;
        }
        if s[i + 5] == c {
            return i + 5;
        }
        if s[i + 6] == c {
            return i + 6;
        }
        if s[i + 7] == c {
            return i + 7;
        }
        i += 8;
    }
    i + before_by_bytes(&s[i..], c)
}

impl Cursor {
    /// The place at an offset.
    pub fn new(at: usize) -> Self
        ensures { calls.«cursor::Cursor::new» at result }
    {
        Cursor { at }
    }

    // The end of the next n bytes, where they are there.
    fn end_of(self, s: &[u8], n: usize) -> Result<usize, Fault>
        ensures { MatchResult result (λ end. (end ≡ self.at + n) × (self.at + n ≤ length s.now)) (λ f. (f ≡ Fault.Cut self.at) × (length s.now < self.at + n)) }
    {
        if has(s, self.at, n) {
            Ok(self.at + n)
        } else {
            Err(Fault::Cut(self.at))
        }
    }

    /// A number of a width and an order.
    pub fn number(self, s: &[u8], width: Width, order: Endianness) -> Result<(u64, Cursor), Fault>
        ensures { calls.«cursor::Cursor::number» self s.now width order result }
    {
        let end = self.end_of(s, width.bytes_num())?;
        Ok((number(&s[self.at..end], width, order), Cursor { at: end }))
    }

    /// The next n bytes, whatever they hold.
    pub fn skip(self, s: &[u8], n: usize) -> Result<Cursor, Fault>
        ensures { calls.«cursor::Cursor::skip» self s.now n result }
    {
        let end = self.end_of(s, n)?;
        Ok(Cursor { at: end })
    }

    /// The next n bytes, for a caller that looks at them.
    pub fn bytes(self, s: &[u8], n: usize) -> Result<Cursor, Fault>
        ensures { calls.«cursor::Cursor::bytes» self s.now n result }
    {
        self.skip(s, n)
    }

    /// The next n bytes themselves, or none where they are not there.
    pub fn part<'a>(self, s: &'a [u8], n: usize) -> &'a [u8]
        ensures { calls.«cursor::Cursor::part» self s.now n result.now }
    {
        let at = self.at;
        if has(s, at, n) {
            &s[at..at + n]
        } else {
            &s[..0]
        }
    }

    /// These very bytes.
    pub fn mark(self, s: &[u8], m: &[u8]) -> Result<Cursor, Fault>
        ensures { calls.«cursor::Cursor::mark» self s.now m.now result }
    {
        let end = self.end_of(s, m.len())?;
        if stands_at(s, self.at, m) {
            Ok(Cursor { at: end })
        } else {
            Err(Fault::Mark(self.at))
        }
    }

    /// Past these bytes where they are next.
    pub fn begins(self, s: &[u8], m: &[u8]) -> Option<Cursor>
        ensures { calls.«cursor::Cursor::begins» self s.now m.now result }
    {
        let at = self.at;
        if stands_at(s, at, m) {
            Some(Cursor { at: at + m.len() })
        } else {
            None
        }
    }

    /// The bytes up to the next c, and that c.
    pub fn until(self, s: &[u8], c: u8) -> Result<(usize, Cursor), Fault>
        ensures { calls.«cursor::Cursor::until» self s.now c result }
    {
        let at = self.at;
        if s.len() <= at {
            return Err(Fault::Cut(at));
        }
        let n = before(&s[at..], c);
        if n < s.len() - at {
            Ok((n, Cursor { at: at + n + 1 }))
        } else {
            Err(Fault::Cut(at))
        }
    }

    /// The bytes up to the next zero, and the zero.
    pub fn string(self, s: &[u8]) -> Result<(usize, Cursor), Fault>
        ensures { calls.«cursor::Cursor::string» self s.now result }
    {
        self.until(s, 0)
    }
}
