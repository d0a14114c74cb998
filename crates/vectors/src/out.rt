// Standard output by way of a buffer.
ghost use Rattle.std.specs.Prelude.{◌≡◌, ◌+◌, ◌<◌, ◌≤◌, false, length, OnOk};
ghost use Rattle.std.specs.Fmt.{digit_glyph};
ghost use Rattle.vectors.specs.declared.out.TheConstants.{SIZE};

use std::fmt;
use std::io::{Stdout, Write};

const SIZE: usize = 65536;

// How a digit below 16 is written.
fn digit(d: u8) -> u8
    ensures { d < 16 → result ≡ digit_glyph false d }
{
    let low = d % 16;
    if low < 10 {
        b'0' + low
    } else {
        b'a' + (low - 10)
    }
}

// The bytes that are held, at the start of the buffer, and where they are written to: nowhere once a write failed, and what comes after is dropped.
#[derive(Drop)]
pub struct Output {
    space: [u8; SIZE],
    held: usize,
    to: Option<Stdout>,
    ghost within: { held ≤ SIZE },
}

impl Output {
    pub fn new(to: Stdout) -> Output {
        Output {
            space: [0; SIZE],
            held: 0,
            to: Some(to),
        }
    }

    // Writes what is held.
    pub fn flush(&mut self) -> fmt::Result
        ensures { OnOk result (self.new.held ≡ 0) }
    {
        let mut to = self.to.take().ok_or(fmt::Error)?;
        to.write_all(&self.space[..self.held])
            .map_err(|_| fmt::Error)?;
        self.to = Some(to);
        self.held = 0;
        Ok(())
    }

    // Bytes that there is room for.
    fn hold(&mut self, bytes: &[u8])
        requires { self.old.held + length bytes.now ≤ SIZE }
    {
        let end = self.held + bytes.len();
        self.space[self.held..end].copy_from_slice(bytes);
        self.held = end;
    }

    // Bytes that need be no text. A full buffer is written only where more comes.
    pub fn put(&mut self, bytes: &[u8]) -> fmt::Result {
        let mut rest = bytes;
        while SIZE - self.held < rest.len() {
            let (first, more) = rest.split_at(SIZE - self.held);
            self.hold(first);
            self.flush()?;
            rest = more;
        }
        self.hold(rest);
        Ok(())
    }

    // Texts, one after another: what `write!` writes of them, at less cost where they are short.
    pub fn texts(&mut self, texts: &[&str]) -> fmt::Result {
        for text in texts {
            self.put(text.as_bytes())?;
        }
        Ok(())
    }

    // Each byte as two hex digits.
    pub fn hex(&mut self, bytes: &[u8]) -> fmt::Result {
        for b in bytes {
            self.put(&[digit(b / 16), digit(b % 16)])?;
        }
        Ok(())
    }
}

impl fmt::Write for Output {
    fn write_str(&mut self, s: &str) -> fmt::Result {
        self.put(s.as_bytes())
    }
}
