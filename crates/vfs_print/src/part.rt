//! A part of a line, in memory of its own.

ghost use Rattle.std.specs.Prelude.{◌≡◌, ◌+◌, ◌-◌, ◌^◌, ◌<◌, ◌≤◌, ◌++◌, ◌∷◌, [], All, drop, length, min, take};
ghost use Rattle.vfs_print.specs.Text.{IsPrintable};

use std::fmt::{self, Write};

/// How many bytes of a line a part has.
const PART: usize = 4096;

/// The bytes of a line from one place on, with spaces after its end. Whoever writes the line, there is
/// nothing but printable ASCII: `?` stands for any other byte.
#[derive(Drop)]
pub struct Part {
    /// The bytes.
    pub bytes: [u8; PART],
    /// The place in the line.
    pub from: usize,
    /// How many bytes of the line were written.
    pub len: usize,
    ghost printable: { All IsPrintable bytes },
}

impl Part {
    ghost use Rattle.vfs_print.specs.Lines.{PutsText};

    /// That of a line without a byte yet.
    pub fn new(from: usize) -> Part
        ensures place { result.from ≡ from }
        ensures empty { result.len ≡ 0 }
    {
        Part {
            bytes: [b' '; PART],
            from,
            len: 0,
        }
    }

    /// Writes the next byte of the line.
    fn put(&mut self, byte: u8)
        ensures same_place { self.new.from ≡ self.old.from }
        ensures longer { self.old.len + 1 < 2 ^ 64 → self.new.len ≡ self.old.len + 1 }
        ensures put { self.old.from ≡ 0 → self.old.len < 4096 → IsPrintable byte →
            take (self.old.len + 1) self.new.bytes ≡ take self.old.len self.old.bytes ++ byte ∷ [] }
    {
        let printed = printable(byte);
        if let Some(at) = self.len.checked_sub(self.from)
            && at < PART
        {
            self.bytes[at] = printed;
        }
        self.len = self.len.saturating_add(1);
    }

    /// Writes the next bytes of the line.
    pub fn put_text(&mut self, text: &str)
        ensures { PutsText self.old text.now self.new }
    {
        for byte in text.as_bytes() {
            self.put(*byte);
        }
    }

    /// Copies its first bytes over those of `text` from place `at` on, up to place `end`. Answers the place
    /// after them.
    pub fn copy_to(&self, text: &mut [u8], at: usize, end: usize) -> usize
        requires order { at ≤ end }
        requires within { end < length text.old }
        ensures next { result ≡ min (at + 4096) end }
        ensures enough { result - at ≤ length self.now.bytes }
        ensures copied { text.new ≡ take at text.old
            ++ take (result - at) self.now.bytes ++ drop result text.old }
    {
        let next = at + PART.min(end - at);
        text[at..next].copy_from_slice(&self.bytes[..next - at]);
        next
    }
}

/// A byte, if it is printable, and else `?`.
fn printable(byte: u8) -> u8
    ensures shown { IsPrintable result }
    ensures same { IsPrintable byte → result ≡ byte }
{
    if matches!(byte, b' '..=b'~') {
        byte
    } else {
        b'?'
    }
}

impl Write for Part {
    ghost use Rattle.vfs_print.specs.Lines.{PutsText};

    ghost write_str_gives = { PutsText };

    fn write_str(&mut self, s: &str) -> fmt::Result {
        self.put_text(s);
        Ok(())
    }
}
