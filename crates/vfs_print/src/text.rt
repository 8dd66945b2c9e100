//! Bytes as text: names, data and times.

ghost use Rattle.std.specs.Prelude.{◌≡◌, ◌<◌, Some};
ghost use Rattle.vfs_print.specs.Text.{escaped, hex_digit, is_plain, quoted};

use std::fmt::{self, Display, Formatter, Write};

/// How many bytes of data are printed.
const MOST_DATA: usize = 16;

/// Bytes between quotes: what is no printable ASCII, a quote or a backslash is `\x` and two hex digits.
/// Names are printed so.
#[derive(Clone, Copy)]
pub struct Quoted<'a>(pub &'a [u8]);

impl Display for Quoted<'_> {
    ghost output = { λ q. Some (quoted q.0.now) };

    fn fmt<W: Write>(&self, f: &mut Formatter<W>) -> fmt::Result {
        f.write_str("\"")?;
        for byte in self.0 {
            write!(f, "{}", Escaped(*byte))?;
        }
        f.write_str("\"")
    }
}

/// A byte between quotes.
#[derive(Clone, Copy)]
struct Escaped(u8);

impl Display for Escaped {
    ghost output = { λ e. Some (escaped e.0) };

    fn fmt<W: Write>(&self, f: &mut Formatter<W>) -> fmt::Result {
        let byte = self.0;
        if is_plain(byte) {
            return f.write_char(char::from(byte));
        }
        f.write_str("\\x")?;
        f.write_char(hex_digit(byte / 16))?;
        f.write_char(hex_digit(byte % 16))
    }
}

/// Whether a byte stands for itself between quotes.
fn is_plain(byte: u8) -> bool
    ensures { result ≡ is_plain byte }
{
    matches!(byte, b' '..=b'~') && byte != b'"' && byte != b'\\'
}

/// The digit of a number below 16, in hex.
fn hex_digit(number: u8) -> char
    requires { number < 16 }
    ensures { result ≡ hex_digit number }
{
    if number < 10 {
        char::from(b'0' + number)
    } else {
        char::from(b'a' + (number - 10))
    }
}

/// Data as its count and its first 16 bytes between quotes, with two dots after them if there are
/// more: `[5]="hello"`.
#[derive(Clone, Copy)]
pub struct Data<'a>(pub &'a [u8]);

impl Display for Data<'_> {
    fn fmt<W: Write>(&self, f: &mut Formatter<W>) -> fmt::Result {
        let bytes = self.0;
        let count = bytes.len();
        write!(f, "[{count}]={}", Quoted(&bytes[..count.min(MOST_DATA)]))?;
        if count > MOST_DATA {
            return f.write_str("..");
        }
        Ok(())
    }
}

/// A time of whole seconds, the bits of a signed number, and nanoseconds beside them.
#[derive(Clone, Copy)]
pub struct Time(pub u64, pub u32);

impl Display for Time {
    fn fmt<W: Write>(&self, f: &mut Formatter<W>) -> fmt::Result {
        write!(f, "{}.{:09}", self.0.cast_signed(), self.1)
    }
}

/// A number in octal, after a 0, as modes and the flags of `open` are written.
#[derive(Clone, Copy)]
pub struct Octal(pub u32);

impl Display for Octal {
    fn fmt<W: Write>(&self, f: &mut Formatter<W>) -> fmt::Result {
        let number = self.0;
        if number == 0 {
            return f.write_str("0");
        }
        write!(f, "0{number:o}")
    }
}

/// Prints data after its name.
pub fn print_data<W: Write>(w: &mut W, name: &str, data: &[u8]) -> fmt::Result {
    write!(w, " {name}{}", Data(data))
}

/// Prints bytes that are a text after its name.
pub fn print_text<W: Write>(w: &mut W, name: &str, text: &[u8]) -> fmt::Result {
    write!(w, " {name}={}", Quoted(text))
}
