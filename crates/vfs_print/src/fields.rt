//! Records, taken off the front of a message and printed field by field.

use crate::flags::{Name, Word};
use crate::stop::{Left, Stop};
use crate::take::take_record;
use crate::text::{Octal, Time};
use std::fmt::{self, Display, Formatter, Write};
use vfs_wire::ByteValued;

/// What a field is, which says how it is printed.
#[derive(Clone, Copy)]
pub enum Value {
    /// A number of 64 bits.
    Number(u64),
    /// A number of 32 bits.
    Small(u32),
    /// A number in octal.
    Octal(u32),
    /// A number in hex.
    Hex(u64),
    /// A time: the bits of its signed seconds, and nanoseconds.
    Time(u64, u32),
    /// How long an answer is valid: seconds, and nanoseconds.
    Timeout(u64, u32),
    /// Flags, and the names of their bits.
    Word(u32, &'static [Name]),
}

impl Display for Value {
    fn fmt<W: Write>(&self, f: &mut Formatter<W>) -> fmt::Result {
        match *self {
            Value::Number(number) => write!(f, "{number}"),
            Value::Small(number) => write!(f, "{number}"),
            Value::Hex(number) => write!(f, "0x{number:x}"),
            Value::Timeout(seconds, nanoseconds) => write!(f, "{seconds}.{nanoseconds:09}"),
            Value::Octal(number) => Octal(number).fmt(f),
            Value::Time(seconds, nanoseconds) => Time(seconds, nanoseconds).fmt(f),
            Value::Word(bits, names) => Word(bits, names).fmt(f),
        }
    }
}

/// Prints each field after a space, as its name, `=` and its value.
pub fn print_fields<W: Write>(w: &mut W, fields: &[(&'static str, Value)]) -> fmt::Result {
    for (name, value) in fields {
        write!(w, " {name}={value}")?;
    }
    Ok(())
}

/// A record whose fields can be printed.
pub trait Fields: ByteValued + Copy {
    /// Prints each field after a space, as its name, `=` and its value.
    fn print<W: Write>(&self, w: &mut W) -> fmt::Result;
}

/// Takes a record off the front of bytes and prints it; what comes after it.
pub fn print_record<'a, T: Fields, W: Write>(
    w: &mut W,
    bytes: &'a [u8],
) -> Result<(T, &'a [u8]), Stop> {
    let (record, following) = take_record::<T>(bytes)?;
    record.print(w)?;
    Ok((record, following))
}

/// Prints a record that nothing follows; what is left after it.
pub fn print_alone<'a, T: Fields, W: Write>(w: &mut W, bytes: &'a [u8]) -> Left<'a> {
    let (_, following) = print_record::<T, W>(w, bytes)?;
    Ok(following)
}

/// The same of a record that a server doesn't look at, if it is there.
pub fn print_if_whole<'a, T: Fields, W: Write>(w: &mut W, bytes: &'a [u8]) -> Left<'a> {
    if bytes.len() < T::SIZE {
        return Ok(bytes);
    }
    print_alone::<T, W>(w, bytes)
}
