//! Words of flags by the names of their bits.

use bitflags::Flags;
use std::fmt::{self, Display, Formatter, Write};

/// A name of bits that belong to no set of flags.
pub type Name = (&'static str, u32);

/// A word of flags: the names of its bits, joined by `|`. Bits without a name follow as a number in
/// hex, and a word without a bit is `0`.
#[derive(Clone, Copy)]
pub struct Word(pub u32, pub &'static [Name]);

impl Display for Word {
    fn fmt<W: Write>(&self, f: &mut Formatter<W>) -> fmt::Result {
        print_bits(f, u64::from(self.0), self.1, "")
    }
}

/// A set of flags likewise, with names for bits that are none of the set.
#[derive(Clone, Copy)]
pub struct Set<F>(pub F, pub &'static [Name]);

impl<F: Flags + Copy> Display for Set<F>
where
    F::Bits: Into<u64>,
{
    fn fmt<W: Write>(&self, f: &mut Formatter<W>) -> fmt::Result {
        let set = self.0;
        let mut between = "";
        for flag in F::flags() {
            if set.contains(F::from_bits_retain(flag.value().bits())) {
                write!(f, "{between}{}", flag.name())?;
                between = "|";
            }
        }
        let unnamed = set.difference(F::all()).bits();
        print_bits(f, unnamed.into(), self.1, between)
    }
}

/// Prints bits, each by its name if it has one, and `between` before the first of them, which is empty if
/// nothing was printed of the word yet.
fn print_bits<W: Write>(
    f: &mut Formatter<W>,
    bits: u64,
    names: &[Name],
    between: &'static str,
) -> fmt::Result {
    let mut left = bits;
    let mut between = between;
    for (name, flag) in names {
        let flag = u64::from(*flag);
        if left & flag != 0 {
            write!(f, "{between}{name}")?;
            between = "|";
            left &= !flag;
        }
    }
    if left != 0 {
        return write!(f, "{between}0x{left:x}");
    }
    if between.is_empty() {
        return f.write_str("0");
    }
    Ok(())
}
