//! The parts of a message, taken off its front.

ghost use Rattle.std.specs.Prelude.{◌≡◌, ◌+◌, length, IfOk, IfSome};

use vfs_grammar::Error;
use vfs_wire::ByteValued;
use vfs_wire::parts::part_at;

/// The record that bytes begin with, and what comes after it. `DecodeMessage` if it isn't whole.
pub fn take_record<T: ByteValued>(bytes: &[u8]) -> Result<(T, &[u8]), Error>
    ensures { IfOk result (λ parts. T.SIZE + length parts.1.now ≡ length bytes.now) }
{
    if bytes.len() < T::SIZE {
        return Err(Error::DecodeMessage);
    }
    Ok((part_at::<T>(bytes, 0), &bytes[T::SIZE..]))
}

/// The first `count` bytes, and what comes after them. `DecodeMessage` if there are fewer.
pub fn take_bytes(bytes: &[u8], count: usize) -> Result<(&[u8], &[u8]), Error>
    ensures front { IfOk result (λ parts. length parts.0.now ≡ count) }
    ensures following { IfOk result (λ parts. count + length parts.1.now ≡ length bytes.now) }
{
    if bytes.len() < count {
        return Err(Error::DecodeMessage);
    }
    Ok((&bytes[..count], &bytes[count..]))
}

/// What is before the first 0, and what comes after it. None if there is no 0.
pub fn take_name(bytes: &[u8]) -> Option<(&[u8], &[u8])>
    ensures { IfSome result
        (λ parts. length parts.0.now + 1 + length parts.1.now ≡ length bytes.now) }
{
    let end = bytes.iter().position(|b| *b == 0)?;
    Some((&bytes[..end], &bytes[end + 1..]))
}

/// The text of a name: bytes whose last one is 0 and no other. `InvalidCString` if they are none.
pub fn whole_name(bytes: &[u8]) -> Result<&[u8], Error> {
    match take_name(bytes) {
        Some((name, [])) => Ok(name),
        _ => Err(Error::InvalidCString),
    }
}
