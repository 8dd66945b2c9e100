//! Values that are written over the bytes of one segment in one go.

ghost use Rattle.std.specs.Prelude.{◌≡◌, ℕ, ◌+◌, List, ◌++◌, length, replicate, ⊤};
ghost use Rattle.vfs_wire.specs.Fields.{Fit, bytes_of};

use crate::beside::spell_padded;
use crate::pair::spell_pair;
use vfs_wire::ByteValued;

// A value that is spelled as some bytes.
pub(crate) trait Spelled {
    // The bytes.
    ghost bytes: { Self → List ℕ };

    // How many they are.
    ghost size: { Self → ℕ };

    // What is known of a value that was spelled.
    ghost known: { Self → Type 0 };

    // How many bytes there are.
    fn size_of(&self) -> usize
        ensures { result ≡ size self.now };

    // Writes them over all of `out`.
    fn spell(&self, out: &mut [u8])
        requires { length out.old ≡ size self.now }
        ensures wrote { out.new ≡ bytes self.now }
        ensures known { known self.now };
}

// Copies bytes over as many others: a single one by itself, since a call costs more than it does.
#[inline(always)]
pub(crate) fn copy_piece(out: &mut [u8], bytes: &[u8])
    requires { length out.old ≡ length bytes.now }
    ensures { out.new ≡ bytes.now }
{
    if bytes.len() == 1 {
        out[0] = bytes[0];
    } else {
        out.copy_from_slice(bytes);
    }
}

// Bytes are spelled as they are.
impl<'x> Spelled for &'x [u8] {
    ghost bytes = { λ b. b.now };

    ghost size = { λ b. length b.now };

    ghost known = { λ _. ⊤ };

    #[inline(always)]
    fn size_of(&self) -> usize {
        let bytes = *self;
        bytes.len()
    }

    #[inline(always)]
    fn spell(&self, out: &mut [u8]) {
        let bytes = *self;
        copy_piece(out, bytes);
    }
}

// A record.
#[derive(Drop)]
pub(crate) struct Record<'x, T: ByteValued> {
    pub(crate) record: &'x T,
}

impl<'x, T: ByteValued> Spelled for Record<'x, T> {
    ghost bytes = { λ r. bytes_of T.table r.record.now };

    ghost size = { λ _. T.SIZE };

    ghost known = { λ r.
        Fit T.table.widths (T.table.fields r.record.now) × T.in_range r.record.now };

    #[inline(always)]
    fn size_of(&self) -> usize {
        T::SIZE
    }

    #[inline(always)]
    fn spell(&self, out: &mut [u8]) {
        self.record.put(out);
    }
}

// Two records, the second after the first.
#[derive(Drop)]
pub(crate) struct Pair<'x, T: ByteValued, U: ByteValued> {
    pub(crate) first: &'x T,
    pub(crate) second: &'x U,
}

impl<'x, T: ByteValued, U: ByteValued> Spelled for Pair<'x, T, U> {
    ghost bytes = { λ p. bytes_of T.table p.first.now ++ bytes_of U.table p.second.now };

    ghost size = { λ _. T.SIZE + U.SIZE };

    ghost known = { λ p.
        (Fit T.table.widths (T.table.fields p.first.now) × T.in_range p.first.now)
        × (Fit U.table.widths (U.table.fields p.second.now) × U.in_range p.second.now) };

    #[inline(always)]
    fn size_of(&self) -> usize {
        T::SIZE + U::SIZE
    }

    #[inline(always)]
    fn spell(&self, out: &mut [u8]) {
        spell_pair(out, self.first, self.second);
    }
}

// A record, bytes after it, and that many zeros after these.
#[derive(Drop)]
pub(crate) struct Padded<'x, T: ByteValued> {
    pub(crate) record: &'x T,
    pub(crate) bytes: &'x [u8],
    pub(crate) zeros: u8,
}

impl<'x, T: ByteValued> Spelled for Padded<'x, T> {
    ghost bytes = { λ p. bytes_of T.table p.record.now
        ++ (p.bytes.now ++ replicate p.zeros 0) };

    ghost size = { λ p. T.SIZE + length p.bytes.now + p.zeros };

    ghost known = { λ p.
        Fit T.table.widths (T.table.fields p.record.now) × T.in_range p.record.now };

    #[inline(always)]
    fn size_of(&self) -> usize {
        T::SIZE + self.bytes.len() + self.zeros as usize
    }

    #[inline(always)]
    fn spell(&self, out: &mut [u8]) {
        spell_padded(out, self.record, self.bytes, self.zeros as usize);
    }
}
