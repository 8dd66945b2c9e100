//! The plain numbers as values of 1, 2, 4 and 8 bytes, little endian.

ghost use Rattle.std.specs.Prelude.{refl};
ghost use Rattle.std.proofs.Common.{lit≤};
ghost use Rattle.vfs_wire.specs.Fields.{lone_number};

use crate::ByteValued;
use crate::bytes::Field::{Eight, Four, One, Two};
use crate::bytes::{put_fields, u8_at, u16_at, u32_at, u64_at};

impl ByteValued for u8 {
    const SIZE: usize = 1;

    ghost SIZE = { 1 };

    ghost table = { lone_number 1 };

    fn put(&self, out: &mut [u8]) {
        put_fields(out, &[One(*self)]);
    }

    fn take(b: &[u8]) -> u8 {
        u8_at(b, 0)
    }

    ghost size_is = { refl };

    ghost size_small = { lit≤ tt };

    ghost made_fields = { λ x h. refl };

    ghost fields_made = { λ b h. refl };
}

impl ByteValued for u16 {
    const SIZE: usize = 2;

    ghost SIZE = { 2 };

    ghost table = { lone_number 2 };

    fn put(&self, out: &mut [u8]) {
        put_fields(out, &[Two(*self)]);
    }

    fn take(b: &[u8]) -> u16 {
        u16_at(b, 0)
    }

    ghost size_is = { refl };

    ghost size_small = { lit≤ tt };

    ghost made_fields = { λ x h. refl };

    ghost fields_made = { λ b h. refl };
}

impl ByteValued for u32 {
    const SIZE: usize = 4;

    ghost SIZE = { 4 };

    ghost table = { lone_number 4 };

    fn put(&self, out: &mut [u8]) {
        put_fields(out, &[Four(*self)]);
    }

    fn take(b: &[u8]) -> u32 {
        u32_at(b, 0)
    }

    ghost size_is = { refl };

    ghost size_small = { lit≤ tt };

    ghost made_fields = { λ x h. refl };

    ghost fields_made = { λ b h. refl };
}

impl ByteValued for u64 {
    const SIZE: usize = 8;

    ghost SIZE = { 8 };

    ghost table = { lone_number 8 };

    fn put(&self, out: &mut [u8]) {
        put_fields(out, &[Eight(*self)]);
    }

    fn take(b: &[u8]) -> u64 {
        u64_at(b, 0)
    }

    ghost size_is = { refl };

    ghost size_small = { lit≤ tt };

    ghost made_fields = { λ x h. refl };

    ghost fields_made = { λ b h. refl };
}
