//! What the answers hold, as functions of the seed and of what the call is told.
//!
//! With t a number, a node's attributes are: size 7t, blocks t, times t + 1, t + 2 and t + 3, with
//! the nanoseconds t % 1,000,000 and one and two more, mode 0o100644, 1 + t % 3 names, the caller's
//! user and group, device t % 256, block size 4096 and flags t % 4. A timeout is t % 100 seconds
//! and t % 1000 microseconds.

ghost use Rattle.std.specs.Prelude.{◌≤◌, IfOk, vec_len};

use crate::FsResult;
use bitflags::Flags;
use std::alloc::Global;
use std::time::Duration;
use vfs_files::{Context, Entry};
use vfs_flags::{Errno, Fault, OpenOptions};
use vfs_wire::{Attr, Statvfs64};

/// The fault of a number below 160: 0 has no number, and 135 to 137, which stand for numbers that
/// no fault has, have none either. 1 to 133 are themselves, 134 is the largest, the others are 2.
pub fn fault_of(number: u32) -> Fault {
    if number == 0 || (135..138).contains(&number) {
        None
    } else if number <= 133 {
        Errno::new(number as i32)
    } else if number == 134 {
        Errno::new(i32::MAX)
    } else {
        Some(Errno::ENOENT)
    }
}

/// The entry of a name: t is the sum of the name's bytes and the seed. The node is 0 where t % 5 is
/// 4, else the largest where t % 97 is 96, else t + 1000, and its generation 3t. The attributes
/// hold for the timeout of t, the name for that of t + 1.
pub fn entry(seed: u32, ctx: &Context, name: &[u8]) -> Entry {
    let t = sum_of(name).wrapping_add(u64::from(seed));
    let inode = if t % 5 == 4 {
        0
    } else if t % 97 == 96 {
        u64::MAX
    } else {
        t.wrapping_add(1000)
    };
    Entry {
        inode,
        generation: t.wrapping_mul(3),
        attr: attr(t, inode, ctx),
        attr_timeout: time(t),
        entry_timeout: time(t.wrapping_add(1)),
    }
}

fn sum_of(name: &[u8]) -> u64 {
    let mut sum = 0u64;
    for byte in name {
        sum = sum.wrapping_add(u64::from(*byte));
    }
    sum
}

/// The timeout of t.
pub fn time(t: u64) -> Duration {
    Duration::new(t % 100, (t % 1000) as u32 * 1000)
}

/// The attributes of a node by t.
pub fn attr(t: u64, ino: u64, ctx: &Context) -> Attr {
    let nanoseconds = (t % 1_000_000) as u32;
    Attr {
        ino,
        size: t.wrapping_mul(7),
        blocks: t,
        atime: t.wrapping_add(1),
        mtime: t.wrapping_add(2),
        ctime: t.wrapping_add(3),
        atimensec: nanoseconds,
        mtimensec: nanoseconds + 1,
        ctimensec: nanoseconds + 2,
        mode: 0o100644,
        nlink: 1 + (t % 3) as u32,
        uid: ctx.uid,
        gid: ctx.gid,
        rdev: (t % 256) as u32,
        blksize: 4096,
        flags: (t % 4) as u32,
    }
}

/// The options that INIT wants, by their bits.
pub fn wanted_bits(seed: u32) -> u64 {
    match seed % 6 {
        0 => 0,
        1 => u64::MAX,
        2 => 1 << 32,
        3 => 1 << 29,
        4 => 1 << 29 | 1 << 32,
        _ => 1 << 13 | 1 << 17 | 1 << 28 | 1 << 29 | 1 << 32,
    }
}

/// What an opening answers: no handle where the seed is a multiple of 3, else the seed in both halves of the
/// number; and how what was opened is to be used, the known bits of the seed's rest by 128.
pub fn opening(seed: u32) -> (Option<u64>, OpenOptions) {
    let handle = if seed % 3 == 0 {
        None
    } else {
        Some(u64::from(seed) * 4_294_967_297)
    };
    (handle, OpenOptions::from_bits_truncate(seed % 128))
}

/// What a file system holds. Two of the numbers have more bits than their places in the reply, for
/// some seeds.
pub fn statistics(seed: u32) -> Statvfs64 {
    let q = u64::from(seed);
    Statvfs64 {
        f_bsize: q % 2 * 4_294_967_296 + 512 + q,
        f_frsize: 4096 + q,
        f_blocks: 3 * q,
        f_bfree: 2 * q,
        f_bavail: q,
        f_files: q + 7,
        f_ffree: q + 5,
        f_namemax: 255 + q % 3 * 4_294_967_296,
    }
}

/// `count` bytes that count up from the seed, by 256. ENOMEM where there is no memory for them.
pub fn bytes(alloc: Global, seed: u32, count: u32) -> FsResult<Vec<u8>>
    ensures { IfOk result (λ bytes. vec_len bytes ≤ count) }
{
    let mut bytes = Vec::new(alloc);
    for index in 0..count {
        let byte = (seed.wrapping_add(index) % 256) as u8;
        if bytes.push(byte).is_err() {
            return Err(Some(Errno::ENOMEM));
        }
    }
    Ok(bytes)
}
