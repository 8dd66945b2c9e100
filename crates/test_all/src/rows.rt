//! Small exchanges by value: what readers, writers, records and extensions do with bytes that were
//! worked out by hand.
use bitflags::Flags;
use fs_small::{MemFs, Unserved};
use std::alloc::{AllocError, Global};
use std::io::{ErrorKind, Read, Write};
use std::test::Fail;
use vfs_server::descriptor_utils::{self, Reader, Writer};
use vfs_server::filesystem::{CStr, CString, Extensions, SecContext};
use vfs_server::fuse::{ByteValued, ForgetOne, FsOptions, InitInCompat};
use vfs_server::server::{self, Server};

fn rooms(alloc: Global, lengths: &[usize]) -> Result<Vec<Vec<u8>>, AllocError> {
    let mut rooms = Vec::new(alloc);
    for length in lengths {
        rooms.push(vec![in alloc; 0u8; *length]?)?;
    }
    Ok(rooms)
}

fn slices(segments: &[Vec<u8>], alloc: Global) -> Result<Vec<&[u8]>, AllocError> {
    let mut s = Vec::new(alloc);
    for x in segments {
        s.push(x.as_slice())?;
    }
    Ok(s)
}

fn counts(r: &Reader<'_>) -> (usize, usize) {
    (r.available_bytes(), r.bytes_read())
}

fn wcounts(r: &Writer) -> (usize, usize) {
    (r.available_bytes(), r.bytes_written())
}
/// A record is its fields in order, little endian.
fn records_in_little_endian() -> bool {
    let mut out = [0u8; 16];
    ForgetOne {
        nodeid: 1,
        nlookup: 2,
    }
    .put(&mut out);
    let i = InitInCompat::take(b"\x07\0\0\0\x26\0\0\0\0\0\x02\0\xff\xff\xff\xff");
    out == *b"\x01\0\0\0\0\0\0\0\x02\0\0\0\0\0\0\0"
        && i.major == 7
        && i.minor == 38
        && i.max_readahead == 131072
        && i.flags == 0xffffffff
}
/// `hold` passes over bytes that `fill_held` writes later. A hold of more than is left changes nothing.
fn a_held_place_is_filled(alloc: Global) -> Result<bool, Fail> {
    let mut w = Writer::new(alloc, rooms(alloc, &[10, 10])?)?;
    let a = w.hold(16).is_ok() && wcounts(&w) == (4, 16) && w.held() == 16;
    let b = matches!(w.write(b"\xaa\xbb"), Ok(2));
    if w.held() != 16 {
        return Ok(false);
    }
    w.fill_held(&[0, 1, 2, 3, 4, 5, 6, 7, 8, 9, 10, 11, 12, 13, 14, 15]);
    let c = w.held() == 0
        && w.hold(3) == Err(descriptor_utils::Error::SplitOutOfBounds(3))
        && w.available_bytes() == 2;
    let s = w.into_segments();
    Ok(
        a && b
            && c
            && s.len() == 2
            && s[0].as_slice() == [0u8, 1, 2, 3, 4, 5, 6, 7, 8, 9].as_slice()
            && s[1].as_slice() == [10u8, 11, 12, 13, 14, 15, 0xaa, 0xbb, 0, 0].as_slice(),
    )
}
/// `read_exact` and `write_all` use all that is left before they fail.
fn an_exact_read_past_the_end(alloc: Global) -> Result<bool, Fail> {
    let seg = rooms(alloc, &[256, 256])?;
    let sl = slices(&seg, alloc)?;
    let mut r = Reader::new(alloc, &sl)?;
    let mut b = [0u8; 1024];
    let e = match r.read_exact(&mut b) {
        Ok(()) => false,
        Err(e) => e.kind() == ErrorKind::UnexpectedEof,
    };
    let mut w = Writer::new(alloc, rooms(alloc, &[16, 16, 16])?)?;
    let z = match w.write_all(&[1u8; 64]) {
        Ok(()) => false,
        Err(e) => e.kind() == ErrorKind::WriteZero,
    };
    Ok(e && z && counts(&r) == (0, 512) && w.bytes_written() == 48)
}
/// A refused `split_at` changes nothing.
fn a_split_past_the_end(alloc: Global) -> Result<bool, Fail> {
    let seg = rooms(alloc, &[16, 16, 96])?;
    let sl = slices(&seg, alloc)?;
    let mut r = Reader::new(alloc, &sl)?;
    let refused = r.split_at(256).err() == Some(descriptor_utils::Error::SplitOutOfBounds(256));
    let same = counts(&r) == (128, 0);
    let rest = r.split_at(128)?;
    Ok(refused && same && counts(&r) == (128, 0) && counts(&rest) == (0, 0))
}
/// Empty segments are passed over; a clone moves by itself.
fn empty_segments_and_a_clone(alloc: Global) -> Result<bool, Fail> {
    let mut r = Reader::new(alloc, &[b"", b"ab", b"", b"cd"])?;
    let a = r.available_bytes() == 4;
    let mut b = [0u8; 3];
    let n = matches!(r.read(&mut b), Ok(3));
    let mut c = r.clone()?;
    let one = counts(&c) == (1, 3);
    let mut d = [0u8; 2];
    let m = matches!(c.read(&mut d), Ok(1));
    Ok(a && n && b == *b"abc" && one && m && counts(&c) == (0, 4) && counts(&r) == (1, 3))
}
/// Reads and writes run over the ends of segments.
fn segments_are_read_and_written(alloc: Global) -> Result<bool, Fail> {
    let seg = rooms(alloc, &[8, 16, 18, 64])?;
    let sl = slices(&seg, alloc)?;
    let mut r = Reader::new(alloc, &sl)?;
    let mut w = Writer::new(alloc, rooms(alloc, &[8, 16, 18, 64])?)?;
    let mut ok = counts(&r) == (106, 0) && wcounts(&w) == (106, 0);
    let mut b = [0u8; 64];
    ok = ok
        && matches!(r.read(&mut b), Ok(64))
        && matches!(w.write(&b), Ok(64))
        && counts(&r) == (42, 64)
        && wcounts(&w) == (42, 64);
    ok = ok
        && matches!(r.read(&mut b), Ok(42))
        && matches!(w.write(&b), Ok(42))
        && counts(&r) == (0, 106)
        && wcounts(&w) == (0, 106);
    Ok(ok)
}
/// Without segments nothing is read or written.
fn no_segments(alloc: Global) -> Result<bool, Fail> {
    let mut r = Reader::new(alloc, &[])?;
    let mut w = Writer::new(alloc, Vec::new(alloc))?;
    Ok(
        counts(&r) == (0, 0)
            && wcounts(&w) == (0, 0)
            && r.read_obj::<u8>().is_err()
            && w.write_obj(0u8).is_err()
            && counts(&r) == (0, 0)
            && wcounts(&w) == (0, 0),
    )
}

/// Whether the segment of this number is these bytes.
fn is_at(segments: &[Vec<u8>], number: usize, bytes: &[u8]) -> bool {
    match segments.get(number) {
        Some(segment) => segment.as_slice() == bytes,
        None => false,
    }
}

/// A read and a write end where the segments end.
fn bytes_over_segments(alloc: Global) -> Result<bool, Fail> {
    let seg = rooms(alloc, &[16, 16, 96])?;
    let sl = slices(&seg, alloc)?;
    let mut r = Reader::new(alloc, &sl)?;
    let mut b = [7u8; 200];
    let mut w = Writer::new(alloc, rooms(alloc, &[64, 1, 3])?)?;
    let read = matches!(r.read(&mut b), Ok(128)) && counts(&r) == (0, 128);
    let written = w.write_all(&[0u8; 68]).is_ok() && wcounts(&w) == (0, 68);
    Ok(read && written)
}

/// A number over four segments of one byte comes back.
fn objects_over_segments(alloc: Global) -> Result<bool, Fail> {
    let mut x = Writer::new(alloc, rooms(alloc, &[1, 1, 1, 1])?)?;
    let wrote = x.write_obj(0x12345678u32).is_ok();
    let s = x.into_segments();
    let bytes = is_at(&s, 0, b"\x78")
        && is_at(&s, 1, b"\x56")
        && is_at(&s, 2, b"\x34")
        && is_at(&s, 3, b"\x12");
    let sl2 = slices(&s, alloc)?;
    let mut y = Reader::new(alloc, &sl2)?;
    Ok(wrote && bytes && matches!(y.read_obj::<u32>(), Ok(0x12345678)))
}

fn split_once(alloc: Global, at: usize, first: usize, rest: usize) -> Result<bool, Fail> {
    let seg = rooms(alloc, &[16, 16, 96])?;
    let sl = slices(&seg, alloc)?;
    let mut r = Reader::new(alloc, &sl)?;
    let mut w = Writer::new(alloc, rooms(alloc, &[16, 16, 96])?)?;
    let rr = r.split_at(at)?;
    let wr = w.split_at(at)?;
    Ok(
        r.available_bytes() == first
            && rr.available_bytes() == rest
            && w.available_bytes() == first
            && wr.available_bytes() == rest,
    )
}
/// `split_at` leaves the first bytes to the one and the others to the other.
fn splits(alloc: Global) -> Result<bool, Fail> {
    let mut w = Writer::new(alloc, rooms(alloc, &[16, 16, 96])?)?;
    let refused = w.split_at(256).err() == Some(descriptor_utils::Error::SplitOutOfBounds(256));
    let seg = rooms(alloc, &[16, 16, 16])?;
    let sl = slices(&seg, alloc)?;
    let mut r = Reader::new(alloc, &sl)?;
    let mut x = Writer::new(alloc, rooms(alloc, &[16, 16, 16])?)?;
    let mut b = [0u8; 64];
    Ok(
        refused
            && split_once(alloc, 0, 0, 128)?
            && split_once(alloc, 24, 24, 104)?
            && split_once(alloc, 32, 32, 96)?
            && split_once(alloc, 128, 128, 0)?
            && matches!(r.read(&mut b), Ok(48))
            && matches!(x.write(&b), Ok(48)),
    )
}
/// A hold that the caller left is given up, and the bytes that it passed stay.
fn a_hold_is_given_up(alloc: Global) -> Result<bool, Fail> {
    let mut s = Server::new(Unserved {}, 4096);
    let mut w = Writer::new(alloc, rooms(alloc, &[32])?)?;
    w.hold(16)?;
    let r = Reader::new(
        alloc,
        &[
            b"\x28\0\0\0\x07\0\0\0\x09\0\0\0\0\0\0\0\0\0\0\0\0\0\0\0\0\0\0\0\0\0\0\0\0\0\0\0\0\0\0\0",
        ],
    )?;
    let n = s.handle_message(alloc, r, &mut w);
    let g = w.into_segments();
    Ok(
        n == Ok(16)
            && g[0].as_slice()
                == b"\0\0\0\0\0\0\0\0\0\0\0\0\0\0\0\0\x10\0\0\0\xda\xff\xff\xff\x09\0\0\0\0\0\0\0".as_slice(),
    )
}

fn is_sv(s: &SecContext) -> bool {
    s.name.as_c_str().to_bytes() == b"s".as_slice() && s.secctx.as_slice() == b"v".as_slice()
}

fn has_sv(e: &Extensions) -> bool {
    match &e.secctx {
        Some(s) => is_sv(s) && e.sup_gid.is_none(),
        None => false,
    }
}
/// A security context and a group, as values and as copies.
fn extension_values(alloc: Global) -> Result<bool, Fail> {
    let none = matches!(
        server::parse_security_context(alloc, 0, b"anything"),
        Ok(None)
    );
    let group = match server::parse_sup_groups(b"\x01\0\0\0\xe8\x03\0\0\xff") {
        Ok(g) => g.into_inner() == 1000,
        Err(_) => false,
    };
    let tail = b"d\0\x13\0\0\0\x01\0\0\0\x01\0\0\0\0\0\0\0s\0v";
    let Ok(e) = server::get_extensions(alloc, FsOptions::SECURITY_CTX, 2, tail) else {
        return Ok(false);
    };
    let Ok(c) = e.clone(alloc) else {
        return Ok(false);
    };
    let Ok(Some(p)) = server::parse_security_context(alloc, 1, b"\x01\0\0\0\0\0\0\0s\0v") else {
        return Ok(false);
    };
    let Ok(q) = p.clone(alloc) else {
        return Ok(false);
    };
    let Some(name) = CStr::from_bytes_with_nul(b"s\0") else {
        return Ok(false);
    };
    let Ok(own) = CString::new(alloc, name) else {
        return Ok(false);
    };
    Ok(
        none && group
            && has_sv(&e)
            && has_sv(&c)
            && is_sv(&p)
            && is_sv(&q)
            && own.as_c_str().to_bytes() == b"s".as_slice(),
    )
}

#[test]
fn records_in_little_endian_test(rt: HostRuntime) {
    assert!(rt; records_in_little_endian());
}

#[test]
fn a_held_place_is_filled_test(rt: HostRuntime) -> Result<(), Fail> {
    assert!(rt; a_held_place_is_filled(rt.alloc())?);
    Ok(())
}

#[test]
fn an_exact_read_past_the_end_test(rt: HostRuntime) -> Result<(), Fail> {
    assert!(rt; an_exact_read_past_the_end(rt.alloc())?);
    Ok(())
}

#[test]
fn a_split_past_the_end_test(rt: HostRuntime) -> Result<(), Fail> {
    assert!(rt; a_split_past_the_end(rt.alloc())?);
    Ok(())
}

#[test]
fn empty_segments_and_a_clone_test(rt: HostRuntime) -> Result<(), Fail> {
    assert!(rt; empty_segments_and_a_clone(rt.alloc())?);
    Ok(())
}

#[test]
fn segments_are_read_and_written_test(rt: HostRuntime) -> Result<(), Fail> {
    assert!(rt; segments_are_read_and_written(rt.alloc())?);
    Ok(())
}

#[test]
fn no_segments_test(rt: HostRuntime) -> Result<(), Fail> {
    assert!(rt; no_segments(rt.alloc())?);
    Ok(())
}

#[test]
fn bytes_over_segments_test(rt: HostRuntime) -> Result<(), Fail> {
    assert!(rt; bytes_over_segments(rt.alloc())?);
    Ok(())
}

#[test]
fn objects_over_segments_test(rt: HostRuntime) -> Result<(), Fail> {
    assert!(rt; objects_over_segments(rt.alloc())?);
    Ok(())
}

#[test]
fn splits_test(rt: HostRuntime) -> Result<(), Fail> {
    assert!(rt; splits(rt.alloc())?);
    Ok(())
}

#[test]
fn a_hold_is_given_up_test(rt: HostRuntime) -> Result<(), Fail> {
    assert!(rt; a_hold_is_given_up(rt.alloc())?);
    Ok(())
}

#[test]
fn extension_values_test(rt: HostRuntime) -> Result<(), Fail> {
    assert!(rt; extension_values(rt.alloc())?);
    Ok(())
}
