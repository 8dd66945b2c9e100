//! Records as bytes, and attributes from a `stat`.

ghost use Rattle.std.specs.Prelude.{ℕ, ◌≡◌, ◌+◌, ◌≤◌, ◌<◌, ◌^◌, [], ◌∷◌, ◌++◌, replicate, pos, negsuc, length, Ok, Err, Some};
ghost use Rattle.vfs_wire.specs.Fields.{bytes_of, value_of};
ghost use Rattle.vfs_wire.specs.Records.{out_header, attr_of_stat, forget_one};

use vfs_flags::{Errno, Fault, GuestGid, GuestUid};
use vfs_wire::parts::part_at;
use vfs_wire::{
    Attr, ByteValued, ForgetIn, ForgetOne, InHeader, Kstatfs, OutHeader, Stat64, Statvfs64,
    bytes_have_size, decoding_is_the_inverse, put_after_take, take_after_put,
};

mod defaults;

/// The bytes of a reply that refuses the request 9 with ENOSYS: the error is negated.
#[tactic(auto, unfolding(vfs_wire::specs::Fields::little))]
fn refusal() -> [u8; 16]
    ensures { result ≡ (16 ∷ replicate 3 0) ++ (0xda ∷ replicate 3 0xff) ++ (9 ∷ replicate 7 0) }
{
    let header = OutHeader {
        len: 16,
        error: -38,
        unique: 9,
    };
    let mut out = [0; 16];
    header.put(&mut out);
    out
}

/// What these bytes say: the request 9 is refused with ENOSYS.
#[tactic(auto, unfolding(vfs_wire::specs::Fields::number))]
fn refused() -> OutHeader
    ensures { result ≡ record { len = 16; error = negsuc 37; unique = 9 } }
{
    OutHeader::take(&[16, 0, 0, 0, 0xda, 0xff, 0xff, 0xff, 9, 0, 0, 0, 0, 0, 0, 0])
}

/// What the record of a FORGET says: 258 lookups are given back.
#[tactic(auto, unfolding(vfs_wire::specs::Fields::number))]
fn given_back() -> ForgetIn
    ensures { result ≡ record { nlookup = 258 } }
{
    ForgetIn::take(&[2, 1, 0, 0, 0, 0, 0, 0])
}

/// A header that is written and read again.
fn header_again(header: &InHeader) -> InHeader
    ensures { result ≡ header.now }
{
    take_after_put::<InHeader>();
    let mut bytes = [0; 40];
    header.put(&mut bytes);
    InHeader::take(&bytes)
}

/// Bytes that are read as a header and written again.
fn bytes_again(bytes: &[u8], again: &mut [u8])
    requires read { length bytes.now ≡ 40 }
    requires written { length again.old ≡ 40 }
    ensures { again.new ≡ bytes.now }
{
    put_after_take::<InHeader>();
    InHeader::take(bytes).put(again);
}

/// A pair of a BATCH_FORGET that is made of two numbers has the first as its node and the second as
/// its count: they are its fields again.
fn pair_of_two_numbers()
    ensures { (node count : ℕ) → node < 2 ^ 64 → count < 2 ^ 64 →
        ((forget_one.made (node ∷ count ∷ [])).nodeid ≡ node)
        × ((forget_one.made (node ∷ count ∷ [])).nlookup ≡ count) }
{
    decoding_is_the_inverse::<ForgetOne>();
}

/// The header of a reply that is among other bytes: it has sixteen bytes, which are read as it
/// again.
fn reply_header_at(bytes: &[u8], at: usize) -> OutHeader
    requires { at + 16 ≤ length bytes.now }
    ensures size { length (bytes_of out_header result) ≡ 16 }
    ensures again { value_of out_header (bytes_of out_header result) ≡ result }
{
    take_after_put::<OutHeader>();
    bytes_have_size::<OutHeader>();
    part_at(bytes, at)
}

/// The attributes of a file of the host, whose users and groups the guest numbers as the host does.
fn as_on_the_host(st: Stat64) -> Result<Attr, Fault>
    ensures { result ≡ Ok (attr_of_stat st 0 st.st_uid st.st_gid) }
{
    Attr::try_from_stat64(
        st,
        |uid| Ok(GuestUid::from(uid.into_inner())),
        |gid| Ok(GuestGid::from(gid.into_inner())),
    )
}

/// The attributes of a submount, where all files are the root's.
fn submount_of_root(st: Stat64) -> Result<Attr, Fault>
    ensures { result ≡ Ok (attr_of_stat st 1 0 0) }
{
    Attr::try_with_flags(
        st,
        1,
        |_| Ok(GuestUid::default()),
        |_| Ok(GuestGid::default()),
    )
}

/// The attributes of a file whose numbers of links, devices and nanoseconds have more than 32 bits,
/// and whose size and time of access are below 0.
fn cut_attributes() -> Result<Attr, Fault>
    ensures { result ≡ Ok (record {
      ino = 9;
      size = 0xffffffffffffffff;
      blocks = 8;
      atime = 0xfffffffffffffffe;
      mtime = 5;
      ctime = 6;
      atimensec = 0xffffffff;
      mtimensec = 7;
      ctimensec = 8;
      mode = 0x81a4;
      nlink = 2;
      uid = 1000;
      gid = 100;
      rdev = 3;
      blksize = 4096;
      flags = 0;
    }) }
{
    as_on_the_host(Stat64 {
        st_ino: 9,
        st_nlink: 0x1_0000_0002,
        st_rdev: 0x7_0000_0003,
        st_size: -1,
        st_blocks: 8,
        st_blksize: 4096,
        st_atime: -2,
        st_mtime: 5,
        st_ctime: 6,
        st_atime_nsec: -1,
        st_mtime_nsec: 7,
        st_ctime_nsec: 0x1_0000_0008,
        st_mode: 0o100_644,
        st_uid: 1000,
        st_gid: 100,
    })
}

/// A fault of the map of users is the answer, whatever the map of groups does.
fn unmapped_user(st: Stat64) -> Result<Attr, Fault>
    ensures { result ≡ Err (Some 34) }
{
    Attr::try_from_stat64(
        st,
        |_| Err(Some(Errno::ERANGE)),
        |_| Err(Some(Errno::EPERM)),
    )
}

/// A fault of the map of groups is the answer where the map of users gave a user.
fn unmapped_group(st: Stat64) -> Result<Attr, Fault>
    ensures { result ≡ Err (Some 34) }
{
    Attr::try_from_stat64(
        st,
        |_| Ok(GuestUid::default()),
        |_| Err(Some(Errno::ERANGE)),
    )
}

/// The counts of an empty file system with names of up to 255 bytes.
fn empty_file_system() -> Kstatfs
    ensures { result ≡ record {
      blocks = 0;
      bfree = 0;
      bavail = 0;
      files = 0;
      ffree = 0;
      bsize = 512;
      namelen = 255;
      frsize = 0;
      padding = 0;
      spare = replicate 6 0;
    } }
{
    Kstatfs::from(Statvfs64 {
        f_bsize: 512,
        f_namemax: 255,
        ..Statvfs64::default()
    })
}

/// Counts of 64 bits are kept, and sizes are cut to 32.
fn cut_counts() -> Kstatfs
    ensures { result ≡ record {
      blocks = 0x100000001;
      bfree = 2;
      bavail = 3;
      files = 4;
      ffree = 5;
      bsize = 0x200;
      namelen = 255;
      frsize = 0x400;
      padding = 0;
      spare = replicate 6 0;
    } }
{
    Kstatfs::from(Statvfs64 {
        f_bsize: 0x1_0000_0200,
        f_frsize: 0x5_0000_0400,
        f_blocks: 0x1_0000_0001,
        f_bfree: 2,
        f_bavail: 3,
        f_files: 4,
        f_ffree: 5,
        f_namemax: 0x6_0000_00ff,
    })
}

/// A file of the host of which nothing is known.
fn unknown_file() -> Stat64
    ensures { result ≡ record {
      st_ino = 0;
      st_nlink = 0;
      st_rdev = 0;
      st_size = pos 0;
      st_blocks = pos 0;
      st_blksize = pos 0;
      st_atime = pos 0;
      st_mtime = pos 0;
      st_ctime = pos 0;
      st_atime_nsec = pos 0;
      st_mtime_nsec = pos 0;
      st_ctime_nsec = pos 0;
      st_mode = 0;
      st_uid = 0;
      st_gid = 0;
    } }
{
    Stat64::default()
}

/// A file system of the host of which nothing is known.
fn unknown_file_system() -> Statvfs64
    ensures { result ≡ record {
      f_bsize = 0;
      f_frsize = 0;
      f_blocks = 0;
      f_bfree = 0;
      f_bavail = 0;
      f_files = 0;
      f_ffree = 0;
      f_namemax = 0;
    } }
{
    Statvfs64::default()
}
