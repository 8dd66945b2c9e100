//! What the host's system says of a file and of a file system, and the records that replies show
//! it by.

ghost use Rattle.std.specs.Prelude.{◌≡◌, ◌⊎◌, ℕ, [], ◌∷◌, IfOk, IfErr};
ghost use Rattle.vfs_wire.specs.Records.{attr_of_stat, bits_of, kstatfs_of, low_word};

use crate::{Attr, Kstatfs};
use vfs_flags::{Fault, GuestGid, GuestUid, HostGid, HostUid};

/// What `stat64` says of a file of the host: the fields that a reply shows, in its names and
/// units.
#[derive(Clone, Copy, Debug, Default)]
pub struct Stat64 {
    /// Inode number.
    pub st_ino: u64,
    /// Number of names (hard links).
    pub st_nlink: u64,
    /// Device number of a device file.
    pub st_rdev: u64,
    /// Size in bytes.
    pub st_size: i64,
    /// Space that the file takes, in blocks of 512 bytes.
    pub st_blocks: i64,
    /// Preferred size of reads and writes in bytes.
    pub st_blksize: i64,
    /// Time of the last access, in seconds since 1970.
    pub st_atime: i64,
    /// Time of the last change of the data, likewise.
    pub st_mtime: i64,
    /// Time of the last change of the attributes, likewise.
    pub st_ctime: i64,
    /// The nanoseconds beside `st_atime`.
    pub st_atime_nsec: i64,
    /// The nanoseconds beside `st_mtime`.
    pub st_mtime_nsec: i64,
    /// The nanoseconds beside `st_ctime`.
    pub st_ctime_nsec: i64,
    /// Kind of file and permission bits.
    pub st_mode: u32,
    /// Owner, as the host numbers it.
    pub st_uid: u32,
    /// Group, as the host numbers it.
    pub st_gid: u32,
}

/// What `statvfs64` says of a file system of the host: the fields that the reply to STATFS shows,
/// in its names and units.
#[derive(Clone, Copy, Debug, Default)]
pub struct Statvfs64 {
    /// Preferred size of reads and writes in bytes.
    pub f_bsize: u64,
    /// Size of a block in bytes.
    pub f_frsize: u64,
    /// Number of blocks, in units of `f_frsize`.
    pub f_blocks: u64,
    /// Blocks that are free.
    pub f_bfree: u64,
    /// Blocks that are free for ordinary users.
    pub f_bavail: u64,
    /// Number of files that there can be.
    pub f_files: u64,
    /// Files that there can be besides those that are.
    pub f_ffree: u64,
    /// Most bytes of a name.
    pub f_namemax: u64,
}

impl Attr {
    /// The attributes of a file of the host with no flags: `try_with_flags` with flags 0.
    pub fn try_from_stat64<U, G>(st: Stat64, uid_map: U, gid_map: G) -> Result<Attr, Fault>
    where
        U: FnOnce(HostUid) -> Result<GuestUid, Fault>,
        G: FnOnce(HostGid) -> Result<GuestGid, Fault> + Drop,
        requires uid_map { U.pre uid_map st.st_uid }
        requires gid_map { G.pre gid_map st.st_gid }
        ensures owner { IfOk result (λ a. U.post uid_map st.st_uid (Ok a.uid)) }
        ensures group { IfOk result (λ a. G.post gid_map st.st_gid (Ok a.gid)) }
        ensures shown { IfOk result (λ a. a ≡ attr_of_stat st 0 a.uid a.gid) }
        ensures err { IfErr result (λ f. U.post uid_map st.st_uid (Err f)
            ⊎ ((uid : ℕ) × U.post uid_map st.st_uid (Ok uid) × G.post gid_map st.st_gid (Err f))) }
    {
        Attr::try_with_flags(st, 0, uid_map, gid_map)
    }

    /// The attributes of a file of the host with these flags (`Attr::flags`). The owner and the
    /// group are those that the maps give for the host's. `uid_map` is called first: its fault is
    /// the answer, and `gid_map` is then not called. A fault of `gid_map` is the answer likewise.
    ///
    /// Fields of 64 bits keep the bits of their source; `nlink`, `rdev`, `blksize` and the three
    /// numbers of nanoseconds are its low 32 bits.
    pub fn try_with_flags<U, G>(
        st: Stat64,
        flags: u32,
        uid_map: U,
        gid_map: G,
    ) -> Result<Attr, Fault>
    where
        U: FnOnce(HostUid) -> Result<GuestUid, Fault>,
        G: FnOnce(HostGid) -> Result<GuestGid, Fault> + Drop,
        requires uid_map { U.pre uid_map st.st_uid }
        requires gid_map { G.pre gid_map st.st_gid }
        ensures owner { IfOk result (λ a. U.post uid_map st.st_uid (Ok a.uid)) }
        ensures group { IfOk result (λ a. G.post gid_map st.st_gid (Ok a.gid)) }
        ensures shown { IfOk result (λ a. a ≡ attr_of_stat st flags a.uid a.gid) }
        ensures err { IfErr result (λ f. U.post uid_map st.st_uid (Err f)
            ⊎ ((uid : ℕ) × U.post uid_map st.st_uid (Ok uid) × G.post gid_map st.st_gid (Err f))) }
    {
        let uid = uid_map(HostUid::from(st.st_uid))?;
        let gid = gid_map(HostGid::from(st.st_gid))?;
        Ok(attributes(&st, flags, uid, gid))
    }
}

impl From<Statvfs64> for Kstatfs {
    ghost from_gives = { λ st k. k ≡ kstatfs_of st };

    /// The five counts are unchanged; `bsize`, `namelen` and `frsize` are the low 32 bits of
    /// their sources; the rest is 0.
    fn from(st: Statvfs64) -> Kstatfs {
        Kstatfs {
            blocks: st.f_blocks,
            bfree: st.f_bfree,
            bavail: st.f_bavail,
            files: st.f_files,
            ffree: st.f_ffree,
            bsize: low(st.f_bsize),
            namelen: low(st.f_namemax),
            frsize: low(st.f_frsize),
            padding: 0,
            spare: [0; 6],
        }
    }
}

/// The attributes of a file whose owner and group are these.
fn attributes(st: &Stat64, flags: u32, uid: GuestUid, gid: GuestGid) -> Attr
    ensures { result ≡ attr_of_stat st.now flags uid gid }
{
    let blksize = low_of(st.st_blksize);
    let [atimensec, mtimensec, ctimensec] = nanoseconds(st);
    Attr {
        size: st.st_size.cast_unsigned(),
        blocks: st.st_blocks.cast_unsigned(),
        atime: st.st_atime.cast_unsigned(),
        mtime: st.st_mtime.cast_unsigned(),
        ctime: st.st_ctime.cast_unsigned(),
        ino: st.st_ino,
        atimensec,
        mtimensec,
        ctimensec,
        mode: st.st_mode,
        nlink: low(st.st_nlink),
        uid,
        gid,
        rdev: low(st.st_rdev),
        blksize,
        flags,
    }
}

/// The nanoseconds of the times of the last access, of the last change of the data, and of that of
/// the attributes.
fn nanoseconds(st: &Stat64) -> [u32; 3]
    ensures { result ≡
        low_word (bits_of st.now.st_atime_nsec) ∷ low_word (bits_of st.now.st_mtime_nsec) ∷
        low_word (bits_of st.now.st_ctime_nsec) ∷ [] }
{
    [
        low_of(st.st_atime_nsec),
        low_of(st.st_mtime_nsec),
        low_of(st.st_ctime_nsec),
    ]
}

/// The low 32 bits of a signed number.
fn low_of(n: i64) -> u32
    ensures { result ≡ low_word (bits_of n) }
{
    low(n.cast_unsigned())
}

/// The low 32 bits.
fn low(n: u64) -> u32
    ensures { result ≡ low_word n }
{
    (n % (1 << 32)) as u32
}
