//! Further records of the FUSE protocol, values of a fixed number of bytes like those of `vfs_wire`:
//! of requests on names, open files, ranges and extended attributes, and those that the server
//! itself has no use for, as notifications and requests that it answers without a look at their
//! record.
//!
//! The whole protocol is seen here, the numbers of `vfs_flags` and the records of `vfs_wire` too:
//! `vfs_server` shows this crate as `fuse`. The records of ranges of a file and of SYNCFS are in this
//! file, with small callers of their own; so a further one needs no line elsewhere to be seen.
#![tactic(auto)]

ghost use Rattle.std.specs.Prelude.{◌≡◌, refl, replicate};
ghost use Rattle.std.proofs.Common.{lit≤};
ghost use Rattle.vfs_wire.specs.Fields.{bytes_of};
ghost use Rattle.vfs_wire_more.specs.Devices.{syncfs_in};
ghost use Rattle.vfs_wire_more.specs.Records.{copyfilerange_in, fallocate_in, lseek_in, lseek_out};

mod devices;
mod extensions;
mod files;
mod listings;
mod locks;
mod mappings;
mod names;
mod notifications;
mod xattrs;

pub use devices::BmapIn;
pub use devices::BmapOut;
pub use devices::IoctlIn;
pub use devices::IoctlIovec;
pub use devices::IoctlOut;
pub use devices::PollIn;
pub use devices::PollOut;
pub use devices::StatxIn;
pub use extensions::SecctxHeader;
pub use files::FlushIn;
pub use files::FsyncIn;
pub use files::OpenIn;
pub use files::OpenOut;
pub use files::ReadIn;
pub use files::ReleaseIn;
pub use files::WriteIn;
pub use files::WriteOut;
pub use listings::StatfsOut;
pub use locks::FileLock;
pub use locks::InterruptIn;
pub use locks::LkIn;
pub use locks::LkOut;
pub use mappings::RemovemappingIn;
pub use mappings::RemovemappingOne;
pub use mappings::SetupmappingIn;
pub use names::AccessIn;
pub use names::CreateIn;
pub use names::LinkIn;
pub use names::MkdirIn;
pub use names::MknodIn;
pub use names::Rename2In;
pub use names::RenameIn;
pub use notifications::Notify_Retrieve_Out;
pub use notifications::NotifyDeleteOut;
pub use notifications::NotifyInvalEntryOut;
pub use notifications::NotifyInvalInodeOut;
pub use notifications::NotifyPollWakeupOut;
pub use notifications::NotifyPruneOut;
pub use notifications::NotifyRetrieveIn;
pub use notifications::NotifyStoreOut;
pub use vfs_flags::ATTR_DAX;
pub use vfs_flags::ATTR_SUBMOUNT;
pub use vfs_flags::DEFAULT_MAX_BUFFER;
pub use vfs_flags::Errno;
pub use vfs_flags::ExtType;
pub use vfs_flags::FATTR_FH;
pub use vfs_flags::FATTR_LOCKOWNER;
pub use vfs_flags::FSYNC_FDATASYNC;
pub use vfs_flags::FUSE_COMPAT_22_INIT_OUT_SIZE;
pub use vfs_flags::FUSE_COMPAT_ATTR_OUT_SIZE;
pub use vfs_flags::FUSE_COMPAT_ENTRY_OUT_SIZE;
pub use vfs_flags::FUSE_COMPAT_INIT_OUT_SIZE;
pub use vfs_flags::FUSE_COMPAT_MKNOD_IN_SIZE;
pub use vfs_flags::FUSE_COMPAT_SETXATTR_IN_SIZE;
pub use vfs_flags::FUSE_COMPAT_STATFS_SIZE;
pub use vfs_flags::FUSE_COMPAT_WRITE_IN_SIZE;
pub use vfs_flags::FUSE_MIN_READ_BUFFER;
pub use vfs_flags::Fault;
pub use vfs_flags::FsOptions;
pub use vfs_flags::GETATTR_FH;
pub use vfs_flags::GREATEST_MAX_BUFFER;
pub use vfs_flags::GuestGid;
pub use vfs_flags::GuestUid;
pub use vfs_flags::HostGid;
pub use vfs_flags::HostUid;
pub use vfs_flags::IoctlFlags;
pub use vfs_flags::KERNEL_MINOR_VERSION;
pub use vfs_flags::KERNEL_VERSION;
pub use vfs_flags::LEAST_MAX_BUFFER;
pub use vfs_flags::LK_FLOCK;
pub use vfs_flags::MIN_KERNEL_MINOR_VERSION;
pub use vfs_flags::NotifyInvalEntryOutFlags;
pub use vfs_flags::NotifyOpcode;
pub use vfs_flags::OPEN_KILL_SUIDGID;
pub use vfs_flags::Opcode;
pub use vfs_flags::OpenOptions;
pub use vfs_flags::POLL_SCHEDULE_NOTIFY;
pub use vfs_flags::READ_LOCKOWNER;
pub use vfs_flags::RELEASE_FLOCK_UNLOCK;
pub use vfs_flags::RELEASE_FLUSH;
pub use vfs_flags::ROOT_ID;
pub use vfs_flags::SetattrValid;
pub use vfs_flags::SetupmappingFlags;
pub use vfs_flags::SetxattrFlags;
pub use vfs_flags::WRITE_CACHE;
pub use vfs_flags::WRITE_KILL_PRIV;
pub use vfs_flags::WRITE_LOCKOWNER;
pub use vfs_wire::Attr;
pub use vfs_wire::AttrOut;
pub use vfs_wire::BatchForgetIn;
pub use vfs_wire::ByteValued;
pub use vfs_wire::Dirent;
pub use vfs_wire::Direntplus;
pub use vfs_wire::EntryOut;
pub use vfs_wire::ExtHeader;
pub use vfs_wire::ForgetIn;
pub use vfs_wire::ForgetOne;
pub use vfs_wire::GetattrIn;
pub use vfs_wire::InHeader;
pub use vfs_wire::InitInCompat;
pub use vfs_wire::InitInExt;
pub use vfs_wire::InitOut;
pub use vfs_wire::Kstatfs;
pub use vfs_wire::OutHeader;
pub use vfs_wire::Secctx;
pub use vfs_wire::SetattrIn;
pub use vfs_wire::Stat64;
pub use vfs_wire::Statvfs64;
pub use vfs_wire::SuppGroups;
use vfs_wire::bytes::Field::Eight;
use vfs_wire::bytes::Field::Four;
use vfs_wire::bytes::put_fields;
use vfs_wire::bytes::u32_at;
use vfs_wire::bytes::u64_at;
pub use vfs_wire::bytes_have_size;
pub use vfs_wire::decoding_is_the_inverse;
pub use vfs_wire::put_after_take;
pub use vfs_wire::take_after_put;
pub use xattrs::GetxattrIn;
pub use xattrs::GetxattrOut;
pub use xattrs::SetxattrIn;
pub use xattrs::SetxattrInCompat;

/// The record of LSEEK (`struct fuse_lseek_in`, 24 bytes).
#[derive(Clone, Copy, Debug, Default)]
pub struct LseekIn {
    /// Handle of the open file, as the reply to OPEN or CREATE gave it.
    pub fh: u64,
    /// Place in the file in bytes that the search begins at.
    pub offset: u64,
    /// What to look for, as for `lseek`: data (3) or a hole (4).
    pub whence: u32,
    /// Not used; a sender writes 0.
    pub padding: u32,
}

impl ByteValued for LseekIn {
    const SIZE: usize = 24;

    ghost SIZE = { 24 };

    ghost table = { lseek_in };

    fn put(&self, out: &mut [u8]) {
        put_fields(
            out,
            &[
                Eight(self.fh),
                Eight(self.offset),
                Four(self.whence),
                Four(self.padding),
            ],
        );
    }

    fn take(b: &[u8]) -> LseekIn {
        LseekIn {
            fh: u64_at(b, 0),
            offset: u64_at(b, 8),
            whence: u32_at(b, 16),
            padding: u32_at(b, 20),
        }
    }

    ghost size_is = { refl };

    ghost size_small = { lit≤ tt };

    ghost made_fields = { λ x h. refl };

    ghost fields_made = { λ b h. refl };
}

/// The reply to LSEEK (`struct fuse_lseek_out`, 8 bytes).
#[derive(Clone, Copy, Debug, Default)]
pub struct LseekOut {
    /// Place in the file in bytes that was found.
    pub offset: u64,
}

impl ByteValued for LseekOut {
    const SIZE: usize = 8;

    ghost SIZE = { 8 };

    ghost table = { lseek_out };

    fn put(&self, out: &mut [u8]) {
        put_fields(out, &[Eight(self.offset)]);
    }

    fn take(b: &[u8]) -> LseekOut {
        LseekOut {
            offset: u64_at(b, 0),
        }
    }

    ghost size_is = { refl };

    ghost size_small = { lit≤ tt };

    ghost made_fields = { λ x h. refl };

    ghost fields_made = { λ b h. refl };
}

/// The record of COPY_FILE_RANGE (`struct fuse_copy_file_range_in`, 56 bytes). The header's node is
/// the file that is copied from.
#[derive(Clone, Copy, Debug, Default)]
pub struct CopyfilerangeIn {
    /// Handle of the file that is copied from.
    pub fh_in: u64,
    /// Place in it in bytes.
    pub off_in: u64,
    /// Node of the file that is copied to.
    pub nodeid_out: u64,
    /// Handle of it.
    pub fh_out: u64,
    /// Place in it in bytes.
    pub off_out: u64,
    /// Number of bytes to copy.
    pub len: u64,
    /// Flags of `copy_file_range`.
    pub flags: u64,
}

impl ByteValued for CopyfilerangeIn {
    const SIZE: usize = 56;

    ghost SIZE = { 56 };

    ghost table = { copyfilerange_in };

    fn put(&self, out: &mut [u8]) {
        put_fields(
            out,
            &[
                Eight(self.fh_in),
                Eight(self.off_in),
                Eight(self.nodeid_out),
                Eight(self.fh_out),
                Eight(self.off_out),
                Eight(self.len),
                Eight(self.flags),
            ],
        );
    }

    fn take(b: &[u8]) -> CopyfilerangeIn {
        CopyfilerangeIn {
            fh_in: u64_at(b, 0),
            off_in: u64_at(b, 8),
            nodeid_out: u64_at(b, 16),
            fh_out: u64_at(b, 24),
            off_out: u64_at(b, 32),
            len: u64_at(b, 40),
            flags: u64_at(b, 48),
        }
    }

    ghost size_is = { refl };

    ghost size_small = { lit≤ tt };

    ghost made_fields = { λ x h. refl };

    ghost fields_made = { λ b h. refl };
}

/// The record of FALLOCATE (`struct fuse_fallocate_in`, 32 bytes).
#[derive(Clone, Copy, Debug, Default)]
pub struct FallocateIn {
    /// Handle of the open file, as the reply to OPEN or CREATE gave it.
    pub fh: u64,
    /// Place in the file in bytes.
    pub offset: u64,
    /// Length of the range in bytes.
    pub length: u64,
    /// Mode of `fallocate`.
    pub mode: u32,
    /// Not used; a sender writes 0.
    pub padding: u32,
}

impl ByteValued for FallocateIn {
    const SIZE: usize = 32;

    ghost SIZE = { 32 };

    ghost table = { fallocate_in };

    fn put(&self, out: &mut [u8]) {
        put_fields(
            out,
            &[
                Eight(self.fh),
                Eight(self.offset),
                Eight(self.length),
                Four(self.mode),
                Four(self.padding),
            ],
        );
    }

    fn take(b: &[u8]) -> FallocateIn {
        FallocateIn {
            fh: u64_at(b, 0),
            offset: u64_at(b, 8),
            length: u64_at(b, 16),
            mode: u32_at(b, 24),
            padding: u32_at(b, 28),
        }
    }

    ghost size_is = { refl };

    ghost size_small = { lit≤ tt };

    ghost made_fields = { λ x h. refl };

    ghost fields_made = { λ b h. refl };
}

/// The record of SYNCFS (`struct fuse_syncfs_in`, 8 bytes).
#[derive(Clone, Copy, Debug, Default)]
pub struct SyncfsIn {
    /// Not used; a sender writes 0.
    pub padding: u64,
}

impl ByteValued for SyncfsIn {
    const SIZE: usize = 8;

    ghost SIZE = { 8 };

    ghost table = { syncfs_in };

    fn put(&self, out: &mut [u8]) {
        put_fields(out, &[Eight(self.padding)]);
    }

    fn take(b: &[u8]) -> SyncfsIn {
        SyncfsIn {
            padding: u64_at(b, 0),
        }
    }

    ghost size_is = { refl };

    ghost size_small = { lit≤ tt };

    ghost made_fields = { λ x h. refl };

    ghost fields_made = { λ b h. refl };
}

/// These records by default, where each field is 0, and so each byte is: a caller of theirs.
#[tactic(auto, unfolding(vfs_wire::specs::Fields::little))]
fn unset() -> (LseekIn, LseekOut, CopyfilerangeIn, FallocateIn, SyncfsIn)
    ensures lseek_in { bytes_of lseek_in result.0 ≡ replicate 24 0 }
    ensures lseek_out { bytes_of lseek_out result.1 ≡ replicate 8 0 }
    ensures copyfilerange_in { bytes_of copyfilerange_in result.2 ≡ replicate 56 0 }
    ensures fallocate_in { bytes_of fallocate_in result.3 ≡ replicate 32 0 }
    ensures syncfs_in { bytes_of syncfs_in result.4 ≡ replicate 8 0 }
{
    (
        LseekIn::default(),
        LseekOut::default(),
        CopyfilerangeIn::default(),
        FallocateIn::default(),
        SyncfsIn::default(),
    )
}
