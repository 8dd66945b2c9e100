//! Records by default, where each field is 0, and so each byte is. Those in the root of the crate
//! are called there.

ghost use Rattle.std.specs.Prelude.{◌≡◌, replicate};
ghost use Rattle.vfs_wire.specs.Fields.{bytes_of};
ghost use Rattle.vfs_wire_more.specs.Records.{mknod_in, mkdir_in, rename_in, rename2_in, link_in, create_in, access_in, open_in, open_out, release_in, flush_in, read_in, write_in, write_out, fsync_in, setxattr_in, setxattr_in_compat, getxattr_in, getxattr_out};
ghost use Rattle.vfs_wire_more.specs.Listings.{statfs_out};
ghost use Rattle.vfs_wire_more.specs.Extensions.{secctx_header};
ghost use Rattle.vfs_wire_more.specs.Locks.{file_lock, lk_in, lk_out, interrupt_in};
ghost use Rattle.vfs_wire_more.specs.Devices.{bmap_in, bmap_out, ioctl_in, ioctl_iovec, ioctl_out, poll_in, poll_out, statx_in};
ghost use Rattle.vfs_wire_more.specs.Mappings.{setupmapping_in, removemapping_in, removemapping_one};
ghost use Rattle.vfs_wire_more.specs.Notifications.{notify_poll_wakeup_out, notify_inval_inode_out, notify_inval_entry_out, notify_delete_out, notify_store_out, notify_retrieve_out, notify_retrieve_in, notify_prune_out};

use vfs_wire_more::{
    AccessIn, BmapIn, BmapOut, CreateIn, FileLock, FlushIn, FsyncIn, GetxattrIn, GetxattrOut,
    InterruptIn, IoctlIn, IoctlIovec, IoctlOut, LinkIn, LkIn, LkOut, MkdirIn, MknodIn,
    Notify_Retrieve_Out, NotifyDeleteOut, NotifyInvalEntryOut, NotifyInvalInodeOut,
    NotifyPollWakeupOut, NotifyPruneOut, NotifyRetrieveIn, NotifyStoreOut, OpenIn, OpenOut, PollIn,
    PollOut, ReadIn, ReleaseIn, RemovemappingIn, RemovemappingOne, Rename2In, RenameIn,
    SecctxHeader, SetupmappingIn, SetxattrIn, SetxattrInCompat, StatfsOut, StatxIn, WriteIn,
    WriteOut,
};

/// The records of requests on names, with nothing set.
#[tactic(auto, unfolding(vfs_wire::specs::Fields::little))]
fn names_unset() -> (
    MknodIn,
    MkdirIn,
    RenameIn,
    Rename2In,
    LinkIn,
    CreateIn,
    AccessIn,
)
    ensures mknod_in { bytes_of mknod_in result.0 ≡ replicate 16 0 }
    ensures mkdir_in { bytes_of mkdir_in result.1 ≡ replicate 8 0 }
    ensures rename_in { bytes_of rename_in result.2 ≡ replicate 8 0 }
    ensures rename2_in { bytes_of rename2_in result.3 ≡ replicate 16 0 }
    ensures link_in { bytes_of link_in result.4 ≡ replicate 8 0 }
    ensures create_in { bytes_of create_in result.5 ≡ replicate 16 0 }
    ensures access_in { bytes_of access_in result.6 ≡ replicate 8 0 }
{
    (
        MknodIn::default(),
        MkdirIn::default(),
        RenameIn::default(),
        Rename2In::default(),
        LinkIn::default(),
        CreateIn::default(),
        AccessIn::default(),
    )
}

/// The records of requests on open files, with nothing set.
#[tactic(auto, unfolding(vfs_wire::specs::Fields::little))]
fn files_unset() -> (
    OpenIn,
    OpenOut,
    ReleaseIn,
    FlushIn,
    ReadIn,
    WriteIn,
    WriteOut,
    FsyncIn,
)
    ensures open_in { bytes_of open_in result.0 ≡ replicate 8 0 }
    ensures open_out { bytes_of open_out result.1 ≡ replicate 16 0 }
    ensures release_in { bytes_of release_in result.2 ≡ replicate 24 0 }
    ensures flush_in { bytes_of flush_in result.3 ≡ replicate 24 0 }
    ensures read_in { bytes_of read_in result.4 ≡ replicate 40 0 }
    ensures write_in { bytes_of write_in result.5 ≡ replicate 40 0 }
    ensures write_out { bytes_of write_out result.6 ≡ replicate 8 0 }
    ensures fsync_in { bytes_of fsync_in result.7 ≡ replicate 16 0 }
{
    (
        OpenIn::default(),
        OpenOut::default(),
        ReleaseIn::default(),
        FlushIn::default(),
        ReadIn::default(),
        WriteIn::default(),
        WriteOut::default(),
        FsyncIn::default(),
    )
}

/// The records of extended attributes, with nothing set.
#[tactic(auto, unfolding(vfs_wire::specs::Fields::little))]
fn xattrs_unset() -> (SetxattrIn, SetxattrInCompat, GetxattrIn, GetxattrOut)
    ensures setxattr_in { bytes_of setxattr_in result.0 ≡ replicate 16 0 }
    ensures setxattr_in_compat { bytes_of setxattr_in_compat result.1 ≡ replicate 8 0 }
    ensures getxattr_in { bytes_of getxattr_in result.2 ≡ replicate 8 0 }
    ensures getxattr_out { bytes_of getxattr_out result.3 ≡ replicate 8 0 }
{
    (
        SetxattrIn::default(),
        SetxattrInCompat::default(),
        GetxattrIn::default(),
        GetxattrOut::default(),
    )
}

/// The record of a file system as a whole, with nothing set.
#[tactic(auto, unfolding(vfs_wire::specs::Fields::little))]
fn listings_unset() -> StatfsOut
    ensures { bytes_of statfs_out result ≡ replicate 80 0 }
{
    StatfsOut::default()
}

/// The headers of extensions, with nothing set.
#[tactic(auto, unfolding(vfs_wire::specs::Fields::little))]
fn extensions_unset() -> SecctxHeader
    ensures { bytes_of secctx_header result ≡ replicate 8 0 }
{
    SecctxHeader::default()
}

/// The records of locks, with nothing set.
#[tactic(auto, unfolding(vfs_wire::specs::Fields::little))]
fn locks_unset() -> (FileLock, LkIn, LkOut, InterruptIn)
    ensures file_lock { bytes_of file_lock result.0 ≡ replicate 24 0 }
    ensures lk_in { bytes_of lk_in result.1 ≡ replicate 48 0 }
    ensures lk_out { bytes_of lk_out result.2 ≡ replicate 24 0 }
    ensures interrupt_in { bytes_of interrupt_in result.3 ≡ replicate 8 0 }
{
    (
        FileLock::default(),
        LkIn::default(),
        LkOut::default(),
        InterruptIn::default(),
    )
}

/// The records of requests to devices, with nothing set.
#[tactic(auto, unfolding(vfs_wire::specs::Fields::little))]
fn devices_unset() -> (
    BmapIn,
    BmapOut,
    IoctlIn,
    IoctlIovec,
    IoctlOut,
    PollIn,
    PollOut,
    StatxIn,
)
    ensures bmap_in { bytes_of bmap_in result.0 ≡ replicate 16 0 }
    ensures bmap_out { bytes_of bmap_out result.1 ≡ replicate 8 0 }
    ensures ioctl_in { bytes_of ioctl_in result.2 ≡ replicate 32 0 }
    ensures ioctl_iovec { bytes_of ioctl_iovec result.3 ≡ replicate 16 0 }
    ensures ioctl_out { bytes_of ioctl_out result.4 ≡ replicate 16 0 }
    ensures poll_in { bytes_of poll_in result.5 ≡ replicate 24 0 }
    ensures poll_out { bytes_of poll_out result.6 ≡ replicate 8 0 }
    ensures statx_in { bytes_of statx_in result.7 ≡ replicate 24 0 }
{
    (
        BmapIn::default(),
        BmapOut::default(),
        IoctlIn::default(),
        IoctlIovec::default(),
        IoctlOut::default(),
        PollIn::default(),
        PollOut::default(),
        StatxIn::default(),
    )
}

/// The records of mappings, with nothing set.
#[tactic(auto, unfolding(vfs_wire::specs::Fields::little))]
fn mappings_unset() -> (SetupmappingIn, RemovemappingIn, RemovemappingOne)
    ensures setupmapping_in { bytes_of setupmapping_in result.0 ≡ replicate 40 0 }
    ensures removemapping_in { bytes_of removemapping_in result.1 ≡ replicate 4 0 }
    ensures removemapping_one { bytes_of removemapping_one result.2 ≡ replicate 16 0 }
{
    (
        SetupmappingIn::default(),
        RemovemappingIn::default(),
        RemovemappingOne::default(),
    )
}

/// The records of notifications, with nothing set.
#[tactic(auto, unfolding(vfs_wire::specs::Fields::little))]
fn notifications_unset() -> (
    NotifyPollWakeupOut,
    NotifyInvalInodeOut,
    NotifyInvalEntryOut,
    NotifyDeleteOut,
    NotifyStoreOut,
    Notify_Retrieve_Out,
    NotifyRetrieveIn,
    NotifyPruneOut,
)
    ensures notify_poll_wakeup_out { bytes_of notify_poll_wakeup_out result.0 ≡ replicate 8 0 }
    ensures notify_inval_inode_out { bytes_of notify_inval_inode_out result.1 ≡ replicate 24 0 }
    ensures notify_inval_entry_out { bytes_of notify_inval_entry_out result.2 ≡ replicate 16 0 }
    ensures notify_delete_out { bytes_of notify_delete_out result.3 ≡ replicate 24 0 }
    ensures notify_store_out { bytes_of notify_store_out result.4 ≡ replicate 24 0 }
    ensures notify_retrieve_out { bytes_of notify_retrieve_out result.5 ≡ replicate 32 0 }
    ensures notify_retrieve_in { bytes_of notify_retrieve_in result.6 ≡ replicate 40 0 }
    ensures notify_prune_out { bytes_of notify_prune_out result.7 ≡ replicate 16 0 }
{
    (
        NotifyPollWakeupOut::default(),
        NotifyInvalInodeOut::default(),
        NotifyInvalEntryOut::default(),
        NotifyDeleteOut::default(),
        NotifyStoreOut::default(),
        Notify_Retrieve_Out::default(),
        NotifyRetrieveIn::default(),
        NotifyPruneOut::default(),
    )
}
