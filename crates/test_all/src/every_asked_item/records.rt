//! Every record of the protocol: its size, its fields with their types, and its derives.

use std::fmt::Debug;
use vfs_server::fuse::{
    AccessIn, Attr, AttrOut, BatchForgetIn, BmapIn, BmapOut, ByteValued, CopyfilerangeIn, CreateIn,
    Dirent, Direntplus, EntryOut, ExtHeader, FallocateIn, FileLock, FlushIn, ForgetIn, ForgetOne,
    FsyncIn, GetattrIn, GetxattrIn, GetxattrOut, GuestGid, GuestUid, InHeader, InitInCompat,
    InitInExt, InitOut, InterruptIn, IoctlIn, IoctlIovec, IoctlOut, Kstatfs, LinkIn, LkIn, LkOut,
    LseekIn, LseekOut, MkdirIn, MknodIn, Notify_Retrieve_Out, NotifyDeleteOut, NotifyInvalEntryOut,
    NotifyInvalInodeOut, NotifyPollWakeupOut, NotifyRetrieveIn, NotifyStoreOut, OpenIn, OpenOut,
    OutHeader, PollIn, PollOut, ReadIn, ReleaseIn, RemovemappingIn, RemovemappingOne, Rename2In,
    RenameIn, Secctx, SecctxHeader, SetattrIn, SetupmappingIn, SetxattrIn, SetxattrInCompat,
    StatfsOut, SuppGroups, SyncfsIn, WriteIn, WriteOut,
};

/// Whether a record with the derives of all records has this size.
fn has_size<T: ByteValued + Copy + Clone + Debug + Default>(size: usize) -> bool {
    T::SIZE == size
}

/// The values that fields of each type are made from.
#[derive(Clone, Copy)]
struct Fields {
    half: u16,
    word: u32,
    quad: u64,
    int: i32,
    long: i64,
    uid: GuestUid,
    gid: GuestGid,
}

fn records_1(f: &Fields) -> bool {
    let _ = Attr {
        ino: f.quad,
        size: f.quad,
        blocks: f.quad,
        atime: f.quad,
        mtime: f.quad,
        ctime: f.quad,
        atimensec: f.word,
        mtimensec: f.word,
        ctimensec: f.word,
        mode: f.word,
        nlink: f.word,
        uid: f.uid,
        gid: f.gid,
        rdev: f.word,
        blksize: f.word,
        flags: f.word,
    };
    let _ = Kstatfs {
        blocks: f.quad,
        bfree: f.quad,
        bavail: f.quad,
        files: f.quad,
        ffree: f.quad,
        bsize: f.word,
        namelen: f.word,
        frsize: f.word,
        padding: f.word,
        spare: [f.word; 6],
    };
    let _ = EntryOut {
        nodeid: f.quad,
        generation: f.quad,
        entry_valid: f.quad,
        attr_valid: f.quad,
        entry_valid_nsec: f.word,
        attr_valid_nsec: f.word,
        attr: Attr::default(),
    };
    let _ = ForgetIn { nlookup: f.quad };
    let _ = ForgetOne {
        nodeid: f.quad,
        nlookup: f.quad,
    };
    let _ = BatchForgetIn {
        count: f.word,
        dummy: f.word,
    };
    let _ = GetattrIn {
        flags: f.word,
        dummy: f.word,
        fh: f.quad,
    };
    let _ = AttrOut {
        attr_valid: f.quad,
        attr_valid_nsec: f.word,
        dummy: f.word,
        attr: Attr::default(),
    };
    let _ = MknodIn {
        mode: f.word,
        rdev: f.word,
        umask: f.word,
        padding: f.word,
    };
    let _ = MkdirIn {
        mode: f.word,
        umask: f.word,
    };
    let _ = RenameIn { newdir: f.quad };
    has_size::<Attr>(88)
        && has_size::<Kstatfs>(80)
        && has_size::<EntryOut>(128)
        && has_size::<ForgetIn>(8)
        && has_size::<ForgetOne>(16)
        && has_size::<BatchForgetIn>(8)
        && has_size::<GetattrIn>(16)
        && has_size::<AttrOut>(104)
        && has_size::<MknodIn>(16)
        && has_size::<MkdirIn>(8)
        && has_size::<RenameIn>(8)
}

fn records_2(f: &Fields) -> bool {
    let _ = Rename2In {
        newdir: f.quad,
        flags: f.word,
        padding: f.word,
    };
    let _ = LinkIn { oldnodeid: f.quad };
    let _ = SetattrIn {
        valid: f.word,
        padding: f.word,
        fh: f.quad,
        size: f.quad,
        lock_owner: f.quad,
        atime: f.quad,
        mtime: f.quad,
        ctime: f.quad,
        atimensec: f.word,
        mtimensec: f.word,
        ctimensec: f.word,
        mode: f.word,
        unused4: f.word,
        uid: f.uid,
        gid: f.gid,
        unused5: f.word,
    };
    let _ = OpenIn {
        flags: f.word,
        open_flags: f.word,
    };
    let _ = CreateIn {
        flags: f.word,
        mode: f.word,
        umask: f.word,
        open_flags: f.word,
    };
    let _ = OpenOut {
        fh: f.quad,
        open_flags: f.word,
        padding: f.word,
    };
    let _ = ReleaseIn {
        fh: f.quad,
        flags: f.word,
        release_flags: f.word,
        lock_owner: f.quad,
    };
    let _ = FlushIn {
        fh: f.quad,
        unused: f.word,
        padding: f.word,
        lock_owner: f.quad,
    };
    let _ = ReadIn {
        fh: f.quad,
        offset: f.quad,
        size: f.word,
        read_flags: f.word,
        lock_owner: f.quad,
        flags: f.word,
        padding: f.word,
    };
    let _ = WriteIn {
        fh: f.quad,
        offset: f.quad,
        size: f.word,
        write_flags: f.word,
        lock_owner: f.quad,
        flags: f.word,
        padding: f.word,
    };
    let _ = WriteOut {
        size: f.word,
        padding: f.word,
    };
    has_size::<Rename2In>(16)
        && has_size::<LinkIn>(8)
        && has_size::<SetattrIn>(88)
        && has_size::<OpenIn>(8)
        && has_size::<CreateIn>(16)
        && has_size::<OpenOut>(16)
        && has_size::<ReleaseIn>(24)
        && has_size::<FlushIn>(24)
        && has_size::<ReadIn>(40)
        && has_size::<WriteIn>(40)
        && has_size::<WriteOut>(8)
}

fn records_3(f: &Fields) -> bool {
    let _ = FsyncIn {
        fh: f.quad,
        fsync_flags: f.word,
        padding: f.word,
    };
    let _ = SetxattrIn {
        size: f.word,
        flags: f.word,
        setxattr_flags: f.word,
        padding: f.word,
    };
    let _ = SetxattrInCompat {
        size: f.word,
        flags: f.word,
    };
    let _ = GetxattrIn {
        size: f.word,
        padding: f.word,
    };
    let _ = GetxattrOut {
        size: f.word,
        padding: f.word,
    };
    let _ = AccessIn {
        mask: f.word,
        padding: f.word,
    };
    let _ = InitInCompat {
        major: f.word,
        minor: f.word,
        max_readahead: f.word,
        flags: f.word,
    };
    let _ = InitInExt {
        flags2: f.word,
        unused: [f.word; 11],
    };
    let _ = InitOut {
        major: f.word,
        minor: f.word,
        max_readahead: f.word,
        flags: f.word,
        max_background: f.half,
        congestion_threshold: f.half,
        max_write: f.word,
        time_gran: f.word,
        max_pages: f.half,
        map_alignment: f.half,
        flags2: f.word,
        unused: [f.word; 7],
    };
    let _ = FallocateIn {
        fh: f.quad,
        offset: f.quad,
        length: f.quad,
        mode: f.word,
        padding: f.word,
    };
    let _ = InHeader {
        len: f.word,
        opcode: f.word,
        unique: f.quad,
        nodeid: f.quad,
        uid: f.uid,
        gid: f.gid,
        pid: f.word,
        total_extlen: f.half,
        padding: f.half,
    };
    has_size::<FsyncIn>(16)
        && has_size::<SetxattrIn>(16)
        && has_size::<SetxattrInCompat>(8)
        && has_size::<GetxattrIn>(8)
        && has_size::<GetxattrOut>(8)
        && has_size::<AccessIn>(8)
        && has_size::<InitInCompat>(16)
        && has_size::<InitInExt>(48)
        && has_size::<InitOut>(64)
        && has_size::<FallocateIn>(32)
        && has_size::<InHeader>(40)
}

fn records_4(f: &Fields) -> bool {
    let _ = OutHeader {
        len: f.word,
        error: f.int,
        unique: f.quad,
    };
    let _ = Dirent {
        ino: f.quad,
        off: f.quad,
        namelen: f.word,
        type_: f.word,
    };
    let _ = LseekIn {
        fh: f.quad,
        offset: f.quad,
        whence: f.word,
        padding: f.word,
    };
    let _ = LseekOut { offset: f.quad };
    let _ = CopyfilerangeIn {
        fh_in: f.quad,
        off_in: f.quad,
        nodeid_out: f.quad,
        fh_out: f.quad,
        off_out: f.quad,
        len: f.quad,
        flags: f.quad,
    };
    let _ = ExtHeader {
        size: f.word,
        ext_type: f.word,
    };
    let _ = Secctx {
        size: f.word,
        padding: f.word,
    };
    let _ = SuppGroups { nr_groups: f.word };
    let _ = FileLock {
        start: f.quad,
        end: f.quad,
        type_: f.word,
        pid: f.word,
    };
    let _ = StatfsOut {
        st: Kstatfs::default(),
    };
    let _ = LkIn {
        fh: f.quad,
        owner: f.quad,
        lk: FileLock::default(),
        lk_flags: f.word,
        padding: f.word,
    };
    has_size::<OutHeader>(16)
        && has_size::<Dirent>(24)
        && has_size::<LseekIn>(24)
        && has_size::<LseekOut>(8)
        && has_size::<CopyfilerangeIn>(56)
        && has_size::<ExtHeader>(8)
        && has_size::<Secctx>(8)
        && has_size::<SuppGroups>(4)
        && has_size::<FileLock>(24)
        && has_size::<StatfsOut>(80)
        && has_size::<LkIn>(48)
}

fn records_5(f: &Fields) -> bool {
    let _ = LkOut {
        lk: FileLock::default(),
    };
    let _ = InterruptIn { unique: f.quad };
    let _ = BmapIn {
        block: f.quad,
        blocksize: f.word,
        padding: f.word,
    };
    let _ = BmapOut { block: f.quad };
    let _ = IoctlIn {
        fh: f.quad,
        flags: f.word,
        cmd: f.word,
        arg: f.quad,
        in_size: f.word,
        out_size: f.word,
    };
    let _ = IoctlIovec {
        base: f.quad,
        len: f.quad,
    };
    let _ = IoctlOut {
        result: f.int,
        flags: f.word,
        in_iovs: f.word,
        out_iovs: f.word,
    };
    let _ = PollIn {
        fh: f.quad,
        kh: f.quad,
        flags: f.word,
        events: f.word,
    };
    let _ = PollOut {
        revents: f.word,
        padding: f.word,
    };
    let _ = NotifyPollWakeupOut { kh: f.quad };
    let _ = Direntplus {
        entry_out: EntryOut::default(),
        dirent: Dirent::default(),
    };
    has_size::<LkOut>(24)
        && has_size::<InterruptIn>(8)
        && has_size::<BmapIn>(16)
        && has_size::<BmapOut>(8)
        && has_size::<IoctlIn>(32)
        && has_size::<IoctlIovec>(16)
        && has_size::<IoctlOut>(16)
        && has_size::<PollIn>(24)
        && has_size::<PollOut>(8)
        && has_size::<NotifyPollWakeupOut>(8)
        && has_size::<Direntplus>(152)
}

fn records_6(f: &Fields) -> bool {
    let _ = NotifyInvalInodeOut {
        ino: f.quad,
        off: f.long,
        len: f.long,
    };
    let _ = NotifyInvalEntryOut {
        parent: f.quad,
        namelen: f.word,
        flags: f.word,
    };
    let _ = NotifyDeleteOut {
        parent: f.quad,
        child: f.quad,
        namelen: f.word,
        padding: f.word,
    };
    let _ = NotifyStoreOut {
        nodeid: f.quad,
        offset: f.quad,
        size: f.word,
        padding: f.word,
    };
    let _ = Notify_Retrieve_Out {
        notify_unique: f.quad,
        nodeid: f.quad,
        offset: f.quad,
        size: f.word,
        padding: f.word,
    };
    let _ = NotifyRetrieveIn {
        dummy1: f.quad,
        offset: f.quad,
        size: f.word,
        dummy2: f.word,
        dummy3: f.quad,
        dummy4: f.quad,
    };
    let _ = SetupmappingIn {
        fh: f.quad,
        foffset: f.quad,
        len: f.quad,
        flags: f.quad,
        moffset: f.quad,
    };
    let _ = RemovemappingIn { count: f.word };
    let _ = RemovemappingOne {
        moffset: f.quad,
        len: f.quad,
    };
    let _ = SyncfsIn { padding: f.quad };
    let _ = SecctxHeader {
        size: f.word,
        nr_secctx: f.word,
    };
    has_size::<NotifyInvalInodeOut>(24)
        && has_size::<NotifyInvalEntryOut>(16)
        && has_size::<NotifyDeleteOut>(24)
        && has_size::<NotifyStoreOut>(24)
        && has_size::<Notify_Retrieve_Out>(32)
        && has_size::<NotifyRetrieveIn>(40)
        && has_size::<SetupmappingIn>(40)
        && has_size::<RemovemappingIn>(4)
        && has_size::<RemovemappingOne>(16)
        && has_size::<SyncfsIn>(8)
        && has_size::<SecctxHeader>(8)
}

/// Whether every record is there, with its fields and its size.
pub(crate) fn all_records() -> bool {
    let f = Fields {
        half: 1,
        word: 2,
        quad: 3,
        int: -1,
        long: -2,
        uid: GuestUid::from(4),
        gid: GuestGid::from(5),
    };
    let sizes = has_size::<u8>(1) && has_size::<u16>(2) && has_size::<u32>(4) && has_size::<u64>(8);
    sizes
        && records_1(&f)
        && records_2(&f)
        && records_3(&f)
        && records_4(&f)
        && records_5(&f)
        && records_6(&f)
}
