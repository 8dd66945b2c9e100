//! The calls of the file system, in the trait's order. Those that are not served have their default
//! answers.

ghost use Rattle.std.specs.Prelude.{◌≡◌, map};
ghost use Rattle.vfs_files.specs.Calls.{Plain, Getattr, Setattr, attr_answer};
ghost use Rattle.vfs_flags.specs.Flags.{fs_options_bits, setattr_valid_bits};
ghost use Rattle.fs_tree.specs.Tree.{TreeAllows, all_forgotten, opens_nothing};

use crate::changes::PAGE;
use crate::fs::TreeFs;
use bitflags::Flags;
use fs_nodes::{
    Kind, check_contents, check_namespace, directory, entries_after, is_other, is_same, no_place,
    too_big,
};
use std::time::Duration;
use vfs_files::{
    CStr, Context, Entry, EntryList, Extensions, FileSystem, GetxattrReply, ListxattrReply,
    ZeroCopyReader, ZeroCopyWriter, copy_of, defaults,
};
use vfs_flags::{Errno, Fault, FsOptions, OpenOptions, SetattrValid, SetxattrFlags};
use vfs_wire::{Attr, SetattrIn, Statvfs64};

/// What LSEEK looks for.
const SEEK_DATA: u32 = 3;

const SEEK_HOLE: u32 = 4;

/// The flag by which an extended attribute that is there is not set.
const XATTR_CREATE: u32 = 1;

/// The flag by which one that is not there is not set.
const XATTR_REPLACE: u32 = 2;

/// The most bytes of a text that is answered: with the 16 of a header they are below 2 ^ 32.
const MOST_TEXT: u64 = 0xffff_ffef;

/// Whether a client that offered these opens and makes files without a request, once OPEN and CREATE
/// are ENOSYS. One that offered ATOMIC_O_TRUNC leaves it to OPEN to cut a file.
fn opens_nothing(offered: FsOptions) -> bool
    ensures { result ≡ opens_nothing (fs_options_bits offered) }
{
    let both = FsOptions::ZERO_MESSAGE_OPEN | FsOptions::ATOMIC_O_TRUNC;
    offered & both == FsOptions::ZERO_MESSAGE_OPEN
}

impl FileSystem for TreeFs {
    ghost use Rattle.fs_tree.specs.Tree.{TreeAllows};

    type Inode = u64;

    type Handle = u64;

    type DirIter = EntryList;

    ghost allows = { TreeAllows };

    #[tactic(auto, using(std::proofs::lemmas::Map::Steps::set_value_same))]
    fn lookup(&mut self, _ctx: Context, parent: u64, name: CStr<'_>) -> Result<Entry, Fault> {
        let above = directory(&self.nodes, parent, name.to_bytes())?;
        let Some(child) = above.children.get(name.to_bytes()) else {
            return Err(Some(Errno::ENOENT));
        };
        let Some(node) = self.nodes.get_mut(&child.node) else {
            return Err(Some(Errno::ENOENT));
        };
        if node.lookups == u64::MAX {
            return Err(Some(Errno::EOVERFLOW));
        }
        self.held.note(child.node, node.lookups == 0);
        let entry = node.entry(child.node);
        node.lookups += 1;
        Ok(entry)
    }

    fn forget(&mut self, _ctx: Context, inode: u64, count: u64) {
        self.take_back(inode, count);
    }

    fn getattr(
        &mut self,
        ctx: Context,
        inode: u64,
        handle: Option<u64>,
    ) -> Result<(Attr, Duration), Fault>
        ensures { TreeAllows self.old (Getattr ctx inode handle) (Plain (attr_answer result))
            self.new }
    {
        match self.nodes.get(&inode) {
            Some(node) => Ok((node.attr(inode), node.attr_timeout())),
            None => Err(Some(Errno::ENOENT)),
        }
    }

    #[tactic(auto, using(std::proofs::lemmas::Map::Steps::set_value_same, crate::proofs::Noting::rests_same))]
    fn setattr(
        &mut self,
        ctx: Context,
        inode: u64,
        attr: SetattrIn,
        handle: Option<u64>,
        valid: SetattrValid,
    ) -> Result<(Attr, Duration), Fault>
        ensures { TreeAllows self.old (Setattr ctx inode attr handle (setattr_valid_bits valid))
            (Plain (attr_answer result)) self.new }
    {
        let Some(node) = self.nodes.get(&inode) else {
            return Err(Some(Errno::ENOENT));
        };
        if valid.contains(SetattrValid::SIZE) {
            check_contents(node)?;
            if attr.size > self.longest() {
                return Err(Some(too_big()));
            }
        }
        let now = self.now;
        // (a client without OPEN cuts by a SETATTR what it opens with O_TRUNC)
        let is_open = handle.is_some() || opens_nothing(self.offered) && attr.size == 0;
        let Some(node) = self.nodes.get_mut(&inode) else {
            unreachable!()
        };
        let before = node.weight();
        node.set_attr(now, attr, is_open, valid);
        let after = node.weight();
        let (attr, timeout) = (node.attr(inode), node.attr_timeout());
        self.reweigh(before, after);
        Ok((attr, timeout))
    }

    #[tactic(auto, using(crate::proofs::Noting::rests_same))]
    fn readlink(&mut self, _ctx: Context, inode: u64) -> Result<Vec<u8>, Fault> {
        let (alloc, now) = (self.alloc, self.now);
        let Some(node) = self.nodes.get_mut(&inode) else {
            return Err(Some(Errno::ENOENT));
        };
        if !node.kind.is_link() || node.text.len() > MOST_TEXT {
            return Err(Some(Errno::EINVAL));
        }
        let text = node.text.copy(alloc)?;
        node.touch_atime(now);
        Ok(text)
    }

    fn symlink(
        &mut self,
        ctx: Context,
        linkname: CStr<'_>,
        parent: u64,
        name: CStr<'_>,
        _ext: Extensions,
    ) -> Result<Entry, Fault> {
        self.make(ctx, Kind::Link, 0o777, parent, name, linkname.to_bytes())
    }

    fn mknod(
        &mut self,
        ctx: Context,
        parent: u64,
        name: CStr<'_>,
        mode: u32,
        rdev: u32,
        _umask: u32,
        _ext: Extensions,
    ) -> Result<Entry, Fault> {
        let Some(kind) = Kind::by_mode(mode, rdev) else {
            return Err(Some(Errno::EPERM));
        };
        self.make(ctx, kind, mode, parent, name, &[])
    }

    fn mkdir(
        &mut self,
        ctx: Context,
        parent: u64,
        name: CStr<'_>,
        mode: u32,
        _umask: u32,
        _ext: Extensions,
    ) -> Result<Entry, Fault> {
        self.make(ctx, Kind::Directory, mode, parent, name, &[])
    }

    fn unlink(&mut self, _ctx: Context, parent: u64, name: CStr<'_>) -> Result<(), Fault> {
        let above = directory(&self.nodes, parent, name.to_bytes())?;
        let Some(child) = above.children.get(name.to_bytes()) else {
            return Err(Some(Errno::ENOENT));
        };
        let Some(node) = self.nodes.get(&child.node) else {
            return Err(Some(Errno::ENOENT));
        };
        if node.kind.is_directory() {
            return Err(Some(Errno::EISDIR));
        }
        self.lead_name(parent, name.to_bytes(), None);
        self.lose_name(child.node);
        Ok(())
    }

    fn rmdir(&mut self, _ctx: Context, parent: u64, name: CStr<'_>) -> Result<(), Fault> {
        let above = directory(&self.nodes, parent, name.to_bytes())?;
        let Some(child) = above.children.get(name.to_bytes()) else {
            return Err(Some(Errno::ENOENT));
        };
        let Some(node) = self.nodes.get(&child.node) else {
            return Err(Some(Errno::ENOENT));
        };
        if !node.kind.is_directory() {
            return Err(Some(Errno::ENOTDIR));
        }
        if !node.children.is_empty() {
            return Err(Some(Errno::ENOTEMPTY));
        }
        self.lead_name(parent, name.to_bytes(), None);
        self.lose_name(child.node);
        Ok(())
    }

    fn rename(
        &mut self,
        ctx: Context,
        olddir: u64,
        oldname: CStr<'_>,
        newdir: u64,
        newname: CStr<'_>,
        flags: u32,
    ) -> Result<(), Fault> {
        let from = directory(&self.nodes, olddir, oldname.to_bytes())?;
        let to = directory(&self.nodes, newdir, newname.to_bytes())?;
        let moved = from.children.get(oldname.to_bytes());
        let target = to.children.get(newname.to_bytes());
        self.check_rename(olddir, newdir, to, newname.to_bytes(), flags, moved, target)?;
        let Some(child) = moved else {
            return Err(Some(Errno::ENOENT));
        };
        if is_same(moved, target) {
            return Ok(());
        }
        self.move_child(ctx, olddir, oldname, newdir, newname, flags, child, target)
    }

    fn link(
        &mut self,
        _ctx: Context,
        inode: u64,
        newparent: u64,
        newname: CStr<'_>,
    ) -> Result<Entry, Fault> {
        let child = self.check_link(inode, newparent, newname.to_bytes())?;
        self.add_name(newparent, newname, child)?;
        Ok(self.count_link(inode))
    }

    #[tactic(auto, using(crate::proofs::Noting::rests_same))]
    fn open(
        &mut self,
        ctx: Context,
        inode: u64,
        kill_priv: bool,
        flags: u32,
    ) -> Result<(Option<u64>, OpenOptions), Fault> {
        if opens_nothing(self.offered) {
            return Err(Some(Errno::ENOSYS));
        }
        let now = self.now;
        let Some(node) = self.nodes.get_mut(&inode) else {
            return Err(Some(Errno::ENOENT));
        };
        let before = node.weight();
        let options = if node.truncates(flags) {
            OpenOptions::empty()
        } else {
            OpenOptions::KEEP_CACHE
        };
        node.open(now, ctx.uid, kill_priv, flags);
        let after = node.weight();
        self.reweigh(before, after);
        Ok((None, options))
    }

    #[tactic(auto, using(crate::proofs::Noting::rests_same))]
    fn read<W: ZeroCopyWriter>(
        &mut self,
        _ctx: Context,
        inode: u64,
        _handle: u64,
        w: &mut W,
        size: u32,
        offset: u64,
        _lock_owner: Option<u64>,
        _flags: u32,
    ) -> Result<usize, Fault> {
        let now = self.now;
        let Some(node) = self.nodes.get_mut(&inode) else {
            return Err(Some(Errno::ENOENT));
        };
        check_contents(node)?;
        if size > 0 {
            node.touch_atime(now);
        }
        node.contents.read_into(w, size, offset)
    }

    #[tactic(auto, using(std::proofs::lemmas::Map::Steps::set_value_same, crate::proofs::Noting::rests_same))]
    fn write<R: ZeroCopyReader>(
        &mut self,
        _ctx: Context,
        inode: u64,
        _handle: u64,
        r: &mut R,
        size: u32,
        offset: u64,
        _lock_owner: Option<u64>,
        delayed_write: bool,
        kill_priv: bool,
        _flags: u32,
    ) -> Result<u32, Fault> {
        let Some(node) = self.nodes.get(&inode) else {
            return Err(Some(Errno::ENOENT));
        };
        check_contents(node)?;
        if size > 0 && offset >= self.longest() {
            return Err(Some(too_big()));
        }
        let most = self.most_size(node, offset, size as u64);
        if size > 0 && offset >= most {
            return Err(Some(Errno::ENOSPC));
        }
        let (alloc, now) = (self.alloc, self.now);
        let Some(node) = self.nodes.get_mut(&inode) else {
            unreachable!()
        };
        let before = node.weight();
        let count = node.write_from(alloc, now, r, size, offset, most, delayed_write, kill_priv)?;
        let after = node.weight();
        self.reweigh(before, after);
        Ok(count)
    }

    fn statfs(&mut self, _ctx: Context, _inode: u64) -> Result<Statvfs64, Fault> {
        Ok(Statvfs64 {
            f_bsize: PAGE,
            f_frsize: PAGE,
            f_blocks: self.limits.bytes / PAGE,
            f_bfree: self.room() / PAGE,
            f_bavail: self.room() / PAGE,
            f_files: self.limits.nodes,
            f_ffree: self.limits.nodes.saturating_sub(self.inodes),
            f_namemax: 255,
        })
    }

    fn release(
        &mut self,
        _ctx: Context,
        _inode: u64,
        _flags: u32,
        _handle: u64,
        _flush: bool,
        _flock_release: bool,
        _lock_owner: Option<u64>,
    ) -> Result<(), Fault> {
        Ok(())
    }

    fn fsync(
        &mut self,
        _ctx: Context,
        _inode: u64,
        _datasync: bool,
        _handle: u64,
    ) -> Result<(), Fault> {
        Ok(())
    }

    #[tactic(auto, using(std::proofs::lemmas::Map::Steps::set_value_same, crate::proofs::Noting::rests_same))]
    fn setxattr(
        &mut self,
        _ctx: Context,
        inode: u64,
        name: CStr<'_>,
        value: &[u8],
        flags: u32,
        _extra: SetxattrFlags,
    ) -> Result<(), Fault> {
        let Some(node) = self.nodes.get(&inode) else {
            return Err(Some(Errno::ENOENT));
        };
        check_namespace(name.to_bytes())?;
        let is_there = node.xattrs.get(name.to_bytes()).is_some();
        if flags & XATTR_CREATE == XATTR_CREATE && is_there {
            return Err(Some(Errno::EEXIST));
        }
        if flags & XATTR_REPLACE == XATTR_REPLACE && !is_there {
            return Err(Some(Errno::ENODATA));
        }
        let Some(bytes) = node.xattrs.bytes_with(name.to_bytes(), value) else {
            return Err(Some(Errno::ENOSPC));
        };
        if bytes.saturating_sub(node.xattrs.bytes()) > self.room() {
            return Err(Some(Errno::ENOSPC));
        }
        let (alloc, now) = (self.alloc, self.now);
        let Some(node) = self.nodes.get_mut(&inode) else {
            unreachable!()
        };
        let before = node.weight();
        node.xattrs.set(alloc, name, value)?;
        node.ctime = now;
        let after = node.weight();
        self.reweigh(before, after);
        Ok(())
    }

    fn getxattr(
        &mut self,
        _ctx: Context,
        inode: u64,
        name: CStr<'_>,
        size: u32,
    ) -> Result<GetxattrReply, Fault> {
        let Some(node) = self.nodes.get(&inode) else {
            return Err(Some(Errno::ENOENT));
        };
        check_namespace(name.to_bytes())?;
        let Some(value) = node.xattrs.get(name.to_bytes()) else {
            return Err(Some(Errno::ENODATA));
        };
        if size == 0 {
            return Ok(GetxattrReply::Count(value.len() as u32));
        }
        if value.len() > size as usize {
            return Err(Some(Errno::ERANGE));
        }
        Ok(GetxattrReply::Value(copy_of(self.alloc, value)?))
    }

    fn listxattr(&mut self, ctx: Context, inode: u64, size: u32) -> Result<ListxattrReply, Fault> {
        let Some(node) = self.nodes.get(&inode) else {
            return Err(Some(Errno::ENOENT));
        };
        let to_other = is_other(ctx.uid);
        let length = node.xattrs.names_len(to_other);
        if size == 0 {
            return Ok(ListxattrReply::Count(length));
        }
        if length > size {
            return Err(Some(Errno::ERANGE));
        }
        Ok(ListxattrReply::Names(node.xattrs.names(self.alloc, to_other)?))
    }

    #[tactic(auto, using(std::proofs::lemmas::Map::Steps::set_value_same, crate::proofs::Noting::rests_same))]
    fn removexattr(&mut self, _ctx: Context, inode: u64, name: CStr<'_>) -> Result<(), Fault> {
        let now = self.now;
        let Some(node) = self.nodes.get_mut(&inode) else {
            return Err(Some(Errno::ENOENT));
        };
        check_namespace(name.to_bytes())?;
        if node.xattrs.get(name.to_bytes()).is_none() {
            return Err(Some(Errno::ENODATA));
        }
        let before = node.weight();
        node.xattrs.remove(name.to_bytes());
        node.ctime = now;
        let after = node.weight();
        self.reweigh(before, after);
        Ok(())
    }

    // Nothing is to be done when a descriptor is closed, and after ENOSYS Linux asks no more.
    fn flush(
        &mut self,
        _ctx: Context,
        _inode: u64,
        _handle: u64,
        _lock_owner: u64,
    ) -> Result<(), Fault> {
        Err(Some(Errno::ENOSYS))
    }

    fn init(&mut self, capable: FsOptions) -> Result<FsOptions, Fault> {
        let always = FsOptions::DO_READDIRPLUS
            | FsOptions::READDIRPLUS_AUTO
            | FsOptions::ZERO_MESSAGE_OPENDIR
            | FsOptions::HANDLE_KILLPRIV_V2;
        let wanted = if self.writeback {
            always | FsOptions::WRITEBACK_CACHE
        } else {
            always
        };
        self.release();
        self.offered = capable;
        if opens_nothing(capable) {
            Ok(wanted | FsOptions::ZERO_MESSAGE_OPEN)
        } else {
            Ok(wanted)
        }
    }

    fn opendir(
        &mut self,
        _ctx: Context,
        _inode: u64,
        _flags: u32,
    ) -> Result<(Option<u64>, OpenOptions), Fault> {
        if self.offered.contains(FsOptions::ZERO_MESSAGE_OPENDIR) {
            return Err(Some(Errno::ENOSYS));
        }
        Ok((None, OpenOptions::CACHE_DIR | OpenOptions::KEEP_CACHE))
    }

    #[tactic(auto, using(crate::proofs::Noting::rests_same))]
    fn readdir(
        &mut self,
        _ctx: Context,
        inode: u64,
        _handle: u64,
        size: u32,
        offset: u64,
    ) -> Result<EntryList, Fault> {
        let (alloc, now) = (self.alloc, self.now);
        let Some(node) = self.nodes.get_mut(&inode) else {
            return Err(Some(Errno::ENOENT));
        };
        if !node.kind.is_directory() {
            return Err(Some(Errno::ENOTDIR));
        }
        let entries = entries_after(alloc, inode, node, offset, size)?;
        node.touch_atime(now);
        Ok(entries)
    }

    fn releasedir(
        &mut self,
        _ctx: Context,
        _inode: u64,
        _flags: u32,
        _handle: u64,
    ) -> Result<(), Fault> {
        Ok(())
    }

    fn fsyncdir(
        &mut self,
        _ctx: Context,
        _inode: u64,
        _datasync: bool,
        _handle: u64,
    ) -> Result<(), Fault> {
        Ok(())
    }

    fn getlk(&mut self) -> Result<(), Fault> {
        defaults::no_such_call::<()>()
    }

    fn setlk(&mut self) -> Result<(), Fault> {
        defaults::no_such_call::<()>()
    }

    fn setlkw(&mut self) -> Result<(), Fault> {
        defaults::no_such_call::<()>()
    }

    fn access(&mut self, _ctx: Context, _inode: u64, _mask: u32) -> Result<(), Fault> {
        defaults::no_such_call::<()>()
    }

    fn create(
        &mut self,
        ctx: Context,
        parent: u64,
        name: CStr<'_>,
        mode: u32,
        _kill_priv: bool,
        flags: u32,
        _umask: u32,
        _ext: Extensions,
    ) -> Result<(Entry, Option<u64>, OpenOptions), Fault> {
        if name.to_bytes() == b"/".as_slice() {
            let entry = self.make_nameless(ctx, mode, parent, name, flags)?;
            return Ok((entry, None, OpenOptions::empty()));
        }
        if opens_nothing(self.offered) {
            return Err(Some(Errno::ENOSYS));
        }
        let entry = self.make(ctx, Kind::File, mode, parent, name, &[])?;
        Ok((entry, None, OpenOptions::empty()))
    }

    fn bmap(&mut self) -> Result<(), Fault> {
        defaults::no_such_call::<()>()
    }

    fn destroy(&mut self) {
        self.release();
    }

    fn ioctl(&mut self) -> Result<(), Fault> {
        defaults::no_such_call::<()>()
    }

    fn poll(&mut self) -> Result<(), Fault> {
        defaults::no_such_call::<()>()
    }

    fn notify_reply(&mut self) -> Result<(), Fault> {
        defaults::no_such_call::<()>()
    }

    fn batch_forget(&mut self, _ctx: Context, requests: Vec<(u64, u64)>)
        ensures { self.new ≡ all_forgotten self.old (map (λ p. (p.0, p.1)) requests.items) }
    {
        self.take_back_all(&requests);
    }

    #[tactic(auto, using(crate::proofs::Noting::rests_same))]
    fn fallocate(
        &mut self,
        _ctx: Context,
        inode: u64,
        _handle: u64,
        mode: u32,
        offset: u64,
        length: u64,
    ) -> Result<(), Fault> {
        self.check_allocate(inode, mode, offset, length)?;
        let (alloc, now) = (self.alloc, self.now);
        let Some(node) = self.nodes.get_mut(&inode) else {
            unreachable!()
        };
        let before = node.weight();
        node.contents.fallocate(alloc, mode, offset, length)?;
        node.mark_rewritten(now, true, false);
        let after = node.weight();
        self.reweigh(before, after);
        Ok(())
    }

    fn lseek(
        &mut self,
        _ctx: Context,
        inode: u64,
        _handle: u64,
        offset: u64,
        whence: u32,
    ) -> Result<u64, Fault> {
        if self.writeback {
            return Err(Some(Errno::ENOSYS));
        }
        let Some(node) = self.nodes.get(&inode) else {
            return Err(Some(Errno::ENOENT));
        };
        if !node.kind.is_file() || (whence != SEEK_DATA && whence != SEEK_HOLE) {
            return Err(Some(Errno::EINVAL));
        }
        if offset >= node.contents.len() {
            return Err(Some(no_place()));
        }
        if whence == SEEK_HOLE {
            return Ok(node.contents.hole_from(offset));
        }
        match node.contents.data_from(offset) {
            Some(place) => Ok(place),
            None => Err(Some(no_place())),
        }
    }

    fn copyfilerange(
        &mut self,
        _ctx: Context,
        _inode_in: u64,
        _handle_in: u64,
        _offset_in: u64,
        _inode_out: u64,
        _handle_out: u64,
        _offset_out: u64,
        _len: u64,
        _flags: u64,
    ) -> Result<u32, Fault> {
        defaults::no_such_call::<u32>()
    }

    fn syncfs(&mut self, _ctx: Context, _inode: u64) -> Result<(), Fault> {
        defaults::no_such_call::<()>()
    }

    fn tmpfile(&mut self) -> Fault {
        defaults::tmpfile()
    }
}
