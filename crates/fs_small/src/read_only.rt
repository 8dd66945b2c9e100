//! The calls of a tree's file system.

ghost use Rattle.std.specs.Prelude.{◌≡◌, ◌==◌, Some};
ghost use Rattle.vfs_files.specs.Values.{name_text};
ghost use Rattle.vfs_files.specs.Calls.{Plain, kind_of};
ghost use Rattle.vfs_files.specs.CallValue.{call_of, answer_of, IsEntry, IsAttributes, IsOfKind};
ghost use Rattle.fs_small.specs.ReadOnly.{AnswersLookup, AnswersAttr, TreeHands, refusal_of, lookup_refusal};

use crate::listing::TreeEntries;
use crate::makers::{TIMEOUT_SECONDS, node_entry};
use crate::tree::ReadTree;
use std::time::Duration;
use vfs_files::{
    CStr, CallValue, Context, Given, PartialFileSystem, ReadValue, WriteValue, ZeroCopyReader,
    ZeroCopyWriter, read_bytes, unserved,
};
use vfs_flags::{Errno, Fault};

/// In `flags` of an open: that it is for writing (`O_WRONLY` or `O_RDWR`).
const FOR_WRITING: u32 = 3;

/// In `mask` of an access: that the caller would write (`W_OK`).
const MAY_WRITE: u32 = 2;

/// The file system of a tree. What would change something is `Errno::EROFS`; what a tree has no
/// part in has its default answer. It says of each answer that it holds for a second.
///
/// Files and directories are opened without a handle, and read by their nodes alone.
#[derive(Drop)]
pub struct ReadOnly<T> {
    /// The tree.
    pub tree: T,
}

impl<T: ReadTree> ReadOnly<T> {
    // The fault of a node that is not of the kind that is wanted: `other`, or ENOENT where there is
    // no such node.
    fn refusal(&self, node: u64, other: Errno) -> Fault
        ensures { result ≡ Some (refusal_of (T.tables self.now.tree) node other) }
    {
        match self.tree.attr(node) {
            Some(_) => Some(other),
            None => Some(Errno::ENOENT),
        }
    }

    // The fault of a name that is not there.
    fn lookup_refusal(&self, parent: u64) -> Fault
        ensures { result ≡ Some (lookup_refusal (T.tables self.now.tree) parent) }
    {
        if self.tree.is_directory(parent) {
            Some(Errno::ENOENT)
        } else {
            self.refusal(parent, Errno::ENOTDIR)
        }
    }

    // A LOOKUP.
    #[inline(always)]
    fn look_up(&self, parent: u64, name: CStr<'_>) -> Result<Given, Fault>
        ensures answer { AnswersLookup (T.tables self.now.tree) parent
            ((T.tables self.now.tree).child parent (name_text name.entry)) (answer_of result) }
        ensures kind { IsEntry result }
    {
        match self.tree.child(parent, name.to_bytes()) {
            Some(node) => match self.tree.attr(node) {
                Some(attr) => Ok(Given::Found(node_entry(node, attr))),
                None => Err(Some(Errno::ENOENT)),
            },
            None => Err(self.lookup_refusal(parent)),
        }
    }

    // A GETATTR.
    #[inline(always)]
    fn attributes(&self, inode: u64) -> Result<Given, Fault>
        ensures answer { AnswersAttr ((T.tables self.now.tree).attr inode) (answer_of result) }
        ensures kind { IsAttributes result }
    {
        match self.tree.attr(inode) {
            Some(attr) => {
                let timeout = Duration::from_secs(TIMEOUT_SECONDS);
                Ok(Given::Attributes(attr, timeout))
            }
            None => Err(Some(Errno::ENOENT)),
        }
    }

    // What a call answers.
    #[inline(always)]
    fn given(&self, asked: &CallValue<'_>) -> Result<Given, Fault>
        ensures answer { TreeHands (T.tables self.now.tree) (call_of asked.now)
            (Plain (answer_of result)) }
        ensures kind { IsOfKind (kind_of (call_of asked.now)) result }
    {
        match asked {
            CallValue::Lookup { parent, name, .. } => self.look_up(*parent, *name),
            CallValue::Getattr { inode, .. } => self.attributes(*inode),
            CallValue::Open { flags, .. } if *flags & FOR_WRITING != 0 => Err(Some(Errno::EROFS)),
            CallValue::Access { mask, .. } if *mask & MAY_WRITE == 0 => Ok(Given::Done),
            CallValue::Access { .. }
            | CallValue::Setattr { .. }
            | CallValue::Symlink { .. }
            | CallValue::Mknod { .. }
            | CallValue::Mkdir { .. }
            | CallValue::Unlink { .. }
            | CallValue::Rmdir { .. }
            | CallValue::Rename { .. }
            | CallValue::Link { .. }
            | CallValue::Setxattr { .. }
            | CallValue::Removexattr { .. }
            | CallValue::Create { .. }
            | CallValue::Fallocate { .. }
            | CallValue::Copyfilerange { .. }
            | CallValue::Tmpfile => Err(Some(Errno::EROFS)),
            _ => unserved(asked),
        }
    }
}

impl<T: ReadTree> PartialFileSystem for ReadOnly<T> {
    ghost use Rattle.std.specs.Prelude.{◌≡◌};
    ghost use Rattle.fs_small.specs.ReadOnly.{TreeHands};

    type Entries = TreeEntries<T>;

    ghost permits = { λ old call handed new.
        TreeHands (T.tables old.tree) call handed × (new ≡ old) };

    #[inline(always)]
    fn call(&mut self, asked: CallValue<'_>) -> Result<Given, Fault> {
        self.given(&asked)
    }

    fn read_data<W: ZeroCopyWriter>(
        &mut self,
        asked: ReadValue,
        w: &mut W,
    ) -> Result<usize, Fault> {
        match self.tree.contents(asked.inode) {
            Some(bytes) => read_bytes(bytes, w, asked.size, asked.offset),
            None => Err(self.refusal(asked.inode, Errno::EISDIR)),
        }
    }

    fn write_data<R: ZeroCopyReader>(
        &mut self,
        _asked: WriteValue,
        _r: &mut R,
    ) -> Result<u32, Fault> {
        Err(Some(Errno::EROFS))
    }

    fn read_directory(
        &mut self,
        _ctx: Context,
        inode: u64,
        _handle: u64,
        _size: u32,
        offset: u64,
    ) -> Result<TreeEntries<T>, Fault> {
        if !self.tree.is_directory(inode) {
            return Err(self.refusal(inode, Errno::ENOTDIR));
        }
        Ok(TreeEntries {
            tree: self.tree,
            node: inode,
            next: offset,
        })
    }
}
